//! The texts that were seen, and their codes.
ghost use Rattle.std.specs.Prelude.{◌≡◌, ◌⊎◌, ◌<◌, ◌≤◌, ◌^◌, ◌++◌, [], length, map, slice_get, Some, IfOk, IfSome};
ghost use Rattle.std.specs.Prelude.{IfErr, IsOkUnless, IsTrue, OnErr, OnOk};
ghost use Rattle.std.specs.Option.{option_map};
ghost use Rattle.dictionary.specs.Dictionary.{code_of, Adds, EachOnce};
ghost use Rattle.dictionary.specs.Spelling.{AreShort, BeginsWithNone, ReadsTexts, texts_spelling};

use crate::memo::Memo;
use crate::reading::read_texts;
use crate::writing::push_texts;
use cube_model::Fault;
use indexmap::IndexSet;
use std::alloc::Global;
use std::marker::Model;
use wire::{Cursor, push_u32};

/// Texts in the order of their first use, each once, as many as a limit allows.
///
/// Contracts see it as the list of its texts with the limit. A code is a place from 0: that of the text's first use.
#[derive(Drop)]
pub struct Dictionary {
    texts: IndexSet<Vec<u8>>,
    limit: u32,
    memo: Memo,
}

impl Model for Dictionary {
    ghost use Rattle.std.specs.Prelude.{◌^◌, ◌<◌, ◌≤◌, map};
    ghost use Rattle.indexmap.specs.IndexSet.{index_set_len};
    ghost use Rattle.dictionary.specs.Dictionary.{Texts, EachOnce};

    ghost Value = { Texts };

    ghost view = { λ d. record { texts = map (λ v. v.items) d.texts.keys; limit = d.limit } };

    ghost invariant = { λ d. (index_set_len d.texts ≤ d.limit) × (d.limit < 2 ^ 32)
        × EachOnce (map (λ v. v.items) d.texts.keys) };
}

impl Dictionary {
    /// A dictionary with no text, for as many as the limit.
    pub fn new(alloc: Global, limit: u32) -> Dictionary
        ensures { result ≡ record { texts = []; limit = limit } }
    {
        Dictionary {
            texts: IndexSet::new(alloc),
            limit,
            memo: Memo::new(alloc),
        }
    }

    /// The same texts again, with the same codes and the same limit. It can only fail when out of memory.
    pub fn copied(&self, alloc: Global) -> Result<Dictionary, Fault>
        ensures ok { IfOk result (λ copy. copy ≡ self.now) }
        ensures memory { IsOkUnless result Fault.Memory }
    {
        let mut copy = Dictionary::new(alloc, self.limit);
        copy.add_each(alloc, self.texts.as_slice())?;
        Ok(copy)
    }

    /// How many texts there are.
    pub fn len(&self) -> usize
        ensures count { result ≡ length self.now.texts }
        ensures within { result ≤ self.now.limit }
        ensures limit { self.now.limit < 2 ^ 32 }
    {
        self.texts.len()
    }

    /// The code of a text, if it was seen.
    pub fn code(&self, text: &[u8]) -> Option<u32>
        ensures value { result ≡ code_of self.now.texts text.now }
        ensures within { IfSome result (λ code. code < self.now.limit) }
    {
        match self.texts.get_index_of(text) {
            None => None,
            Some(place) => Some(place as u32),
        }
    }

    /// The text of a code, if there is such a code. Its code is that one.
    pub fn text(&self, code: u32) -> Option<&[u8]>
        ensures text { option_map (λ text. text.now) result ≡ slice_get self.now.texts code }
        ensures again { IfSome result (λ text. code_of self.now.texts text.now ≡ Some code) }
    {
        match self.texts.get_index(code as usize) {
            None => None,
            Some(text) => Some(text.as_slice()),
        }
    }

    /// The code of a text, which is added if it was not seen. Nothing where a new text would pass the limit.
    ///
    /// It can only fail when out of memory, and then changes nothing.
    #[inline(always)]
    pub fn add(&mut self, alloc: Global, text: &[u8]) -> Result<Option<u32>, Fault>
        ensures ok { IfOk result (λ code. Adds self.old text.now code self.new) }
        ensures within { IfOk result (λ code. IfSome code (λ c. c < self.old.limit)) }
        ensures few { length self.new.texts ≤ self.new.limit }
        ensures err { OnErr result (self.new ≡ self.old) }
        ensures memory { IsOkUnless result Fault.Memory }
    {
        let guess = self.memo.guess(text);
        if self.has_text_at(text, guess) {
            return Ok(Some(guess as u32));
        }
        self.find_or_add(alloc, text)
    }

    // The same, where the text is not at its guess.
    #[inline(never)]
    fn find_or_add(&mut self, alloc: Global, text: &[u8]) -> Result<Option<u32>, Fault>
        ensures ok { IfOk result (λ code. Adds self.old text.now code self.new) }
        ensures within { IfOk result (λ code. IfSome code (λ c. c < self.old.limit)) }
        ensures few { length self.new.texts ≤ self.new.limit }
        ensures err { OnErr result (self.new ≡ self.old) }
        ensures memory { IsOkUnless result Fault.Memory }
    {
        let code = self.add_unkept(alloc, text)?;
        if let Some(place) = code {
            self.memo.keep(text, place as usize);
        }
        Ok(code)
    }

    // The same, and no guess is kept for the text.
    pub(crate) fn add_unkept(&mut self, alloc: Global, text: &[u8]) -> Result<Option<u32>, Fault>
        ensures ok { IfOk result (λ code. Adds self.old text.now code self.new) }
        ensures within { IfOk result (λ code. IfSome code (λ c. c < self.old.limit)) }
        ensures few { length self.new.texts ≤ self.new.limit }
        ensures err { OnErr result (self.new ≡ self.old) }
        ensures memory { IsOkUnless result Fault.Memory }
    {
        if let Some(place) = self.texts.get_index_of(text) {
            return Ok(Some(place as u32));
        }
        let next = self.texts.len();
        if next >= self.limit as usize {
            return Ok(None);
        }
        let text = Vec::from_slice(alloc, text)?;
        self.texts.insert(text)?;
        Ok(Some(next as u32))
    }

    // Adds texts that are all different to none, as many as the limit allows.
    fn add_each(&mut self, alloc: Global, texts: &[Vec<u8>]) -> Result<(), Fault>
        requires none { self.old.texts ≡ [] }
        requires once { EachOnce (map (λ text. text.items) texts.now) }
        requires few { length texts.now ≤ self.old.limit }
        ensures ok { OnOk result
            (self.new ≡ record { texts = map (λ text. text.items) texts.now; limit = self.old.limit }) }
        ensures memory { IsOkUnless result Fault.Memory }
    {
        for text in texts {
            self.add_unkept(alloc, text)?;
        }
        Ok(())
    }

    // Whether a text is the one at a place.
    #[inline(always)]
    fn has_text_at(&self, text: &[u8], place: usize) -> bool
        ensures seen { IsTrue result → code_of self.now.texts text.now ≡ Some place }
        ensures within { IsTrue result → place < self.now.limit }
    {
        match self.texts.get_index(place) {
            None => false,
            Some(own) => own.as_slice() == text,
        }
    }

    /// Adds the texts to bytes, as they are stored: their number in four bytes, then each with its length in one byte
    /// before it. No text may have more than 255 bytes.
    ///
    /// It can only fail when out of memory, and the bytes may then have a part of them.
    pub fn push_to(&self, out: &mut Vec<u8>) -> Result<(), Fault>
        requires short { AreShort self.now.texts }
        ensures ok { OnOk result (out.new.items ≡ out.old.items ++ texts_spelling self.now.texts) }
        ensures memory { IsOkUnless result Fault.Memory }
    {
        push_u32(out, self.texts.len() as u32)?;
        push_texts(out, self.texts.as_slice())
    }

    /// Takes the texts of a dictionary, as they are stored, from the front of bytes: at most as many as the limit, and
    /// all different.
    ///
    /// `BadLayout` exactly where the bytes begin with no such texts. The cursor is then anywhere.
    pub fn read(alloc: Global, cursor: &mut Cursor<'_>, limit: u32) -> Result<Dictionary, Fault>
        ensures ok { IfOk result (λ found. ReadsTexts limit cursor.old cursor.new found.texts) }
        ensures limit { IfOk result (λ found. found.limit ≡ limit) }
        ensures refused { IfErr result (λ fault. (fault ≡ Fault.Memory) ⊎ ((fault ≡ Fault.BadLayout)
            × BeginsWithNone limit cursor.old)) }
    {
        let count = cursor.u32()?;
        if count > limit {
            return Err(Fault::BadLayout);
        }
        let mut found = Dictionary::new(alloc, limit);
        read_texts(alloc, cursor, &mut found, count)?;
        Ok(found)
    }
}
