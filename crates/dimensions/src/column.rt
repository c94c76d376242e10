//! A column of texts by codes.
ghost use Rattle.std.specs.Prelude.{◌≡◌, ◌<◌, ◌≤◌, [], length, MatchOption, slice_index_or, IfOk, OnOk, IsOkUnless};
ghost use Rattle.cube_model.specs.Limits.{most_members};

use crate::coded::CodedColumn;
use crate::ranks::Ranks;
use cube_model::Fault;
use cube_model::limits::MOST_MEMBERS;
use dictionary::Dictionary;
use hierarchy::Hierarchy;
use std::alloc::Global;

/// The texts of a column in the order of their first use, the code of the text at each place, and the rank of each
/// text.
///
/// The places are the rows, or the codes of a lower column whose texts determine those of this one. The ranks are made
/// once, after all rows are there.
pub struct Column {
    lower: Option<usize>,
    texts: Dictionary,
    codes: Hierarchy,
    ranks: Ranks,
}

// Written out, so that a proof has one call to follow where a column is let go.
impl Drop for Column {
    fn drop(self) {
        let Column {
            lower: _,
            texts: _,
            codes: _,
            ranks: _,
        } = self;
    }
}

impl Column {
    ghost use Rattle.dimensions.specs.Columns.{HasCode, HasNoCodeLeft, Enters, column_of_coded, ranked, unranked};

    /// The column with no text, above the rows or above a lower column.
    pub fn new(alloc: Global, lower: Option<usize>) -> Column
        ensures lower { result.lower ≡ lower }
        ensures texts { result.texts ≡ record { texts = []; limit = most_members } }
        ensures codes { result.codes ≡ [] }
        ensures ranks { result.ranks ≡ [] }
    {
        Column {
            lower,
            texts: Dictionary::new(alloc, MOST_MEMBERS as u32),
            codes: Hierarchy::new(alloc),
            ranks: Ranks::none(alloc),
        }
    }

    /// A column by codes, above the rows or above a lower column. It can only fail when out of memory.
    pub fn of_coded(
        alloc: Global,
        lower: Option<usize>,
        coded: CodedColumn,
    ) -> Result<Column, Fault>
        requires { length coded.texts.texts ≤ most_members }
        ensures ok { IfOk result (λ column. column ≡ column_of_coded lower coded) }
        ensures memory { IsOkUnless result Fault.Memory }
    {
        let CodedColumn { texts, codes } = coded;
        let ranks = Ranks::of_dictionary(alloc, &texts)?;
        Ok(Column {
            lower,
            texts,
            codes: Hierarchy::of(codes.into_vec()),
            ranks,
        })
    }

    /// The same column again, with no ranks. It can only fail when out of memory.
    pub fn copied(&self, alloc: Global) -> Result<Column, Fault>
        ensures ok { IfOk result (λ copy. copy ≡ unranked self.now) }
        ensures memory { IsOkUnless result Fault.Memory }
    {
        let texts = self.texts.copied(alloc)?;
        let codes = Vec::from_slice(alloc, self.codes.uppers())?;
        Ok(Column {
            lower: self.lower,
            texts,
            codes: Hierarchy::of(codes),
            ranks: Ranks::none(alloc),
        })
    }

    /// Ranks the texts. It can only fail when out of memory.
    pub fn rank_members(&mut self, alloc: Global) -> Result<(), Fault>
        requires { length self.old.texts.texts ≤ most_members }
        ensures ok { OnOk result (self.new ≡ ranked self.old) }
        ensures memory { IsOkUnless result Fault.Memory }
    {
        self.ranks = Ranks::of_dictionary(alloc, &self.texts)?;
        Ok(())
    }

    /// The lower column, if there is one.
    pub fn lower(&self) -> Option<usize>
        ensures { result ≡ self.now.lower }
    {
        self.lower
    }

    /// The texts.
    pub fn texts(&self) -> &Dictionary
        ensures { result.now ≡ self.now.texts }
    {
        &self.texts
    }

    /// The ranks of the texts.
    pub fn ranks(&self) -> &Ranks
        ensures { result.now ≡ self.now.ranks }
    {
        &self.ranks
    }

    /// The code that a text has, or that it would get. Nothing where it is new and there is no room for it.
    pub fn code_for(&self, text: &[u8]) -> Option<u16>
        requires { self.now.texts.limit ≡ most_members }
        ensures { MatchOption result (HasNoCodeLeft self.now.texts text.now) (HasCode self.now.texts text.now) }
    {
        if let Some(code) = self.texts.code(text) {
            return Some(code as u16);
        }
        let next = self.texts.len();
        if next >= MOST_MEMBERS {
            return None;
        }
        Some(next as u16)
    }

    /// Puts a text with its code at a place, and says whether it is there now. It is not where another one
    /// is there.
    pub fn enter(
        &mut self,
        alloc: Global,
        place: usize,
        text: &[u8],
        code: u16,
    ) -> Result<bool, Fault>
        requires limit { self.old.texts.limit ≡ most_members }
        requires code { HasCode self.old.texts text.now code }
        ensures ok { IfOk result (λ fits. Enters self.old place text.now code fits self.new) }
        ensures memory { IsOkUnless result Fault.Memory }
    {
        if usize::from(code) == self.texts.len() {
            self.texts.add(alloc, text)?;
        }
        self.codes.link(place, code)
    }

    /// The code at each place.
    pub fn codes(&self) -> &[u16]
        ensures { result.now ≡ self.now.codes }
    {
        self.codes.uppers()
    }

    /// The code at a place.
    pub fn code(&self, place: usize) -> u16
        requires { place < length self.now.codes }
        ensures { result ≡ slice_index_or self.now.codes place 0 }
    {
        self.codes.up(place).unwrap()
    }
}
