//! The words of a query, as a partial report names them.
ghost use Rattle.std.specs.Prelude.{◌≡◌, [], ◌∷◌, ◌++◌, true, false, if◌then◌else◌, OnOk, IsOkUnless};
ghost use Rattle.std.specs.List.{list_all};
ghost use Rattle.std.specs.Option.{option_map};
ghost use Rattle.partial_reports.specs.Head.{is_line_feed, is_short_word, kind_by, kind_text, word_if_any, word_text};

use cube_model::{Fault, Items, Text};
use std::alloc::Global;
use wire::push_bytes;

/// What a word of a query says: its number in the benchmark, its set, its columns, its aggregates, or a condition.
#[derive(Clone, Copy, PartialEq, Eq)]
pub enum WordKind {
    Q,
    Set,
    By,
    Agg,
    If,
}

/// A word of a query, as it was given.
#[derive(PartialEq, Eq, Drop)]
pub struct Word {
    pub kind: WordKind,
    pub text: Text,
}

/// The most bytes of a word.
pub const LONGEST_WORD: usize = 8000;

impl Word {
    // A word can be on a line of its own.
    pub(crate) fn is_short(&self) -> bool
        ensures { result ≡ is_short_word self.now }
    {
        self.text.len() <= LONGEST_WORD && has_no_feed(self.text.as_slice())
    }

    // Adds the line of a word.
    pub(crate) fn push_to(&self, out: &mut Vec<u8>) -> Result<(), Fault>
        ensures ok { OnOk result (out.new.items ≡ out.old.items ++ word_text self.now) }
        ensures only { IsOkUnless result Fault.Memory }
    {
        push_bytes(out, self.kind.name())?;
        push_bytes(out, self.text.as_slice())?;
        push_bytes(out, b"\n")
    }
}

impl WordKind {
    // The kind whose name begins with a letter, and conditions at any other. Its name is compared by the caller.
    pub(crate) fn of(letter: u8) -> WordKind
        ensures { result ≡ kind_by letter }
    {
        match letter {
            b'q' => WordKind::Q,
            b's' => WordKind::Set,
            b'b' => WordKind::By,
            b'a' => WordKind::Agg,
            _ => WordKind::If,
        }
    }

    // The name of a kind of words, and a blank.
    pub(crate) fn name(self) -> &'static [u8]
        ensures { result.now ≡ kind_text self }
    {
        match self {
            WordKind::Q => b"q ",
            WordKind::Set => b"set ",
            WordKind::By => b"by ",
            WordKind::Agg => b"agg ",
            WordKind::If => b"if ",
        }
    }
}

// Adds a word.
pub(crate) fn push_word(
    alloc: Global,
    words: &mut Items<Word>,
    kind: WordKind,
    text: &str,
) -> Result<(), Fault>
    ensures ok { OnOk result (words.new ≡ words.old ++ record { kind = kind; text = text.now } ∷ []) }
    ensures only { IsOkUnless result Fault.Memory }
{
    let text = Vec::from_slice(alloc, text.as_bytes())?;
    words.push(Word {
        kind,
        text: Items::from_vec(text),
    })?;
    Ok(())
}

// Adds a word that may be missing.
pub(crate) fn push_if_any(
    alloc: Global,
    words: &mut Items<Word>,
    kind: WordKind,
    text: Option<&str>,
) -> Result<(), Fault>
    ensures ok { OnOk result (words.new ≡ words.old ++ word_if_any kind (option_map (λ word. word.now) text.entry)) }
    ensures only { IsOkUnless result Fault.Memory }
{
    match text {
        Some(text) => push_word(alloc, words, kind, text),
        None => Ok(()),
    }
}

// A text has no line feed.
fn has_no_feed(text: &[u8]) -> bool
    ensures { result ≡ list_all (λ byte. if is_line_feed byte then false else true) text.now }
{
    text.iter().all(|byte| *byte != b'\n')
}
