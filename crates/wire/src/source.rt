//! Reading parts of texts, from wherever they are.
ghost use Rattle.std.specs.Prelude.{◌≡◌, ◌+◌, ◌≤◌, ℕ, List, Option, length, option_map, IfErr, IsSomeAnd, MatchResult};
ghost use Rattle.std.specs.Prelude.{OnOk};
ghost use Rattle.cube_model.specs.declared.fault.Fault.{Fault};
ghost use Rattle.wire.specs.Parts.{Gives, IsReadFault};

use cube_model::Fault;

/// Texts by their ids, of which parts are read.
///
/// What is said of the bytes of a text holds where the source keeps its word.
pub trait Source {
    /// How many bytes each text has, by its id.
    ghost totals: { Self → ℕ → Option ℕ };

    /// The bytes of each text, by its id.
    ghost texts: { Self → ℕ → Option (List ℕ) };

    /// It has given the bytes of its texts so far, and does so in the call.
    ghost keeps_word: { Self → Type 0 };

    /// It is no real thing, so that it keeps its word in each call.
    ghost always_keeps: { Type 0 };

    /// What a source of this kind promises of reads that succeeded, from one state to another.
    ghost reads: { Self → Self → Type 0 };

    /// What it promises of such reads with one after them that was refused.
    ghost fails: { Fault → Self → Self → Type 0 };

    /// How many bytes a text has, if there is one of that id.
    fn total(&self, id: u32) -> Option<u64>
        ensures total { result ≡ totals self.now id }
        ensures text { keeps_word self.now → result ≡ option_map length (texts self.now id) };

    /// Reads the bytes of a text from a place on. After an error the buffer may hold anything.
    fn read_part(&mut self, id: u32, at: u64, to: &mut [u8]) -> Result<(), Fault>
        requires within { IsSomeAnd (totals self.old id) (λ total. at + length to.old ≤ total) }
        ensures bytes { OnOk result (keeps_word self.new → Gives (texts self.old id) at to.new) }
        ensures causes { IfErr result IsReadFault }
        ensures run { MatchResult result (λ _. reads self.old self.new) (λ fault. fails fault self.old self.new) }

        // Also after an error.
        ensures totals_stay { (other : ℕ) → totals self.new other ≡ totals self.old other }
        ensures texts_stay { keeps_word self.new → (other : ℕ) → texts self.new other ≡ texts self.old other }
        ensures word { keeps_word self.new → keeps_word self.old }
        ensures goes_on { always_keeps → keeps_word self.old → keeps_word self.new };

    /// No read is a run of reads.
    ghost none_read: { (source : Self) → reads source source };

    /// Two runs of reads are one.
    ghost reads_on: { (old mid new : Self) → reads old mid → reads mid new → reads old new };

    /// A refusal after a run of reads is one after a longer run.
    ghost fails_later: { (fault : Fault) (old mid new : Self)
        → reads old mid → fails fault mid new → fails fault old new };
}

/// Bytes in memory, which are at every id.
#[derive(Drop)]
pub struct SliceSource<'a> {
    bytes: &'a [u8],
}

impl<'a> SliceSource<'a> {
    ghost use Rattle.wire.specs.Slices.{slice_bytes};

    /// The bytes as a source.
    pub fn new(bytes: &'a [u8]) -> Self
        ensures { slice_bytes result ≡ bytes.now }
    {
        SliceSource { bytes }
    }
}

impl<'a> Source for SliceSource<'a> {
    ghost use Rattle.std.specs.Prelude.{length, Some};

    ghost totals = { λ s id. Some (length s.bytes.now) };

    ghost texts = { λ s id. Some s.bytes.now };

    ghost keeps_word = { λ s. Unit {0} };

    ghost always_keeps = { Unit {0} };

    ghost reads = { λ old new. Unit {0} };

    ghost fails = { λ fault old new. ⊥ };

    fn total(&self, id: u32) -> Option<u64> {
        let _ = id;
        Some(self.bytes.len() as u64)
    }

    fn read_part(&mut self, id: u32, at: u64, to: &mut [u8]) -> Result<(), Fault> {
        let _ = id;
        let at = at as usize;
        to.copy_from_slice(&self.bytes[at..at + to.len()]);
        Ok(())
    }

    ghost none_read = { λ source. tt };

    ghost reads_on = { λ old mid new first second. tt };

    ghost fails_later = { λ fault old mid new first second. second };
}
