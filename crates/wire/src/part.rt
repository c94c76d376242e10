//! Reads of a source, for code that reads in a loop.
ghost use Rattle.std.specs.Prelude.{◌+◌, ◌≤◌, length, IsSomeAnd, OnOk};
ghost use Rattle.wire.specs.Parts.{Gives};
ghost use Rattle.wire.specs.Runs.{ReadsSource};

use crate::source::Source;
use cube_model::Fault;

/// Reads the bytes of a text from a place on, as the source does, and says what becomes of the source.
pub fn read_part<S: Source>(source: &mut S, id: u32, at: u64, to: &mut [u8]) -> Result<(), Fault>
    requires { IsSomeAnd (S.totals source.old id) (λ total. at + length to.old ≤ total) }
    ensures bytes { OnOk result (S.keeps_word source.new → Gives (S.texts source.old id) at to.new) }
    ensures run { ReadsSource S.Source source.old source.new result }
{
    source.read_part(id, at, to)
}
