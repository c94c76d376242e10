//! Reading a run from a source.
ghost use Rattle.std.specs.Prelude.{◌≡◌, ◌⊎◌, option_map, IfErr, IfOk, IsErrOf, IsSomeAnd};
ghost use Rattle.cube_model.specs.Causes.{EndsDecoding};
ghost use Rattle.cube_model.specs.declared.fault.Fault.{Fault};
ghost use Rattle.wire.specs.Runs.{ReadsSourceOr};
ghost use Rattle.cuboid_cells.specs.Spelled.{HoldsNoRun, IsRun};

use crate::cells::Cells;
use crate::span::Span;
use cube_model::Fault;
use std::alloc::Global;
use wire::{Source, read_whole};

/// The run whose bytes a source has at an id, read through one small buffer: its batches, and its cells.
///
/// `BadLayout` where there are none, or where they are those of no run. It can also fail when out of memory, or with
/// what the source answers.
pub fn decode_from<S: Source>(
    alloc: Global,
    source: &mut S,
    id: u32,
) -> Result<(Span, Cells), Fault>
    ensures ok { IfOk result (λ run. S.keeps_word source.new
        → IsSomeAnd (S.texts source.old id) (λ bytes. IsRun bytes run.0 run.1)) }
    ensures refused { IsErrOf result Fault.BadLayout → S.keeps_word source.new → HoldsNoRun (S.texts source.old id) }
    ensures run { ReadsSourceOr S.Source EndsDecoding source.old source.new result }
{
    let found = read_whole(alloc, source, id)?;
    decode_found(alloc, found)
}

// The run that has the bytes that were found.
fn decode_found(alloc: Global, found: Option<Vec<u8>>) -> Result<(Span, Cells), Fault>
    ensures ok { IfOk result (λ run. IsSomeAnd (option_map (λ bytes. bytes.items) found)
        (λ bytes. IsRun bytes run.0 run.1)) }
    ensures refused { IfErr result (λ fault. (fault ≡ Fault.Memory) ⊎ ((fault ≡ Fault.BadLayout)
        × HoldsNoRun (option_map (λ bytes. bytes.items) found))) }
{
    match found {
        Some(bytes) => Cells::decode(alloc, &bytes),
        None => Err(Fault::BadLayout),
    }
}
