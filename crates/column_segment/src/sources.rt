//! Reading a batch from a source.
ghost use Rattle.std.specs.Prelude.{◌≡◌, ◌⊎◌, option_map, IfErr, IfOk, IsErrOf, IsSomeAnd};
ghost use Rattle.cube_model.specs.Causes.{EndsDecoding};
ghost use Rattle.cube_model.specs.declared.fault.Fault.{Fault};
ghost use Rattle.wire.specs.Runs.{ReadsSourceOr};
ghost use Rattle.column_segment.specs.Segment.{HoldsNoBatch, IsSegment};

use crate::segment::{Segment, decode};
use cube_model::Fault;
use std::alloc::Global;
use wire::{Source, read_whole};

/// The batch whose bytes a source has at an id, read through one small buffer.
///
/// `BadLayout` where there are none, or where they are those of no batch. It can also fail when out of memory, or with
/// what the source answers.
pub fn decode_from<S: Source>(alloc: Global, source: &mut S, id: u32) -> Result<Segment, Fault>
    ensures ok { IfOk result (λ segment. S.keeps_word source.new
        → IsSomeAnd (S.texts source.old id) (λ bytes. IsSegment bytes segment.number segment.rows)) }
    ensures refused { IsErrOf result Fault.BadLayout → S.keeps_word source.new → HoldsNoBatch (S.texts source.old id) }
    ensures run { ReadsSourceOr S.Source EndsDecoding source.old source.new result }
{
    let found = read_whole(alloc, source, id)?;
    decode_found(alloc, found)
}

// The batch that has the bytes that were found.
fn decode_found(alloc: Global, found: Option<Vec<u8>>) -> Result<Segment, Fault>
    ensures ok { IfOk result (λ segment. IsSomeAnd (option_map (λ bytes. bytes.items) found)
        (λ bytes. IsSegment bytes segment.number segment.rows)) }
    ensures refused { IfErr result (λ fault. (fault ≡ Fault.Memory) ⊎ ((fault ≡ Fault.BadLayout)
        × HoldsNoBatch (option_map (λ bytes. bytes.items) found))) }
{
    match found {
        Some(bytes) => decode(alloc, bytes),
        None => Err(Fault::BadLayout),
    }
}
