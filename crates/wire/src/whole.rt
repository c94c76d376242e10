//! Reading whole texts from a source.
ghost use Rattle.std.specs.Prelude.{◌≡◌, Some, length, option_map, vec_len, IfOk, OnOk};
ghost use Rattle.cube_model.specs.declared.fault.Fault.{Fault};
ghost use Rattle.wire.specs.Runs.{ReadsSourceOr};

use crate::part::read_part;
use crate::source::Source;
use cube_model::Fault;
use std::alloc::Global;

// How many bytes are read at a time: each read of a file is a system call.
const PART: usize = 65_536;

/// The bytes that a source has at an id, read through one buffer of 65,536 bytes; nothing where it has none.
///
/// It can fail when out of memory, or with what the source answers.
pub fn read_whole<S: Source>(
    alloc: Global,
    source: &mut S,
    id: u32,
) -> Result<Option<Vec<u8>>, Fault>
    ensures found { IfOk result (λ found. S.keeps_word source.new
        → option_map (λ bytes. bytes.items) found ≡ S.texts source.old id) }
    ensures run { ReadsSourceOr S.Source (λ fault. fault ≡ Fault.Memory) source.old source.new result }
{
    let Some(total) = source.total(id) else {
        return Ok(None);
    };
    let mut bytes = Vec::with_capacity(alloc, total as usize)?;
    read_to_end(source, id, total, &mut bytes)?;
    Ok(Some(bytes))
}

// Reads all bytes at an id through a buffer.
fn read_to_end<S: Source>(
    source: &mut S,
    id: u32,
    total: u64,
    out: &mut Vec<u8>,
) -> Result<(), Fault>
    requires total { S.totals source.old id ≡ Some total }
    requires empty { vec_len out.old ≡ 0 }
    ensures found { OnOk result
        (S.keeps_word source.new → S.totals source.old id ≡ option_map length (S.texts source.old id)
        → Some out.new.items ≡ S.texts source.old id) }
    ensures run { ReadsSourceOr S.Source (λ fault. fault ≡ Fault.Memory) source.old source.new result }
{
    let mut buffer = [0; PART];
    let mut at = 0;
    while at < total {
        let count = (total - at).min(PART as u64);
        let part = &mut buffer[..count as usize];
        read_part(source, id, at, part)?;
        out.extend_from_slice(part)?;
        at += count;
    }
    Ok(())
}
