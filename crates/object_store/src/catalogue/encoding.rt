//! Spelling a catalogue.
ghost use Rattle.std.specs.Prelude.{◌≡◌, ◌+◌, ◌*◌, ◌^◌, ◌<◌, ◌++◌, length, IfOk, OnOk, IsOkUnless};
ghost use Rattle.std.specs.List.{flat_map};
ghost use Rattle.cube_model.specs.declared.fault.Fault.{Fault};
ghost use Rattle.object_store.specs.Catalogue.{catalogue_of, entry_of, catalogue_header};

use crate::catalogue::Entry;
use cube_model::Fault;
use std::alloc::Global;
use wire::{push_bytes, write_bytes, write_u32, write_u64};

// The first bytes of each catalogue.
const NAME: &[u8] = b"CAT1";

/// The bytes of a catalogue.
pub fn encode(alloc: Global, entries: &[Entry], root: &[u8]) -> Result<Vec<u8>, Fault>
    requires few { length entries.now < 2 ^ 32 }
    requires short { length root.now < 2 ^ 32 }
    ensures ok { IfOk result (λ bytes. bytes.items ≡ catalogue_of entries.now root.now) }
    ensures memory { IsOkUnless result Fault.Memory }
{
    let mut out = Vec::with_capacity(alloc, 12 + 16 * entries.len() + root.len())?;
    push_bytes(&mut out, &header(entries.len() as u32, root.len() as u32))?;
    push_entries(&mut out, entries)?;
    push_bytes(&mut out, root)?;
    Ok(out)
}

fn push_entries(out: &mut Vec<u8>, entries: &[Entry]) -> Result<(), Fault>
    ensures ok { OnOk result (out.new.items ≡ out.old.items ++ flat_map entry_of entries.now) }
    ensures memory { IsOkUnless result Fault.Memory }
{
    for entry in entries {
        push_bytes(out, &spelled(entry))?;
    }
    Ok(())
}

fn header(entries: u32, root: u32) -> [u8; 12]
    ensures { result ≡ catalogue_header entries root }
{
    let mut bytes = [0; 12];
    write_bytes(&mut bytes, 0, NAME);
    write_u32(&mut bytes, 4, entries);
    write_u32(&mut bytes, 8, root);
    bytes
}

fn spelled(entry: &Entry) -> [u8; 16]
    ensures { result ≡ entry_of entry.now }
{
    let mut bytes = [0; 16];
    write_u32(&mut bytes, 0, entry.id);
    write_u32(&mut bytes, 4, entry.first);
    write_u64(&mut bytes, 8, entry.bytes);
    bytes
}
