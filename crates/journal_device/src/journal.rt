//! The bytes of a journal.
ghost use Rattle.std.specs.Prelude.{◌≡◌, ◌++◌, IfOk, OnOk, IsOkUnless};
ghost use Rattle.journal_device.specs.Calls.{journal_of, spelled_call};

use crate::call::Call;
use cube_model::Fault;
use std::alloc::Global;
use wire::{push_bytes, push_u32};

// No sector has this number: it says that what was written is made durable.
const SYNC: u32 = u32::MAX;

/// The journal of some calls, in order: for a write the number of its sector in four bytes, the lowest first, and then
/// the 512 bytes; and for a sync the number 0xFFFFFFFF. `Memory` when out of memory.
pub fn journal_of(alloc: Global, calls: &[Call]) -> Result<Vec<u8>, Fault>
    ensures ok { IfOk result (λ journal. journal.items ≡ journal_of calls.now) }
    ensures err { IsOkUnless result Fault.Memory }
{
    let mut journal = Vec::new(alloc);
    for call in calls {
        push_call(&mut journal, call)?;
    }
    Ok(journal)
}

fn push_call(journal: &mut Vec<u8>, call: &Call) -> Result<(), Fault>
    ensures ok { OnOk result (journal.new.items ≡ journal.old.items ++ spelled_call call.now) }
    ensures memory { IsOkUnless result Fault.Memory }
{
    match call {
        Call::Write(sector, bytes) => {
            push_u32(journal, *sector)?;
            push_bytes(journal, bytes)
        }
        Call::Sync => push_u32(journal, SYNC),
    }
}
