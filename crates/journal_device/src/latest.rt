// The bytes that were written to each sector last.
ghost use Rattle.std.specs.Prelude.{◌≡◌, ℕ, Some, None, nat_eq, if◌then◌else◌, OnOk, OnErr};
ghost use Rattle.std.specs.Bool.{OnTrue, OnFalse};
ghost use Rattle.journal_device.specs.Latest.{last_at};

use std::alloc::AllocError;
use std::collections::HashMap;

/// Numbers of sectors with the bytes that were written there last.
pub(crate) type Latest = HashMap<u32, [u8; 512]>;

/// Copies what was written to a sector last, where something was.
pub(crate) fn copy_last(latest: &Latest, i: u32, to: &mut [u8; 512]) -> bool
    ensures found { OnTrue result (last_at latest.now.entries i ≡ Some to.new) }
    ensures absent { OnFalse result ((last_at latest.now.entries i ≡ None) × (to.new ≡ to.old)) }
{
    match latest.get(&i) {
        Some(bytes) => {
            *to = *bytes;
            true
        }
        None => false,
    }
}

/// Keeps the bytes of a sector in the place of earlier ones.
pub(crate) fn keep_last(latest: &mut Latest, i: u32, bytes: &[u8; 512]) -> Result<(), AllocError>
    ensures ok { OnOk result
        ((k : ℕ) → last_at latest.new.entries k ≡ if nat_eq i k then Some bytes.now else last_at latest.old.entries k) }
    ensures err { OnErr result (latest.new.entries ≡ latest.old.entries) }
{
    match latest.insert(i, *bytes) {
        Ok(_) => Ok(()),
        Err(_) => Err(AllocError),
    }
}
