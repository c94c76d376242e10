// Whether the extents of a catalogue keep the rules of the layout.
ghost use Rattle.std.specs.Prelude.{◌≡◌, ◌⊎◌, ◌≤◌, All, IfErr, IfOk, OnOk, IsOkUnless};
ghost use Rattle.cube_model.specs.declared.fault.Fault.{Fault};
ghost use Rattle.extents.specs.Extents.{AreLaidOut};
ghost use Rattle.superblock.specs.Superblock.{IsProperSuperblock};
ghost use Rattle.object_store.specs.Catalogue.{IsProperEntry};
ghost use Rattle.object_store.specs.Places.{extent_of, used_by};

use crate::catalogue::Entry;
use cube_model::Fault;
use extents::{Extent, Free};
use std::alloc::Global;
use superblock::Super;

/// The sectors of the catalogue and of the objects.
pub(crate) fn used_extents(
    alloc: Global,
    superblock: &Super,
    entries: &[Entry],
) -> Result<Vec<Extent>, Fault>
    requires proper { IsProperSuperblock superblock.now }
    requires entries { All IsProperEntry entries.now }
    ensures ok { IfOk result (λ used. used.items ≡ used_by superblock.now entries.now) }
    ensures memory { IsOkUnless result Fault.Memory }
{
    let mut used = Vec::with_capacity(alloc, entries.len() + 1)?;
    used.push(extent(superblock.catalogue, u64::from(superblock.bytes)))?;
    for k in 0..entries.len() {
        used.push(extent(entries[k].first, entries[k].bytes))?;
    }
    Ok(used)
}

/// `BadLayout` where they do not lie after the superblocks and within the device, or share a sector.
pub(crate) fn check_extents(
    alloc: Global,
    superblock: &Super,
    entries: &[Entry],
) -> Result<(), Fault>
    requires proper { IsProperSuperblock superblock.now }
    requires entries { All IsProperEntry entries.now }
    ensures ok { OnOk result (AreLaidOut superblock.now.sectors (used_by superblock.now entries.now)) }
    ensures refused { IfErr result (λ fault. (fault ≡ Fault.Memory) ⊎ ((fault ≡ Fault.BadLayout)
        × (¬ AreLaidOut superblock.now.sectors (used_by superblock.now entries.now)))) }
{
    let used = used_extents(alloc, superblock, entries)?;
    Free::from_used(alloc, superblock.sectors, &used)?;
    Ok(())
}

// The sectors of so many bytes.
fn extent(first: u32, bytes: u64) -> Extent
    requires { bytes ≤ 134217728 }
    ensures { result ≡ extent_of first bytes }
{
    Extent {
        first,
        len: bytes.div_ceil(512) as u32,
    }
}
