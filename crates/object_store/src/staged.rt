// What a commit is to write, worked out in memory. No device is called.
ghost use Rattle.std.specs.Prelude.{◌≡◌, ◌+◌, ◌≤◌, ◌<◌, ◌^◌, ℕ, [], length, map, All, IfErr, IfOk, IsOkUnless};
ghost use Rattle.cube_model.specs.declared.fault.Fault.{Fault};
ghost use Rattle.extents.specs.Extents.{SomeHolds, AreLaidOut};
ghost use Rattle.superblock.specs.Superblock as superblocks;
ghost use Rattle.object_store.specs.Catalogue.{FitsFields, IsProperEntry, IdsAscend, catalogue_of};
ghost use Rattle.wire.specs.Limits.{least_sectors, most_objects};
ghost use Rattle.object_store.specs.Commit.{ArePuts, IsLayout, FitsRoot, drop_each, put_each, puts_of, put_size};
ghost use Rattle.object_store.specs.Places.{extents_of, sizes_at, used_by};
ghost use Rattle.object_store.specs.Room.{LacksPlaces, sectors_asked_for};
ghost use Rattle.object_store.specs.Placing.{LacksMemoryOr};
ghost use Rattle.object_store.specs.Publish.{IsStagedForPuts};

use crate::catalogue::{Entry, encode};
use crate::entries::{put_entries, without};
use crate::layout::used_extents;
use crate::place::place_outside;
use cube_model::Fault;
use extents::Extent;
use std::alloc::Global;
use superblock::Super;

/// What a commit is to write.
#[derive(Drop)]
pub(crate) struct Staged {
    /// An entry for each put, in order.
    pub placed: Vec<Entry>,
    /// The entries of the new catalogue.
    pub entries: Vec<Entry>,
    pub root: Vec<u8>,
    /// The bytes of the new catalogue.
    pub catalogue: Vec<u8>,
    pub superblock: Super,
}

/// What a new superblock says, but for its catalogue.
#[derive(Clone, Copy)]
pub(crate) struct Stamp {
    pub sectors: u32,
    pub generation: u64,
    pub layout: u32,
}

/// Stages puts outside the sectors in use, with the entries that are kept.
pub(crate) fn stage(
    alloc: Global,
    stamp: Stamp,
    used: &[Extent],
    kept: Vec<Entry>,
    puts: &[(u32, &[u8])],
    root: &[u8],
) -> Result<Staged, Fault>
    requires sectors { least_sectors ≤ stamp.sectors }
    requires few_sectors { stamp.sectors < 2 ^ 32 }
    requires generation { 1 ≤ stamp.generation }
    requires last { stamp.generation < 2 ^ 64 }
    requires layout { IsLayout stamp.layout }
    requires used { AreLaidOut stamp.sectors used.now }
    requires kept { AreLaidOut stamp.sectors (extents_of kept.items) }
    requires in_use { (sector : ℕ) → SomeHolds (extents_of kept.items) sector → SomeHolds used.now sector }
    requires fit { All FitsFields kept.items }
    requires proper { All IsProperEntry kept.items }
    requires ascending { IdsAscend kept.items }
    requires puts { ArePuts (puts_of puts.now) }
    requires root { FitsRoot root.now }
    requires few { length (put_each (λ o. o.0) (map put_size (puts_of puts.now)) (sizes_at kept.items)) ≤ most_objects }
    ensures ok { IfOk result
        (IsStagedForPuts stamp.sectors used.now kept.items (puts_of puts.now) root.now stamp.generation stamp.layout) }
    ensures refused { IfErr result
        (LacksMemoryOr
        (LacksPlaces stamp.sectors used.now (sectors_asked_for (sizes_at kept.items) (puts_of puts.now) root.now))) }
{
    let (mut free, placed) = place_outside(alloc, stamp.sectors, used, puts)?;
    let (entries, catalogue, root) = catalogued(alloc, &placed, kept, root)?;
    let extent = free.take(catalogue.len().div_ceil(512) as u32)?;
    let superblock = Super {
        layout: stamp.layout,
        sectors: stamp.sectors,
        generation: stamp.generation,
        catalogue: extent.first,
        bytes: catalogue.len() as u32,
    };
    Ok(Staged {
        placed,
        entries,
        root,
        catalogue,
        superblock,
    })
}

// The entries that are kept and those that were placed, the bytes of their catalogue, and the root in it.
fn catalogued(
    alloc: Global,
    placed: &[Entry],
    kept: Vec<Entry>,
    root: &[u8],
) -> Result<(Vec<Entry>, Vec<u8>, Vec<u8>), Fault>
    requires ascending { IdsAscend kept.items }
    requires few { length (put_each (λ e. e.id) placed.now kept.items) ≤ most_objects }
    requires root { FitsRoot root.now }
    ensures entries { IfOk result (λ made. made.0.items ≡ put_each (λ e. e.id) placed.now kept.items) }
    ensures catalogue { IfOk result (λ made. made.1.items ≡ catalogue_of made.0.items root.now) }
    ensures root { IfOk result (λ made. made.2.items ≡ root.now) }
    ensures memory { IsOkUnless result Fault.Memory }
{
    let mut entries = kept;
    put_entries(&mut entries, placed)?;
    let catalogue = encode(alloc, &entries, root)?;
    let root = Vec::from_slice(alloc, root)?;
    Ok((entries, catalogue, root))
}

/// Stages a commit over what is there.
pub(crate) fn stage_next(
    alloc: Global,
    superblock: &Super,
    entries: &[Entry],
    puts: &[(u32, &[u8])],
    drops: &[u32],
    root: &[u8],
    layout: u32,
) -> Result<Staged, Fault>
    requires superblock { superblocks.IsProperSuperblock superblock.now }
    requires last { superblock.now.generation + 1 < 2 ^ 64 }
    requires fit { All FitsFields entries.now }
    requires proper { All IsProperEntry entries.now }
    requires ascending { IdsAscend entries.now }
    requires laid_out { AreLaidOut superblock.now.sectors (used_by superblock.now entries.now) }
    requires puts { ArePuts (puts_of puts.now) }
    requires root { FitsRoot root.now }
    requires layout { IsLayout layout }
    requires few { length
        (put_each (λ o. o.0) (map put_size (puts_of puts.now)) (sizes_at (drop_each (λ e. e.id) drops.now entries.now)))
        ≤ most_objects }
    ensures ok { IfOk result
        (IsStagedForPuts superblock.now.sectors (used_by superblock.now entries.now)
        (drop_each (λ e. e.id) drops.now entries.now)
        (puts_of puts.now) root.now (superblock.now.generation + 1) layout) }
    ensures refused { IfErr result
        (LacksMemoryOr (LacksPlaces superblock.now.sectors (used_by superblock.now entries.now)
        (sectors_asked_for (sizes_at (drop_each (λ e. e.id) drops.now entries.now)) (puts_of puts.now) root.now))) }
{
    let used = used_extents(alloc, superblock, entries)?;
    let kept = without(alloc, entries, drops)?;
    let stamp = Stamp {
        sectors: superblock.sectors,
        generation: superblock.generation + 1,
        layout,
    };
    stage(alloc, stamp, &used, kept, puts, root)
}

/// Stages the first generation on a device of so many sectors.
pub(crate) fn stage_first(
    alloc: Global,
    sectors: u32,
    puts: &[(u32, &[u8])],
    root: &[u8],
    layout: u32,
) -> Result<Staged, Fault>
    requires sectors { least_sectors ≤ sectors }
    requires puts { ArePuts (puts_of puts.now) }
    requires root { FitsRoot root.now }
    requires layout { IsLayout layout }
    requires few { length (put_each (λ o. o.0) (map put_size (puts_of puts.now)) []) ≤ most_objects }
    ensures ok { IfOk result (IsStagedForPuts sectors [] [] (puts_of puts.now) root.now 1 layout) }
    ensures refused { IfErr result
        (LacksMemoryOr (LacksPlaces sectors [] (sectors_asked_for [] (puts_of puts.now) root.now))) }
{
    let stamp = Stamp {
        sectors,
        generation: 1,
        layout,
    };
    stage(alloc, stamp, &[], Vec::new(alloc), puts, root)
}
