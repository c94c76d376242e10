//! Bringing all stored cuboids to all batches.
ghost use Rattle.std.specs.Prelude.{◌≡◌, ◌≢◌, ◌↔◌, All, IsTrue, false, IfErr, IfOk, IsErrOf};
ghost use Rattle.cube_model.specs.declared.fault.Fault.TheVariants.{Device};
ghost use Rattle.object_store.specs.Disk.{Leaves};
ghost use Rattle.object_store.specs.Store.{device_of, disk_of, has_failed};
ghost use Rattle.warehouse_objects.specs.Represents.{Represents};
ghost use Rattle.warehouse_objects.specs.Warehouse.{Warehouse};
ghost use Rattle.stored_cuboids.specs.Calls.{CallsStore};
ghost use Rattle.stored_cuboids.specs.Keeping.{ForStoredWith, IsKeptUp, StaysLoaded, StoreAt};
ghost use Rattle.stored_cuboids.specs.Upkeep.{AreWholeBut, KeepUpRefuses};

use crate::aiming::aim;
use crate::catching::catch_up;
use cube_model::Fault;
use dimensions::Dims;
use lattice::View;
use object_store::Store;
use sector_device::Sectors;
use std::alloc::Global;
use warehouse_objects::ShipModes;
use warehouse_root::{Root, StoredCuboid};

/// Brings each stored cuboid to all batches: where some mark is less than their count, one commit sets the target to
/// it, and then each such cuboid, by ascending view, gets its cells and its mark in a commit of its own.
///
/// A view whose cuboid would have more than 262,144 cells is passed over; the answer is the first of these. Any other
/// fault ends it, and marks that were reached stay: `Memory`, `Full`, `Worn`, and `Device` where the device fails.
/// `BadLayout` where the content is that of no warehouse.
pub fn keep_up<D: Sectors>(
    alloc: Global,
    store: &mut Store<D>,
    dims: &Dims,
    modes: &ShipModes,
    root: &mut Root,
) -> Result<Option<View>, Fault>
    requires fine { has_failed store.old ≡ false }

    // A crash leaves the same rows, batches and views, and no mark less.
    ensures leaves { ForStoredWith D.Sectors store.old root.old dims.now modes.now
        (λ w. Leaves (disk_of D.Sectors store.old) (disk_of D.Sectors store.new)
        (λ c. (v : Warehouse) × IsKeptUp w v × Represents c v)) }
    ensures stays { (IsErrOf result Device → ⊥)
        → ForStoredWith D.Sectors store.old root.old dims.now modes.now
        (λ w. (v : Warehouse) × IsKeptUp w v × StoreAt D.Sectors store.new root.new v) }
    ensures ok { IfOk result
        (λ passed. ForStoredWith D.Sectors store.old root.old dims.now modes.now
        (λ w. (v : Warehouse) × IsKeptUp w v × StoreAt D.Sectors store.new root.new v
        × (D.keeps_word (device_of store.new) → AreWholeBut v passed))) }

    // Or a commit on the way was refused.
    ensures refused { IfErr result
        (λ fault. fault ≢ Device
        → ForStoredWith D.Sectors store.old root.old dims.now modes.now
        (λ w. (v : Warehouse) × IsKeptUp w v × StoreAt D.Sectors store.new root.new v
        × (D.keeps_word (device_of store.new) → KeepUpRefuses D.Sectors store.new v fault))) }
    ensures calls { CallsStore D.Sectors (IsErrOf result) store.old store.new }

    // What is kept in memory stays that of the content.
    ensures loaded { StaysLoaded D.Sectors store.old store.new root.old root.new }
{
    if are_whole(root.cuboids(), root.batches().len() as u32) {
        return Ok(None);
    }
    if let Err(fault) = aim(alloc, store, root) {
        return Err(fault);
    }
    match catch_up(alloc, store, dims, modes, root) {
        Ok(passed) => Ok(passed),
        Err(fault) => Err(fault),
    }
}

// Whether each cuboid holds so many batches.
fn are_whole(cuboids: &[StoredCuboid], count: u32) -> bool
    ensures { IsTrue result ↔ All (λ cuboid. cuboid.mark ≡ count) cuboids.now }
{
    cuboids.iter().all(|cuboid| cuboid.mark == count)
}
