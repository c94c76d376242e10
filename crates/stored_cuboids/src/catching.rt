//! Bringing stored cuboids to their target.
ghost use Rattle.std.specs.Prelude.{◌≡◌, ◌≢◌, ◌-◌, false, IfErr};
ghost use Rattle.std.specs.Prelude.{IfOk, IsErrOf};
ghost use Rattle.cube_model.specs.declared.fault.Fault.TheVariants.{BadLayout, Device, Memory};
ghost use Rattle.object_store.specs.Disk.{Leaves};
ghost use Rattle.object_store.specs.Store.{device_of, disk_of, has_failed};
ghost use Rattle.warehouse_objects.specs.Represents.{Represents};
ghost use Rattle.warehouse_objects.specs.Warehouse.{Warehouse};
ghost use Rattle.stored_cuboids.specs.Calls.{CallsStore};
ghost use Rattle.stored_cuboids.specs.Keeping.{ForStoredWith, IsCaughtUp, IsDone, StaysLoaded, StoreAt};
ghost use Rattle.stored_cuboids.specs.Nexts.{EndsBringing, RefusesLeast};

use crate::bringing::bring_on;
use cube_model::Fault;
use dimensions::Dims;
use lattice::View;
use object_store::Store;
use sector_device::Sectors;
use std::alloc::Global;
use warehouse_objects::ShipModes;
use warehouse_root::Root;

/// Brings each stored cuboid to the target, by ascending view and in one commit each. A view whose cuboid would have
/// more than 262,144 cells is passed over; the answer is the first of these.
///
/// `Full` where the store has no room for the next run, and `Worn` at the last generation: the cuboids brought on until
/// then stay, as they do where memory is missing. `Device` where the device fails. `BadLayout` where the content is
/// that of no warehouse.
pub fn catch_up<D: Sectors>(
    alloc: Global,
    store: &mut Store<D>,
    dims: &Dims,
    modes: &ShipModes,
    root: &mut Root,
) -> Result<Option<View>, Fault>
    requires fine { has_failed store.old ≡ false }

    // A crash at any point leaves the warehouse with the cuboids that were brought on until then.
    ensures leaves { ForStoredWith D.Sectors store.old root.old dims.now modes.now
        (λ w. Leaves (disk_of D.Sectors store.old) (disk_of D.Sectors store.new)
        (λ c. (v : Warehouse) × IsCaughtUp w v × Represents c v)) }
    ensures stays { (IsErrOf result Device → ⊥)
        → ForStoredWith D.Sectors store.old root.old dims.now modes.now
        (λ w. (v : Warehouse) × IsCaughtUp w v × StoreAt D.Sectors store.new root.new v) }
    ensures ok { IfOk result
        (λ passed. ForStoredWith D.Sectors store.old root.old dims.now modes.now
        (λ w. (v : Warehouse) × IsCaughtUp w v × StoreAt D.Sectors store.new root.new v
        × (D.keeps_word (device_of store.new) → IsDone v passed))) }

    // The store refused the commit that brings the least of the others on.
    ensures reason { IfErr result (λ fault. fault ≢ Device → fault ≢ Memory
        → ForStoredWith D.Sectors store.old root.old dims.now modes.now
        (λ w. (v : Warehouse) × IsCaughtUp w v × StoreAt D.Sectors store.new root.new v
        × (D.keeps_word (device_of store.new) → RefusesLeast D.Sectors store.new v fault))) }
    ensures readable { IsErrOf result BadLayout → D.keeps_word (device_of store.new)
        → ForStoredWith D.Sectors store.old root.old dims.now modes.now (λ w. ⊥) }
    ensures causes { IfErr result EndsBringing }
    ensures calls { CallsStore D.Sectors (IsErrOf result) store.old store.new }

    // What is kept in memory stays that of the content.
    ensures loaded { StaysLoaded D.Sectors store.old store.new root.old root.new }
{
    let count = root.cuboids().len();
    let mut first = None;
    for place in 0..count {
        match bring_on(alloc, store, dims, modes, root, place) {
            Ok(passed) => first = first.or(passed),
            Err(fault) => return Err(fault),
        }
    }
    Ok(first)
}
