//! The commit that sets the target of the stored cuboids.
ghost use Rattle.std.specs.Prelude.{◌≡◌, ◌≢◌, ◌⊎◌, ◌+◌, [], false, IfErr, IsErrOf, OnErr, OnOk};
ghost use Rattle.cube_model.specs.declared.fault.Fault.TheVariants.{Device};
ghost use Rattle.object_store.specs.Disk.{Leaves};
ghost use Rattle.object_store.specs.Store.{IsAsBefore, Refuses, content_of, device_of, disk_of, has_failed};
ghost use Rattle.object_store.specs.Store.{room_of};
ghost use Rattle.warehouse_root.specs.Root as roots;
ghost use Rattle.warehouse_objects.specs.Represents.{Represents, root_of};
ghost use Rattle.warehouse_objects.specs.Warehouse.{aimed};
ghost use Rattle.stored_cuboids.specs.Calls.{CallsStore};
ghost use Rattle.stored_cuboids.specs.Keeping.{ForStored, StaysLoaded, StoreAt};

use crate::replacing::replace_root;
use cube_model::Fault;
use object_store::Store;
use sector_device::Sectors;
use std::alloc::Global;
use warehouse_root::Root;

/// Makes all batches the target of the stored cuboids, in one commit.
///
/// `Full` where the store has no room, and `Worn` at the last generation: then all is as before, as it is where memory
/// is missing. `Device` where the device fails.
pub fn aim<D: Sectors>(alloc: Global, store: &mut Store<D>, root: &mut Root) -> Result<(), Fault>
    requires fine { has_failed store.old ≡ false }

    // A crash at any point leaves the warehouse before or after.
    ensures leaves { ForStored D.Sectors store.old root.old
        (λ w. Leaves (disk_of D.Sectors store.old) (disk_of D.Sectors store.new)
        (λ c. Represents c w ⊎ Represents c (aimed w))) }

    // Then the warehouse after.
    ensures ok { OnOk result
        (ForStored D.Sectors store.old root.old (λ w. StoreAt D.Sectors store.new root.new (aimed w))) }
    ensures once { OnOk result (D.keeps_word (device_of store.new)
        → (content_of D.Sectors store.new).generation ≡ (content_of D.Sectors store.old).generation + 1) }

    // What a refusal leaves, and when it comes.
    ensures refused { IfErr result
        (λ fault. fault ≢ Device
        → ForStored D.Sectors store.old root.old
        (λ w. StoreAt D.Sectors store.new root.new w
        × Leaves (disk_of D.Sectors store.old) (disk_of D.Sectors store.new) (λ c. Represents c w))) }
    ensures kept { OnErr result (root.new ≡ root.old) }
    ensures as_before { IfErr result (λ fault. fault ≢ Device → IsAsBefore D.Sectors store.old store.new) }
    ensures causes { IfErr result
        (λ fault. fault ≢ Device
        → ForStored D.Sectors store.old root.old (λ w. D.keeps_word (device_of store.new)
        → Refuses (content_of D.Sectors store.old) (room_of store.old) [] [] (roots.root_spelling (root_of (aimed w)))
        fault)) }
    ensures calls { CallsStore D.Sectors (IsErrOf result) store.old store.new }

    // Also after an error.
    ensures loaded { StaysLoaded D.Sectors store.old store.new root.old root.new }
{
    let next = match root.with_target(alloc, root.batches().len() as u32) {
        Ok(next) => next,
        Err(fault) => return Err(fault),
    };
    match replace_root(alloc, store, root, next, &[]) {
        Ok(()) => Ok(()),
        Err(fault) => Err(fault),
    }
}
