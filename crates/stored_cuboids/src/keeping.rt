//! The commit that brings a stored cuboid on.
ghost use Rattle.std.specs.Prelude.{ℕ};
ghost use Rattle.std.specs.Prelude.{◌≡◌, ◌≢◌, ◌⊎◌, ◌<◌, ◌≤◌, ◌∷◌, [], All, false, length, IfErr, IsErrOf, OnOk, List};
ghost use Rattle.cube_model.specs.declared.fault.Fault.TheVariants.{Device};
ghost use Rattle.cube_model.specs.declared.rows.DimRows.{DimRows};
ghost use Rattle.wire.specs.Limits.{most_objects};
ghost use Rattle.object_store.specs.Commit.{ArePuts};
ghost use Rattle.object_store.specs.Disk.{Leaves};
ghost use Rattle.object_store.specs.Store.{IsAsBefore, Refuses, content_of, device_of, disk_of, has_failed};
ghost use Rattle.object_store.specs.Store.{room_of};
ghost use Rattle.warehouse_root.specs.Root.{IsRoot, PlainRoot};
ghost use Rattle.warehouse_objects.specs.Loaded.{IsLoaded};
ghost use Rattle.warehouse_objects.specs.Represents.{Represents};
ghost use Rattle.warehouse_objects.specs.Warehouse.{Cuboid, StoredRun, Warehouse, kept};
ghost use Rattle.stored_cuboids.specs.Calls.{CallsStore};
ghost use Rattle.stored_cuboids.specs.Keeping.{StoreAt};
ghost use Rattle.stored_cuboids.specs.Nexts.{BringsOn, first_run};

use cube_model::Fault;
use object_store::Store;
use sector_device::Sectors;
use std::alloc::Global;
use warehouse_root::{Layout, Root};

/// What a commit puts to bring a stored cuboid on: a run of cells, and the root with it.
#[derive(Drop)]
pub struct Next {
    /// The id of the run.
    pub id: u32,
    /// The bytes of the run.
    pub bytes: Vec<u8>,
    /// The ids of the runs that the commit drops.
    pub drops: Vec<u32>,
    /// The root after the commit.
    pub root: Root,
    /// Its bytes.
    pub root_bytes: Vec<u8>,
}

/// Brings a stored cuboid on, in one commit.
///
/// `Full` where the store has no room for the run, and `Worn` at the last generation: then all is as before, as it is
/// where memory is missing. `Device` where the device fails.
pub fn keep_one<D: Sectors>(alloc: Global, store: &mut Store<D>, next: &Next) -> Result<(), Fault>
    requires fine { has_failed store.old ≡ false }
    requires few { length (content_of D.Sectors store.old).objects < most_objects }
    requires put { ArePuts ((next.now.id, next.now.bytes.items) ∷ []) }
    requires runs { All (λ id. first_run ≤ id) (next.now.id ∷ next.now.drops.items) }
    requires root { IsRoot next.now.root_bytes.items next.now.root }

    // A crash at any point leaves the warehouse before or after.
    ensures leaves { (w : Warehouse) (root : PlainRoot) (old new : Cuboid) (run : StoredRun)
        → StoreAt D.Sectors store.old root w → BringsOn w old new run next.now
        → Leaves (disk_of D.Sectors store.old) (disk_of D.Sectors store.new)
        (λ c. Represents c w ⊎ Represents c (kept w new)) }

    // Then the warehouse after.
    ensures ok { OnOk result ((w : Warehouse) (root : PlainRoot) (old new : Cuboid) (run : StoredRun)
        → StoreAt D.Sectors store.old root w → BringsOn w old new run next.now
        → StoreAt D.Sectors store.new next.now.root (kept w new)) }
    ensures loaded { OnOk result (D.keeps_word (device_of store.new)
        → (rows : DimRows) (modes : List (List ℕ)) (root : PlainRoot)
        → IsLoaded (content_of D.Sectors store.old) rows modes root
        → next.now.root.layout ≡ root.layout → IsLoaded (content_of D.Sectors store.new) rows modes next.now.root) }

    // What a refusal leaves, and when it comes.
    ensures refused { IfErr result (λ fault. fault ≢ Device → IsAsBefore D.Sectors store.old store.new) }
    ensures causes { IfErr result
        (λ fault. fault ≢ Device → Refuses (content_of D.Sectors store.old) (room_of store.old)
        ((next.now.id, next.now.bytes.items) ∷ []) next.now.drops.items next.now.root_bytes.items fault) }
    ensures calls { CallsStore D.Sectors (IsErrOf result) store.old store.new }
{
    let puts = [(next.id, next.bytes.as_slice())];
    match store.commit(
        alloc,
        &puts,
        next.drops.as_slice(),
        next.root_bytes.as_slice(),
        next.root.layout().number(),
    ) {
        Ok(()) => Ok(()),
        Err(fault) => Err(fault),
    }
}
