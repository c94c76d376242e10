//! Bringing one stored cuboid to the target.
ghost use Rattle.std.specs.Prelude.{◌≡◌, ◌≢◌, ◌⊎◌, ◌↔◌, ◌<◌, ◌≤◌, ◌∷◌, [], All, Some, false, length, slice_get, IfErr};
ghost use Rattle.std.specs.Prelude.{IfOk, IsErrOf, IsTrue, OnErr, OnOk, List, ℕ};
ghost use Rattle.cube_model.specs.declared.fault.Fault.TheVariants.{BadLayout, Device, Memory, TooManyCells};
ghost use Rattle.cube_model.specs.FaultNumbers.{number_of};
ghost use Rattle.cube_model.specs.declared.rows.DimRows.{DimRows};
ghost use Rattle.object_store.specs.Commit.{ArePuts};
ghost use Rattle.object_store.specs.Disk.{Leaves};
ghost use Rattle.object_store.specs.Store.{IsAsBefore, Refuses, content_of, device_of, disk_of, has_failed};
ghost use Rattle.object_store.specs.Store.{room_of};
ghost use Rattle.lattice.specs.Views.{index_of};
ghost use Rattle.warehouse_root.specs.Root.{IsProperCuboid, IsRoot};
ghost use Rattle.warehouse_objects.specs.Loaded.{IsLoaded};
ghost use Rattle.warehouse_objects.specs.Represents.{AreItsMembers, Represents};
ghost use Rattle.warehouse_objects.specs.Warehouse.{Cuboid, Warehouse};
ghost use Rattle.stored_cuboids.specs.Calls.{CallsStore};
ghost use Rattle.stored_cuboids.specs.Keeping.{ForStored, ForStoredWith, IsCaughtUp, IsReached, StaysLoaded, StoreAt};
ghost use Rattle.stored_cuboids.specs.Nexts.{EndsBringing, IsBroughtBy, RefusesToBringOn, first_run};

use crate::keeping::{Next, keep_one};
use crate::nexts::next_of;
use cube_model::Fault;
use dimensions::Dims;
use lattice::View;
use object_store::Store;
use sector_device::Sectors;
use std::alloc::Global;
use warehouse_objects::ShipModes;
use warehouse_root::{Root, StoredCuboid};
use wire::limits::MOST_OBJECTS;

// Brings the cuboid at a place to the target. The answer is its view where it was passed over, since it would have more
// than 262,144 cells.
pub(crate) fn bring_on<D: Sectors>(
    alloc: Global,
    store: &mut Store<D>,
    dims: &Dims,
    modes: &ShipModes,
    root: &mut Root,
    place: usize,
) -> Result<Option<View>, Fault>
    requires fine { has_failed store.old ≡ false }
    requires place { place < length root.old.cuboids }
    ensures leaves { ForStoredWith D.Sectors store.old root.old dims.now modes.now
        (λ w. Leaves (disk_of D.Sectors store.old) (disk_of D.Sectors store.new)
        (λ c. (v : Warehouse) × IsCaughtUp w v × Represents c v)) }
    ensures stays { (IsErrOf result Device → ⊥)
        → ForStoredWith D.Sectors store.old root.old dims.now modes.now
        (λ w. (v : Warehouse) × IsCaughtUp w v × StoreAt D.Sectors store.new root.new v) }
    ensures reached { IfOk result (λ passed. (v : Warehouse) → StoreAt D.Sectors store.new root.new v
        → D.keeps_word (device_of store.new) → AreItsMembers v dims.now modes.now
        → (cuboid : Cuboid) → slice_get v.cuboids place ≡ Some cuboid → IsReached passed v cuboid) }
    ensures many { length root.new.cuboids ≡ length root.old.cuboids }
    ensures reason { IfErr result (λ fault. fault ≢ Device → fault ≢ Memory → D.keeps_word (device_of store.new)
        → ForStoredWith D.Sectors store.old root.old dims.now modes.now
        (λ w. (next : RefusesToBringOn D.Sectors store.new w fault) × (slice_get w.cuboids place ≡ Some next.old))) }
    ensures refused { IfErr result
        (λ fault. fault ≢ Device
        → ForStored D.Sectors store.old root.old (λ w. StoreAt D.Sectors store.new root.new w)) }
    ensures readable { IsErrOf result BadLayout → D.keeps_word (device_of store.new)
        → ForStoredWith D.Sectors store.old root.old dims.now modes.now (λ w. ⊥) }
    ensures causes { IfErr result EndsBringing }
    ensures calls { CallsStore D.Sectors (IsErrOf result) store.old store.new }
    ensures loaded { StaysLoaded D.Sectors store.old store.new root.old root.new }
{
    let (cuboid, view) = cuboid_at(root, place);
    if root.target() <= cuboid.mark {
        return Ok(None);
    }
    match next_of(alloc, store, dims, modes, root, cuboid, view) {
        Ok(next) => match put_next(alloc, store, root, next) {
            Ok(()) => Ok(None),
            Err(fault) => Err(fault),
        },
        Err(fault) if is_too_large(fault) => Ok(Some(view)),
        Err(fault) => Err(fault),
    }
}

// Whether a fault is that of a cuboid with too many cells.
fn is_too_large(fault: Fault) -> bool
    ensures { IsTrue result ↔ (number_of fault ≡ number_of (TooManyCells 0)) }
{
    fault.code() == (Fault::TooManyCells { view: 0 }).code()
}

// What a root says of the cuboid at a place, and its view.
fn cuboid_at(root: &Root, place: usize) -> (StoredCuboid, View)
    requires { place < length root.now.cuboids }
    ensures at { slice_get root.now.cuboids place ≡ Some result.0 }
    ensures proper { IsProperCuboid root.now.layout (length root.now.batches) result.0 }
    ensures view { index_of result.1 ≡ result.0.view }
    ensures target { root.now.target ≤ length root.now.batches }
{
    let cuboid = root.cuboids()[place];
    (cuboid, View::new(cuboid.view).unwrap()) // there are at most 512 views
}

// Puts what brings a cuboid on, and keeps its root.
fn put_next<D: Sectors>(
    alloc: Global,
    store: &mut Store<D>,
    root: &mut Root,
    next: Next,
) -> Result<(), Fault>
    requires fine { has_failed store.old ≡ false }
    requires put { ArePuts ((next.id, next.bytes.items) ∷ []) }
    requires runs { All (λ id. first_run ≤ id) (next.id ∷ next.drops.items) }
    requires spelled { IsRoot next.root_bytes.items next.root }
    ensures leaves { (w v : Warehouse) → StoreAt D.Sectors store.old root.old w
        → (D.keeps_word (device_of store.old) → IsBroughtBy w next v)
        → Leaves (disk_of D.Sectors store.old) (disk_of D.Sectors store.new) (λ c. Represents c w ⊎ Represents c v) }
    ensures ok { OnOk result ((w v : Warehouse) → StoreAt D.Sectors store.old root.old w
        → (D.keeps_word (device_of store.old) → IsBroughtBy w next v)
        → StoreAt D.Sectors store.new root.new v) }
    ensures loaded { OnOk result (D.keeps_word (device_of store.new) → (rows : DimRows) (modes : List (List ℕ))
        → IsLoaded (content_of D.Sectors store.old) rows modes root.old
        → next.root.layout ≡ root.old.layout → IsLoaded (content_of D.Sectors store.new) rows modes root.new) }
    ensures root { OnOk result (root.new ≡ next.root) }
    ensures unchanged { OnErr result (root.new ≡ root.old) }
    ensures refused { IfErr result (λ fault. fault ≢ Device → IsAsBefore D.Sectors store.old store.new) }
    ensures causes { IfErr result (λ fault. fault ≢ Device → (fault ≡ BadLayout)
        ⊎ Refuses (content_of D.Sectors store.old) (room_of store.old)
        ((next.id, next.bytes.items) ∷ []) next.drops.items next.root_bytes.items fault) }
    ensures readable { IsErrOf result BadLayout → D.keeps_word (device_of store.new)
        → ForStored D.Sectors store.old root.old (λ w. ⊥) }
    ensures calls { CallsStore D.Sectors (IsErrOf result) store.old store.new }
{
    if store.objects() as usize >= MOST_OBJECTS {
        return Err(Fault::BadLayout); // more than a warehouse has
    }
    match keep_one(alloc, store, &next) {
        Ok(()) => {
            *root = next.root;
            Ok(())
        }
        Err(fault) => Err(fault),
    }
}
