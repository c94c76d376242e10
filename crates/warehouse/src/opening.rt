//! Opening what is on a device.
ghost use Rattle.std.specs.Prelude.{◌≡◌, ◌⊎◌, ◌+◌, ◌-◌, ◌^◌, min, false, Option, IfOk, IfErr, IsErrOf, OnOk};
ghost use Rattle.cube_model.specs.Causes.{EndsDecoding};
ghost use Rattle.cube_model.specs.declared.fault.Fault.TheVariants.{BadLayout, Device, Memory};
ghost use Rattle.object_store.specs.Disk.{disk, AllShow, IsShown, Leaves};
ghost use Rattle.object_store.specs.Store as stores;
ghost use Rattle.warehouse_root.specs.Layouts.{layout_number};
ghost use Rattle.warehouse_root.specs.Root.{IsRoot};
ghost use Rattle.warehouse_objects.specs.Facts.{Change, Facts};
ghost use Rattle.warehouse_objects.specs.Warehouse.{Warehouse};
ghost use Rattle.warehouse_objects.specs.Represents.{Represents, root_of};
ghost use Rattle.warehouse.specs.Found.{IsFinished, IsSince, MayBeFound, MayRepresent, MayRepresentSince};
ghost use Rattle.warehouse.specs.Found.{RefusesToOpen};
ghost use Rattle.warehouse_objects.specs.Loaded.{IsLoaded};
ghost use Rattle.warehouse_objects.specs.Reads.{EndsReading, ForHeld};
ghost use Rattle.warehouse.specs.Session.{content_of, device_of, disk_of, has_failed, IsAt};

use crate::session::{Session, shared};
use cube_model::Fault;
use dimensions::Dims;
use object_store::Store;
use sector_device::Sectors;
use std::alloc::Global;
use std::rc::Rc;
use warehouse_objects::{ShipModes, has_its_objects, read_dims, read_modes, read_root};
use warehouse_root::Root;

/// Finds the warehouse on a device, also one that was not restarted, and finishes an upkeep that was cut off. A refusal
/// hands the device back.
///
/// It reads the root and the dimensions. Then it brings each stored cuboid that holds fewer batches than the target to
/// it, by ascending view and in one commit each; the target stays. A cuboid that would have more than 262,144 cells is
/// passed over. Where there is no room for a commit, and at the last generation, the others are left as they are. Where
/// memory is missing or the device fails, cuboids that were brought on stay so.
pub fn open<D: Sectors>(alloc: Global, device: D) -> Result<Session<D>, (Fault, D)>
    // Where every image at the start represents batches that may be found, each at any point represents such.
    ensures leaves { IfOk result (λ session. (facts : Facts) (last : Option Change) →
        AllShow (disk D.Sectors device) (MayRepresent facts last)
        → Leaves (disk D.Sectors device) (disk_of D.Sectors session)
        (MayRepresentSince (disk D.Sectors device) facts last)) }

    // Then it is at one of them, and every image represents that one. Its cuboids hold the batches up to the target.
    ensures ok { IfOk result (λ session. (facts : Facts) (last : Option Change) →
        AllShow (disk D.Sectors device) (MayRepresent facts last) → D.keeps_word (device_of session)
        → (w : Warehouse) × MayBeFound facts last w × IsSince (disk D.Sectors device) w × IsAt D.Sectors session w
        × IsFinished D.Sectors session w) }

    // Where every image at the start represents a warehouse, it never finds none: it refuses for memory or the device.
    ensures refused { IfErr result (λ e. RefusesToOpen D.Sectors device e.0 e.1) }
{
    let mut session = match open_as_is(alloc, device) {
        Ok(session) => session,
        Err(e) => return Err(e),
    };
    match session.finish(alloc) {
        Ok(()) => Ok(session),
        Err(fault) => Err((fault, session.close())),
    }
}

/// Finds the warehouse on a device, also one that was not restarted, and leaves it as it is, for a reader of a device
/// that may not be written. A refusal hands the device back.
///
/// It reads the root and the dimensions, and no batch. It commits nothing: an upkeep that was cut off stays so.
pub fn open_as_is<D: Sectors>(alloc: Global, device: D) -> Result<Session<D>, (Fault, D)>
    // Where every image at the start represents batches that may be found, each at any point represents such.
    ensures leaves { IfOk result (λ session. (facts : Facts) (last : Option Change) →
        AllShow (disk D.Sectors device) (MayRepresent facts last)
        → Leaves (disk D.Sectors device) (disk_of D.Sectors session)
        (MayRepresentSince (disk D.Sectors device) facts last)) }

    // Then it is at one of them, and every image represents that one.
    ensures ok { IfOk result (λ session. (facts : Facts) (last : Option Change) →
        AllShow (disk D.Sectors device) (MayRepresent facts last) → D.keeps_word (device_of session)
        → (w : Warehouse) × MayBeFound facts last w × IsSince (disk D.Sectors device) w × IsAt D.Sectors session w) }

    // It holds what an image at the start showed.
    ensures fine { IfOk result (λ session. has_failed session ≡ false) }
    ensures shown { IfOk result (λ session. D.keeps_word (device_of session)
        → IsShown (disk D.Sectors device) (content_of D.Sectors session)) }
    ensures word { IfOk result (λ session. D.keeps_word (device_of session) → D.keeps_word device) }
    ensures failures { IfOk result (λ session. D.failed (device_of session) ≡ D.failed device) }

    // Where every image at the start represents a warehouse, it never finds none: it refuses for memory or the device.
    ensures refused { IfErr result (λ e. RefusesToOpen D.Sectors device e.0 e.1) }
{
    let store = match Store::open(alloc, device) {
        Ok(store) => store,
        Err(e) => return Err(e),
    };
    match load(alloc, store) {
        Ok(session) => Ok(session),
        Err(e) => Err(e),
    }
}

// What a store holds, in memory.
fn load<D: Sectors>(alloc: Global, mut store: Store<D>) -> Result<Session<D>, (Fault, D)>
    requires fine { stores.has_failed store ≡ false }
    ensures fine { IfOk result (λ session. has_failed session ≡ false) }
    ensures content { IfOk result (λ session. (disk_of D.Sectors session).keeps_word
        → content_of D.Sectors session ≡ stores.content_of D.Sectors store) }
    ensures failures { IfOk result
        (λ session. (disk_of D.Sectors session).failures ≡ (stores.disk_of D.Sectors store).failures) }
    ensures leaves { IfOk result
        (λ session. Leaves (stores.disk_of D.Sectors store) (disk_of D.Sectors session)
        (λ c. c ≡ stores.content_of D.Sectors store)) }
    ensures leaves_err { IfErr result
        (λ e. Leaves (stores.disk_of D.Sectors store) (disk D.Sectors e.1)
        (λ c. c ≡ stores.content_of D.Sectors store)) }
    ensures readable { IfErr result (λ e. e.0 ≡ BadLayout → D.keeps_word e.1 → (w : Warehouse)
        → Represents (stores.content_of D.Sectors store) w → ⊥) }
    ensures device { IfErr result
        (λ e. e.0 ≡ Device → D.failed e.1 ≡ min ((stores.disk_of D.Sectors store).failures + 1) (2 ^ 64 - 1)) }
    ensures causes { IfErr result (λ e. (e.0 ≡ Memory) ⊎ ((e.0 ≡ Device) ⊎ (e.0 ≡ BadLayout))) }
{
    match read(alloc, &mut store) {
        Ok(kept) => Ok(Session {
            store,
            dims: kept.dims,
            modes: kept.modes,
            root: kept.root,
        }),
        Err(fault) => Err((fault, store.close())),
    }
}

// What a session keeps in memory of its warehouse.
#[derive(Drop)]
struct Kept {
    dims: Rc<Dims>,
    modes: ShipModes,
    root: Root,
}

// The dimensions, the ship modes and the root of the warehouse that the content of a store represents.
fn read<D: Sectors>(alloc: Global, store: &mut Store<D>) -> Result<Kept, Fault>
    requires fine { stores.has_failed store.old ≡ false }
    ensures loaded { IfOk result (λ kept. D.keeps_word (stores.device_of store.new)
        → IsLoaded (stores.content_of D.Sectors store.old) kept.dims.value kept.modes kept.root) }
    ensures readable { IsErrOf result BadLayout → ForHeld D.Sectors store.old store.new (λ w. ⊥) }
    ensures leaves { Leaves (stores.disk_of D.Sectors store.old) (stores.disk_of D.Sectors store.new)
        (λ c. c ≡ stores.content_of D.Sectors store.old) }
    ensures stays { OnOk result (stores.IsStill D.Sectors store.old store.new) }
    ensures device { IsErrOf result Device → stores.Breaks D.Sectors store.old store.new }
    ensures causes { IfErr result EndsReading }
{
    let root = known_root(alloc, store)?;
    let modes = read_modes(alloc, store, root.layout())?;
    let dims = read_dims(alloc, store)?;
    let dims = shared(alloc, dims)?;
    Ok(Kept { dims, modes, root })
}

// The root of a store that has just the objects that it asks for.
fn known_root<D: Sectors>(alloc: Global, store: &Store<D>) -> Result<Root, Fault>
    ensures ok { IfOk result (IsRoot (stores.content_of D.Sectors store.now).root) }
    ensures layout { IfOk result (λ root. (stores.content_of D.Sectors store.now).layout ≡ layout_number root.layout) }
    ensures found { IfOk result (λ root. (w : Warehouse) → Represents (stores.content_of D.Sectors store.now) w
        → root ≡ root_of w) }
    ensures readable { IsErrOf result BadLayout → ForHeld D.Sectors store.now store.now (λ w. ⊥) }
    ensures causes { IfErr result EndsDecoding }
{
    let root = read_root(alloc, store)?;
    if has_its_objects(alloc, store, &root)? {
        Ok(root)
    } else {
        Err(Fault::BadLayout)
    }
}
