//! Copying a warehouse to a device.
ghost use Rattle.std.specs.Prelude.{◌≡◌, ◌≢◌, ◌⊎◌, true, IfErr, IfOk, IsErrOf, OnOk};
ghost use Rattle.cube_model.specs.declared.fault.Fault.TheVariants.{Device, Failed, Memory};
ghost use Rattle.object_store.specs.Disk.{disk, Each, IsBlank, Leaves, LeavesOrNone, OnlyImagesOf};
ghost use Rattle.object_store.specs.Shows.{HasNone};
ghost use Rattle.warehouse_objects.specs.Represents.{Represents};
ghost use Rattle.warehouse_objects.specs.Warehouse.{Warehouse};
ghost use Rattle.warehouse.specs.Session.{ForItsWarehouse, IsAt, KeptBefore, MayLeave, device_of, disk_of, has_failed};
ghost use Rattle.warehouse_jobs.specs.Copied.{AreBroughtOn, HoldsPart, IsCopy, IsCopyFault, with_first};

use crate::copied_batches::copy_batches;
use crate::copied_cuboids::copy_cuboids;
use crate::copied_tables::copied;
use cube_model::Fault;
use dimensions::Dims;
use sector_device::Sectors;
use std::alloc::Global;
use warehouse::{Session, create_as};

/// Makes a copy of a warehouse on a device without one, of any size that has room: the same layout and dimension rows,
/// the same batches in the same order, and the cuboids of the same views, each brought to all batches unless its view
/// has more than 262,144 cells. So it answers each query as the first does. It has no free sectors between its objects,
/// and begins with all dimension rows: it counts no addition of rows.
///
/// A refusal hands the device back, and `from` says whether its own device failed. After a crash, and after a refusal
/// once the copy was begun, the device holds a warehouse of the same dimension rows and the first batches. One batch is
/// in memory at a time.
///
/// It is refused when out of memory or room, at the last generation, where one of the devices fails, where the new one
/// has a warehouse already or is too small, and with `Failed` where the first session failed before.
pub fn copy<D: Sectors, E: Sectors>(
    alloc: Global,
    from: &mut Session<D>,
    device: E,
) -> Result<Session<E>, (Fault, E)>
    // The first warehouse stays as it is, at each moment.
    ensures from_leaves { MayLeave D.Sectors from.old from.new (λ w c. Represents c w) }
    ensures from_stays { IfOk result (λ _. (w : Warehouse) → IsAt D.Sectors from.old w → IsAt D.Sectors from.new w) }
    ensures from_stays_err { IfErr result (λ e. e.0 ≢ Device → (w : Warehouse) → IsAt D.Sectors from.old w
        → IsAt D.Sectors from.new w) }
    ensures from_word { KeptBefore D.Sectors from.old from.new }

    // Then the other one is at a copy.
    ensures ok { IfOk result
        (λ to. ForItsWarehouse D.Sectors from.old from.new
        (λ w. (copy : Warehouse) × IsCopy w copy × IsAt E.Sectors to copy
        × (E.keeps_word (device_of to) → AreBroughtOn copy))) }

    // Where no image at the start has a valid superblock: until the end an image has none, or the dimension rows and
    // some first batches.
    ensures leaves { IfOk result
        (λ to. ForItsWarehouse D.Sectors from.old from.new (λ w. Each (disk E.Sectors device) IsBlank
        → LeavesOrNone (disk E.Sectors device) (disk_of E.Sectors to) (HoldsPart w))) }
    ensures leaves_err { IfErr result
        (λ e. ForItsWarehouse D.Sectors from.old from.new (λ w. Each (disk E.Sectors device) IsBlank
        → LeavesOrNone (disk E.Sectors device) (disk E.Sectors e.1) (HoldsPart w))) }

    // It succeeds only where reads of the new device show no valid superblock at the start. Where they show one, no
    // sector is written.
    ensures unformatted { IfOk result (λ to. (disk_of E.Sectors to).keeps_word → HasNone (E.state device).reads) }
    ensures spared { IfErr result (λ e. (HasNone (E.state device).reads → ⊥)
        → OnlyImagesOf (disk E.Sectors device) (disk E.Sectors e.1)) }

    // When each error comes.
    ensures causes { IfErr result
        (λ e. ForItsWarehouse D.Sectors from.old from.new (λ w. E.keeps_word e.1 → IsCopyFault e.0)) }
{
    let layout = from.layout();
    let dims = match tables_of(alloc, from) {
        Ok(dims) => dims,
        Err(fault) => return Err((fault, device)),
    };
    let mut to = match create_as(alloc, device, dims, layout) {
        Ok(session) => session,
        Err(e) => return Err(e),
    };
    match copy_into(alloc, from, &mut to) {
        Ok(()) => Ok(to),
        Err(fault) => Err((fault, to.close())),
    }
}

// A copy of the dimension rows of a warehouse. No device call is made.
fn tables_of<D: Sectors>(alloc: Global, from: &Session<D>) -> Result<Dims, Fault>
    ensures ok { IfOk result (λ dims. ForItsWarehouse D.Sectors from.now from.now (λ w. dims ≡ w.rows)) }
    ensures refused { IfErr result (λ fault. (fault ≡ Memory) ⊎ ((fault ≡ Failed) × (has_failed from.now ≡ true))) }
    ensures leaves { MayLeave D.Sectors from.now from.now (λ w c. Represents c w) }
{
    if from.is_broken() {
        return Err(Fault::Failed);
    }
    copied(alloc, from.dims())
}

// Puts the batches of a warehouse into one that has its dimension rows alone, and then the cuboids of its views.
fn copy_into<D: Sectors, E: Sectors>(
    alloc: Global,
    from: &mut Session<D>,
    to: &mut Session<E>,
) -> Result<(), Fault>
    ensures from_leaves { MayLeave D.Sectors from.old from.new (λ w c. Represents c w) }
    ensures from_stays { (IsErrOf result Device → ⊥) → (w : Warehouse) → IsAt D.Sectors from.old w
        → IsAt D.Sectors from.new w }
    ensures ok { OnOk result ((w : Warehouse) → IsAt D.Sectors from.old w → IsAt E.Sectors to.old (with_first w 0)
        → D.keeps_word (device_of from.new)
        → (copy : Warehouse) × IsCopy w copy × IsAt E.Sectors to.new copy
        × (E.keeps_word (device_of to.new) → AreBroughtOn copy)) }
    ensures leaves { (w : Warehouse) → IsAt D.Sectors from.old w → IsAt E.Sectors to.old (with_first w 0)
        → D.keeps_word (device_of from.new)
        → Leaves (disk_of E.Sectors to.old) (disk_of E.Sectors to.new) (HoldsPart w) }
    ensures refused { IfErr result (λ fault. (w : Warehouse) → IsAt D.Sectors from.old w
        → IsAt E.Sectors to.old (with_first w 0)
        → D.keeps_word (device_of from.new) → E.keeps_word (device_of to.new) → IsCopyFault fault) }
    ensures from_word { KeptBefore D.Sectors from.old from.new }
    ensures word { KeptBefore E.Sectors to.old to.new }
{
    copy_batches(alloc, from, to)?;
    copy_cuboids(alloc, from, to)
}
