//! Copying the batches of a warehouse into another one.
ghost use Rattle.std.specs.Prelude.{◌<◌, ◌+◌, ◌^◌, length, IfErr, IsErrOf, OnOk};
ghost use Rattle.cube_model.specs.declared.fault.Fault.TheVariants.{Device};
ghost use Rattle.object_store.specs.Disk.{Leaves};
ghost use Rattle.warehouse_objects.specs.Represents.{Represents};
ghost use Rattle.warehouse_objects.specs.Warehouse.{Warehouse};
ghost use Rattle.warehouse.specs.Session.{IsAt, KeptBefore, MayLeave, device_of, disk_of};
ghost use Rattle.warehouse_jobs.specs.Copied.{HoldsPart, IsCopyFault, with_first};

use cube_model::Fault;
use sector_device::Sectors;
use std::alloc::Global;
use warehouse::Session;

// Adds each batch of a warehouse to one without batches, in their order. One batch is in memory at a time.
pub(crate) fn copy_batches<D: Sectors, E: Sectors>(
    alloc: Global,
    from: &mut Session<D>,
    to: &mut Session<E>,
) -> Result<(), Fault>
    // The first warehouse stays as it is, at each moment.
    ensures from_leaves { MayLeave D.Sectors from.old from.new (λ w c. Represents c w) }
    ensures from_stays { (IsErrOf result Device → ⊥) → (w : Warehouse) → IsAt D.Sectors from.old w
        → IsAt D.Sectors from.new w }

    // Then the other one has all its batches, and until then the first ones.
    ensures ok { OnOk result ((w : Warehouse) → IsAt D.Sectors from.old w → IsAt E.Sectors to.old (with_first w 0)
        → D.keeps_word (device_of from.new)
        → IsAt E.Sectors to.new (with_first w (length w.batches))) }
    ensures leaves { (w : Warehouse) → IsAt D.Sectors from.old w → IsAt E.Sectors to.old (with_first w 0)
        → D.keeps_word (device_of from.new)
        → Leaves (disk_of E.Sectors to.old) (disk_of E.Sectors to.new) (HoldsPart w) }
    ensures refused { IfErr result (λ fault. (w : Warehouse) → IsAt D.Sectors from.old w
        → IsAt E.Sectors to.old (with_first w 0)
        → D.keeps_word (device_of from.new) → E.keeps_word (device_of to.new) → IsCopyFault fault) }
    ensures from_word { KeptBefore D.Sectors from.old from.new }
    ensures word { KeptBefore E.Sectors to.old to.new }
{
    let status = from.status()?;
    for before in 0..status.batches {
        copy_batch(alloc, from, to, before)?;
    }
    Ok(())
}

// Adds the batch after so many others of a warehouse to one that has those.
fn copy_batch<D: Sectors, E: Sectors>(
    alloc: Global,
    from: &mut Session<D>,
    to: &mut Session<E>,
    before: u32,
) -> Result<(), Fault>
    requires fits { before + 1 < 2 ^ 32 }
    ensures from_leaves { MayLeave D.Sectors from.old from.new (λ w c. Represents c w) }
    ensures from_stays { (IsErrOf result Device → ⊥) → (w : Warehouse) → IsAt D.Sectors from.old w
        → IsAt D.Sectors from.new w }
    ensures ok { OnOk result ((w : Warehouse) → IsAt D.Sectors from.old w → IsAt E.Sectors to.old (with_first w before)
        → D.keeps_word (device_of from.new)
        → IsAt E.Sectors to.new (with_first w (before + 1))) }
    ensures leaves { (w : Warehouse) → IsAt D.Sectors from.old w → IsAt E.Sectors to.old (with_first w before)
        → D.keeps_word (device_of from.new)
        → Leaves (disk_of E.Sectors to.old) (disk_of E.Sectors to.new) (HoldsPart w) }
    ensures refused { IfErr result (λ fault. (w : Warehouse) → IsAt D.Sectors from.old w → before < length w.batches
        → IsAt E.Sectors to.old (with_first w before) → D.keeps_word (device_of from.new)
        → E.keeps_word (device_of to.new) → IsCopyFault fault) }
    ensures from_word { KeptBefore D.Sectors from.old from.new }
    ensures word { KeptBefore E.Sectors to.old to.new }
{
    let number = before + 1;
    let found = from.rows_of_batch(alloc, number)?;
    match found {
        Some(rows) => to.submit(alloc, number, rows.as_slice()),
        None => Err(Fault::BadLayout), // fewer batches than the root says
    }
}
