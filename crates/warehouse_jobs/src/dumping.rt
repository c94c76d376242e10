//! Writing the fact rows of batches as lines of their table.
ghost use Rattle.std.specs.Prelude.{◌≡◌, true, List, Some, IfErr, IsErrOf, OnOk};
ghost use Rattle.std.specs.Io.KnownBytes.{Keeps};
ghost use Rattle.cube_model.specs.declared.fault.Fault.TheVariants.{Device, Failed};
ghost use Rattle.cube_model.specs.declared.rows.LineOrder.{LineOrder};
ghost use Rattle.cube_model.specs.Admission.{all_rows};
ghost use Rattle.warehouse_objects.specs.Represents.{Represents};
ghost use Rattle.warehouse_objects.specs.Warehouse.{Warehouse};
ghost use Rattle.warehouse.specs.Comparing.{numbered};
ghost use Rattle.warehouse.specs.Reads.{OnlyReads};
ghost use Rattle.warehouse.specs.Session.{ForItsWarehouse, IsAt, KeptBefore, MayLeave, has_failed};
ghost use Rattle.warehouse_jobs.specs.Dumped.{RowsAreWritten, RefusesAfter, DumpIsRefused};

use cube_model::Fault;
use sector_device::Sectors;
use std::alloc::Global;
use std::io::Write;
use table_texts::write_facts;
use warehouse::Session;

/// Hands a writer a line for each fact row of all stored batches, in their order. One batch is in memory at a time. It
/// does not flush.
///
/// After a refusal the writer has the lines of some first batches, and after `Output` also a beginning of those of the
/// next one. `BadLayout` where a line can spell a row of the next batch in no way. It can also fail when out of memory,
/// and where the device or the writer fails. `Failed` where the session failed before.
pub fn write_batches<D: Sectors, W: Write>(
    alloc: Global,
    session: &mut Session<D>,
    out: &mut W,
) -> Result<(), Fault>
    // The warehouse stays as it is, at each moment.
    ensures leaves { MayLeave D.Sectors session.old session.new (λ w c. Represents c w) }
    ensures stays { (IsErrOf result Device → ⊥) → (w : Warehouse) → IsAt D.Sectors session.old w
        → IsAt D.Sectors session.new w }

    // The lines of all rows are written, or those of some first batches.
    ensures ok { OnOk result
        (ForItsWarehouse D.Sectors session.old session.new
        (λ w. RowsAreWritten (all_rows w.batches) (W.contents out.old) (W.contents out.new))) }
    ensures refused { IfErr result
        (λ fault. ForItsWarehouse D.Sectors session.old session.new
        (λ w. RefusesAfter w.batches (W.contents out.old) (W.contents out.new) fault)) }

    // After a failure nothing is done.
    ensures failed { has_failed session.old ≡ true
        → IsErrOf result Failed × Keeps (W.contents out.old) (W.contents out.new) }
    ensures device { IsErrOf result Device → has_failed session.new ≡ true }
    ensures word { KeptBefore D.Sectors session.old session.new }
{
    let status = session.status()?;
    for before in 0..status.batches {
        write_batch(alloc, session, before + 1, out)?;
    }
    Ok(())
}

/// Hands a writer a line for each fact row of the stored batch of a number. Batches are numbered from 1. All rows of
/// the batch are in memory together: at most 65,536. It does not flush.
///
/// `NoSuchPrefix` where there is no such batch, and `BadLayout` where a line can spell one of its rows in no way: then
/// nothing is written. `Output` where the writer fails, after a beginning of the lines. It can also fail when out of
/// memory, and where the device fails. `Failed` where the session failed before.
pub fn write_batch<D: Sectors, W: Write>(
    alloc: Global,
    session: &mut Session<D>,
    number: u32,
    out: &mut W,
) -> Result<(), Fault>
    // It only reads: the warehouse stays as it is, at each moment, and after a failure nothing is done.
    ensures reads { OnlyReads D.Sectors (IsErrOf result) session.old session.new }

    // The lines of its rows are written. When each error comes.
    ensures ok { OnOk result
        (ForItsWarehouse D.Sectors session.old session.new
        (λ w. (rows : List LineOrder) × (numbered w.batches number ≡ Some rows)
        × RowsAreWritten rows (W.contents out.old) (W.contents out.new))) }
    ensures refused { IfErr result
        (λ fault. ForItsWarehouse D.Sectors session.old session.new
        (λ w. DumpIsRefused (numbered w.batches number) (W.contents out.old) (W.contents out.new) fault)) }
{
    let found = session.rows_of_batch(alloc, number)?;
    match found {
        Some(rows) => write_facts(rows.as_slice(), out),
        None => Err(Fault::NoSuchPrefix),
    }
}
