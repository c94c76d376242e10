//! Adding rows to the dimensions.
ghost use Rattle.std.specs.Prelude.{◌≡◌, Err, IfErr, IfOk};
ghost use Rattle.cube_model.specs.declared.fault.Fault.TheVariants.{Failed};
ghost use Rattle.cube_model.specs.Validity.{HaveShortTexts};
ghost use Rattle.warehouse.specs.Session.{ForItsWarehouse, KeptBefore};
ghost use Rattle.warehouse_jobs.specs.Adding.{DoesAddition, RefusesRows, DeviceTakesRows, row_total};
ghost use Rattle.warehouse_jobs.specs.Failing.{FailsAtOnce};

use crate::printing::write_addition;
use crate::taken::Taken;
use cube_model::{DimRows, Fault};
use sector_device::Sectors;
use std::alloc::Global;
use std::io::Write;
use stored_rows::has_rows;
use warehouse::Session;

/// Adds rows to the dimensions under a number, and writes and flushes two lines once they are durable: `addition 1 rows
/// 1`, how many rows there are in all four tables, and `additions 1`, how many additions the warehouse has. Additions
/// are numbered from 1.
///
/// An addition whose number is there is skipped where each of its rows is in the dimensions already, under its key and
/// with the same texts: the first line is `addition 1 skipped` then. Where one is not, the addition is `Repeated`. Any
/// other refusal is that of `Session::add`, or `Output` where the writer fails, which leaves the addition.
pub fn add<D: Sectors, W: Write>(
    alloc: Global,
    session: &mut Session<D>,
    number: u32,
    rows: &DimRows,
    out: &mut W,
) -> Result<(), Fault>
    requires short { HaveShortTexts rows.now }

    // What is written, what the warehouse is then, and what a crash at any point until then leaves.
    ensures adds { ForItsWarehouse D.Sectors session.old session.new
        (λ w. DoesAddition D.Sectors w number rows.now session.old session.new (W.contents out.old) (W.contents out.new)
        result) }

    // Where the device failed in an earlier call, nothing is done.
    ensures failed { FailsAtOnce D.Sectors session.old session.new (W.contents out.old) (W.contents out.new) result }
    ensures word { KeptBefore D.Sectors session.old session.new }
{
    if session.is_broken() {
        return Err(Fault::Failed);
    }
    let taken = take_rows(alloc, session, number, rows)?;
    let status = session.status()?;
    write_addition(out, number, row_total(rows), taken, status.additions)
}

// Adds rows under a number. Where an addition of that number is there already, it is passed over if each row is there.
fn take_rows<D: Sectors>(
    alloc: Global,
    session: &mut Session<D>,
    number: u32,
    rows: &DimRows,
) -> Result<Taken, Fault>
    requires short { HaveShortTexts rows.now }
    ensures taken { IfOk result
        (λ taken. ForItsWarehouse D.Sectors session.old session.new
        (λ w. DeviceTakesRows D.Sectors w number rows.now session.old session.new taken)) }
    ensures refused { IfErr result
        (λ fault. ForItsWarehouse D.Sectors session.old session.new
        (λ w. RefusesRows D.Sectors w number rows.now session.old session.new fault)) }
    ensures word { KeptBefore D.Sectors session.old session.new }
{
    if number > session.status()?.additions {
        session.add(alloc, number, rows)?;
        return Ok(Taken::Added);
    }
    if !has_rows(session.dims(), rows) {
        return Err(Fault::Repeated);
    }
    Ok(Taken::Skipped)
}

// How many rows there are in all four tables.
fn row_total(rows: &DimRows) -> u128
    ensures { result ≡ row_total rows.now }
{
    let places = rows.customers.len() as u128 + rows.suppliers.len() as u128;
    places + rows.parts.len() as u128 + rows.dates.len() as u128
}
