//! The report of a query over a warehouse.
ghost use Rattle.std.specs.Prelude.{◌≡◌, true, IfOk, IfErr};
ghost use Rattle.cube_model.specs.declared.fault.Fault.TheVariants.{Failed};
ghost use Rattle.ssb_reports.specs.Report.{report_of};
ghost use Rattle.warehouse_objects.specs.Represents.{Represents};
ghost use Rattle.warehouse.specs.Session.{ForItsWarehouse, KeptBefore, MayLeave, has_failed};
ghost use Rattle.warehouse_jobs.specs.Reporting.{WritesAnswer, Reports, batches_asked};

use cube_model::{Fault, Query};
use sector_device::Sectors;
use ssb_reports::write_report;
use std::alloc::Global;
use std::io::Write;
use warehouse::Session;

/// Writes the report of the answer to a query over the first batches, or over all.
pub(crate) fn report<D: Sectors, W: Write>(
    alloc: Global,
    session: &mut Session<D>,
    as_of: Option<u32>,
    query: &Query,
    out: &mut W,
) -> Result<(), Fault>
    ensures reports { ForItsWarehouse D.Sectors session.old session.new
        (λ w. Reports D.Sectors w as_of query.now session.old session.new (W.contents out.old) (W.contents out.new)
        result) }
    ensures word { KeptBefore D.Sectors session.old session.new }
{
    let count = batches_asked(session, as_of)?;
    report_over(alloc, session, count, query, out)
}

// Writes the report of the answer to a query over so many batches.
fn report_over<D: Sectors, W: Write>(
    alloc: Global,
    session: &mut Session<D>,
    count: u32,
    query: &Query,
    out: &mut W,
) -> Result<(), Fault>
    ensures ends { ForItsWarehouse D.Sectors session.old session.new
        (λ w. WritesAnswer (report_of query.now) D.Sectors w count query.now session.new (W.contents out.old)
        (W.contents out.new) result) }
    ensures leaves { MayLeave D.Sectors session.old session.new (λ w c. Represents c w) }
    ensures word { KeptBefore D.Sectors session.old session.new }
{
    let found = session.query_groups(alloc, count, query)?;
    let lines = found.lines();
    write_report(query, &lines, out)
}

/// How many batches are asked for.
pub(crate) fn batches_asked<D: Sectors>(
    session: &Session<D>,
    as_of: Option<u32>,
) -> Result<u32, Fault>
    ensures ok { IfOk result
        (λ count. ForItsWarehouse D.Sectors session.now session.now (λ w. count ≡ batches_asked w as_of)) }
    ensures err { IfErr result (λ fault. (fault ≡ Failed) × (has_failed session.now ≡ true)) }
{
    match as_of {
        Some(as_of) => Ok(as_of),
        None => Ok(session.status()?.batches),
    }
}
