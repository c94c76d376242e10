//! The partial report of a query over a warehouse.
ghost use Rattle.std.specs.Prelude.{Err};
ghost use Rattle.cube_model.specs.declared.fault.Fault.TheVariants.{Failed};
ghost use Rattle.warehouse_objects.specs.Represents.{Represents};
ghost use Rattle.warehouse.specs.Session.{ForItsWarehouse, KeptBefore, MayLeave};
ghost use Rattle.warehouse_jobs.specs.Partial.{AnswersInPart, ReportsInPart};
ghost use Rattle.warehouse_jobs.specs.Failing.{FailsAtOnce};

use crate::reporting::batches_asked;
use cube_model::Fault;
use partial_reports::{PartAsked, begin_partial, write_partial};
use sector_device::Sectors;
use std::alloc::Global;
use std::io::Write;
use warehouse::Session;

/// Writes the partial report that is asked for, over the first batches or over all, as the job `Report` writes a whole
/// one.
///
/// `BadQuery` where its query is not proper, `NoSuchPrefix` where there are fewer batches, `Memory`, `Device` where the
/// device fails, `BadLayout` where a member has a bar or a line feed or is the text ALL, and `Output` where the writer
/// fails, after a beginning of the report; `Failed` where the device failed in an earlier call.
pub fn report_partial<D: Sectors, W: Write>(
    alloc: Global,
    session: &mut Session<D>,
    as_of: Option<u32>,
    asked: &PartAsked,
    out: &mut W,
) -> Result<(), Fault>
    ensures reports { ForItsWarehouse D.Sectors session.old session.new
        (λ w. ReportsInPart D.Sectors w as_of asked.now session.old session.new (W.contents out.old)
        (W.contents out.new) result) }

    // Where the device failed in an earlier call, nothing is done.
    ensures failed { FailsAtOnce D.Sectors session.old session.new (W.contents out.old) (W.contents out.new) result }
    ensures word { KeptBefore D.Sectors session.old session.new }
{
    if session.is_broken() {
        return Err(Fault::Failed);
    }
    let count = batches_asked(session, as_of)?;
    partial_over(alloc, session, count, asked, out)
}

// Writes the partial report that is asked for over so many batches.
fn partial_over<D: Sectors, W: Write>(
    alloc: Global,
    session: &mut Session<D>,
    count: u32,
    asked: &PartAsked,
    out: &mut W,
) -> Result<(), Fault>
    ensures ends { ForItsWarehouse D.Sectors session.old session.new
        (λ w. AnswersInPart D.Sectors w count asked.now session.new (W.contents out.old) (W.contents out.new) result) }
    ensures leaves { MayLeave D.Sectors session.old session.new (λ w c. Represents c w) }
    ensures word { KeptBefore D.Sectors session.old session.new }
{
    let found = session.query_groups(alloc, count, &asked.query)?;
    let lines = found.lines();
    let head = begin_partial(alloc, asked, session.dims(), &lines)?;
    write_partial(asked, head.as_slice(), &lines, out)
}
