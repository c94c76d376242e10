//! The report of a query over a warehouse, in a layout.
ghost use Rattle.std.specs.Prelude.{Err};
ghost use Rattle.cube_model.specs.declared.fault.Fault.TheVariants.{Failed};
ghost use Rattle.report_formats.specs.Fields.{formatted};
ghost use Rattle.warehouse_objects.specs.Represents.{Represents};
ghost use Rattle.warehouse.specs.Session.{ForItsWarehouse, KeptBefore, MayLeave};
ghost use Rattle.warehouse_jobs.specs.Reporting.{AnswersByModes, ReportsIn};
ghost use Rattle.warehouse_jobs.specs.Failing.{FailsAtOnce};

use crate::answering::answered;
use crate::reporting::batches_asked;
use cube_model::Fault;
use report_formats::{Asked, write_formatted};
use sector_device::Sectors;
use std::alloc::Global;
use std::io::Write;
use warehouse::Session;

/// Writes the report that is asked for, over the first batches or over all, as the job `Report` writes one with bars.
/// Its query may look at ship modes.
///
/// `BadQuery` where its query is not proper, `NoSuchPrefix` where there are fewer batches, `Memory`, `Device` where the
/// device fails, and `Output` where the writer fails, after a beginning of the report; `Failed` where the device failed
/// in an earlier call.
pub fn report_formatted<D: Sectors, W: Write>(
    alloc: Global,
    session: &mut Session<D>,
    as_of: Option<u32>,
    asked: &Asked,
    out: &mut W,
) -> Result<(), Fault>
    ensures reports { ForItsWarehouse D.Sectors session.old session.new
        (λ w. ReportsIn D.Sectors w as_of asked.now session.old session.new (W.contents out.old) (W.contents out.new)
        result) }

    // Where the device failed in an earlier call, nothing is done.
    ensures failed { FailsAtOnce D.Sectors session.old session.new (W.contents out.old) (W.contents out.new) result }
    ensures word { KeptBefore D.Sectors session.old session.new }
{
    if session.is_broken() {
        return Err(Fault::Failed);
    }
    let count = batches_asked(session, as_of)?;
    formatted_over(alloc, session, count, asked, out)
}

// Writes the report that is asked for over so many batches.
fn formatted_over<D: Sectors, W: Write>(
    alloc: Global,
    session: &mut Session<D>,
    count: u32,
    asked: &Asked,
    out: &mut W,
) -> Result<(), Fault>
    ensures ends { ForItsWarehouse D.Sectors session.old session.new
        (λ w. AnswersByModes (formatted asked.now) D.Sectors w count asked.now.query session.new (W.contents out.old)
        (W.contents out.new) result) }
    ensures leaves { MayLeave D.Sectors session.old session.new (λ w c. Represents c w) }
    ensures word { KeptBefore D.Sectors session.old session.new }
{
    let found = answered(alloc, session, count, &asked.query)?;
    let lines = found.lines();
    write_formatted(alloc, asked, &lines, out)
}
