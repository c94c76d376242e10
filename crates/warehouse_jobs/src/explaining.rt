//! The plans of a query over an open warehouse.
ghost use Rattle.std.specs.Prelude.{◌≡◌, true, Err};
ghost use Rattle.std.specs.Io.KnownBytes.{Keeps};
ghost use Rattle.cube_model.specs.declared.fault.Fault.TheVariants.{Failed};
ghost use Rattle.warehouse.specs.Session.{ForItsWarehouse, has_failed};
ghost use Rattle.warehouse_jobs.specs.Reporting.{batches_asked};
ghost use Rattle.warehouse_jobs.specs.Explaining.{Explains};

use crate::plan_lines::write_plans;
use crate::reporting::batches_asked;
use cube_model::Fault;
use mode_queries::ModeQuery;
use sector_device::Sectors;
use std::alloc::Global;
use std::io::Write;
use warehouse::Session;

/// Writes how a query over the first batches, or over all, is answered: a line for the plan that reads least, such as
/// `plan view 248 ALL|ALL|mfgr|day mark 1 tail 0 cost 2`, and after it one for each other plan, such as `other scan
/// tail 1 cost 3`. The tail is how many batches are read as fact rows, the cost how many cells and fact rows are read.
/// It makes no device call.
///
/// The query may look at ship modes, and its plans are then of the cuboids that group by them. One that does not has
/// the plans that it has as a query of the dimensions alone (`planned_without_ship_modes` of `mode_answers`).
///
/// `BadQuery` where the query is not proper, `NoSuchPrefix` where there are fewer batches, `Memory`, and `Output` where
/// the writer fails; `Failed` where the device failed in an earlier call.
pub fn explain<D: Sectors, W: Write>(
    alloc: Global,
    session: &Session<D>,
    as_of: Option<u32>,
    asked: &ModeQuery,
    out: &mut W,
) -> Result<(), Fault>
    ensures explains { ForItsWarehouse D.Sectors session.now session.now
        (λ w. Explains w (batches_asked w as_of) asked.now (W.contents out.old) (W.contents out.new) result) }
    ensures failed { has_failed session.now ≡ true → (result ≡ Err Failed)
        × Keeps (W.contents out.old) (W.contents out.new) }
{
    let count = batches_asked(session, as_of)?;
    explain_over(alloc, session, count, asked, out)
}

// Writes the plans of a query over so many batches.
fn explain_over<D: Sectors, W: Write>(
    alloc: Global,
    session: &Session<D>,
    count: u32,
    asked: &ModeQuery,
    out: &mut W,
) -> Result<(), Fault>
    ensures explains { ForItsWarehouse D.Sectors session.now session.now
        (λ w. Explains w count asked.now (W.contents out.old) (W.contents out.new) result) }
    ensures failed { has_failed session.now ≡ true → (result ≡ Err Failed)
        × Keeps (W.contents out.old) (W.contents out.new) }
{
    let plans = session.moded_plans(alloc, count, asked)?;
    let ship_modes = session.layout().has_ship_modes();
    write_plans(out, ship_modes, count, plans.as_slice())
}
