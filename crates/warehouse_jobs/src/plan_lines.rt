//! The lines of plans.
ghost use Rattle.std.specs.Prelude.{◌≡◌, ◌-◌, ◌++◌, codes};
ghost use Rattle.std.specs.List.{flat_map};
ghost use Rattle.std.specs.Fmt.{decimal};
ghost use Rattle.lattice.specs.Names.{view_text};
ghost use Rattle.planned_queries.specs.Planned.{mark_of};
ghost use Rattle.ssb_reports.specs.Writing.{Writes};
ghost use Rattle.warehouse_jobs.specs.PlanLines.{cost_text, other_line, plan_line, plans_text, source_text};

use crate::printing::{write_parts, write_view};
use cube_model::Fault;
use itoa::Buffer;
use lattice::View;
use planner::{AccessPath, Priced};
use ssb_reports::{flush, write_bytes, write_number};
use std::io::Write;

/// Writes the lines of the plans of a query over the first batches, and flushes them.
pub(crate) fn write_plans<W: Write>(
    out: &mut W,
    ship_modes: bool,
    as_of: u32,
    plans: &[Priced],
) -> Result<(), Fault>
    ensures { Writes (W.contents out.old) (W.contents out.new) result (plans_text ship_modes as_of plans.now) }
{
    write_plan_lines(out, ship_modes, as_of, plans)?;
    flush(out)
}

fn write_plan_lines<W: Write>(
    out: &mut W,
    ship_modes: bool,
    as_of: u32,
    plans: &[Priced],
) -> Result<(), Fault>
    ensures { Writes (W.contents out.old) (W.contents out.new) result (plans_text ship_modes as_of plans.now) }
{
    match plans {
        [] => Ok(()),
        [first, others @ ..] => {
            write_plan(out, ship_modes, b"plan ", as_of, first)?;
            write_others(out, ship_modes, as_of, others)
        }
    }
}

// Writes the lines of plans that are not taken.
fn write_others<W: Write>(
    out: &mut W,
    ship_modes: bool,
    as_of: u32,
    others: &[Priced],
) -> Result<(), Fault>
    ensures { Writes (W.contents out.old) (W.contents out.new) result
        (flat_map (other_line ship_modes as_of) others.now) }
{
    for one in others {
        write_plan(out, ship_modes, b"other ", as_of, one)?;
    }
    Ok(())
}

// Writes the line of a plan over the first batches.
fn write_plan<W: Write>(
    out: &mut W,
    ship_modes: bool,
    name: &[u8],
    as_of: u32,
    one: &Priced,
) -> Result<(), Fault>
    ensures { Writes (W.contents out.old) (W.contents out.new) result (plan_line ship_modes name.now as_of one.now) }
{
    write_bytes(out, name)?;
    write_source(out, ship_modes, one.plan)?;
    write_cost(out, tail_of(one.plan, as_of), one.cost)
}

// Writes from where a plan reads first.
fn write_source<W: Write>(out: &mut W, ship_modes: bool, plan: AccessPath) -> Result<(), Fault>
    ensures { Writes (W.contents out.old) (W.contents out.new) result (source_text ship_modes plan) }
{
    match plan {
        AccessPath::Scan => write_bytes(out, b"scan"),
        AccessPath::Cells { view, mark } => write_cells(out, ship_modes, view, mark),
    }
}

// Writes the view of stored cells, and how many batches they hold.
fn write_cells<W: Write>(out: &mut W, ship_modes: bool, view: View, mark: u32) -> Result<(), Fault>
    ensures { Writes (W.contents out.old) (W.contents out.new) result
        (view_text ship_modes view ++ (codes " mark " ++ decimal mark)) }
{
    write_view(out, ship_modes, view)?;
    write_bytes(out, b" mark ")?;
    write_number(out, mark)
}

// Writes how many batches are read as fact rows, and how many cells and rows are read.
fn write_cost<W: Write>(out: &mut W, tail: u32, cost: u64) -> Result<(), Fault>
    ensures { Writes (W.contents out.old) (W.contents out.new) result (cost_text tail cost) }
{
    let (mut batches, mut reads) = (Buffer::new(), Buffer::new());
    let parts: [&[u8]; 5] = [
        b" tail ",
        batches.format(tail).as_bytes(),
        b" cost ",
        reads.format(cost).as_bytes(),
        b"\n",
    ];
    write_parts(out, &parts)
}

// How many of the first batches a plan reads as fact rows: those after its mark.
fn tail_of(plan: AccessPath, as_of: u32) -> u32
    ensures { result ≡ as_of - mark_of plan }
{
    match plan {
        AccessPath::Scan => as_of,
        AccessPath::Cells { mark, .. } => as_of.saturating_sub(mark),
    }
}
