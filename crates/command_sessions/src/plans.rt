//! The command `explain`.
use crate::device::{self, Access, InFile};
use crate::explaining::explained;
use crate::job::met_in;
use crate::notes::note_conditions;
use crate::reads::{Reads, mark_of};
use crate::unfinished::note_unfinished;
use clap::ArgMatches;
use command_files::exit::DONE;
use command_files::output::{cut_short, output};
use command_files::query::{NOTHING_ASKED, asks_nothing, query_of};
use command_files::records::{format_of, view_cells};
use command_files::refusal::{Refusal, bad_query};
use command_files::report::unasked;
use command_files::system::System;
use command_files::texts::print_text;
use command_files::timing::say_read;
use cube_model::Fault;
use mode_queries::{ModeQuery, QueryRef};
use report_formats::{Cell, Format, Records};
use sector_device::Sectors;
use std::alloc::{AllocError, Global};
use warehouse::{AccessPath, Priced, Session};

/// The fields of a record of a plan.
const FIELDS: [&str; 10] = [
    "plan", "view", "customer", "supplier", "part", "date", "shipmode", "mark", "tail", "cost",
];

/// Prints how the query of a command is answered over the batches that it names, and writes the notes on its
/// conditions.
pub fn explain(rt: &System, given: &ArgMatches<'_>) -> Result<u8, Refusal> {
    match query_of(rt.alloc(), given) {
        Ok(asked) => explain_query(rt, given, &asked),
        Err(refusal) => Err(unspelled(rt.alloc(), given, refusal)),
    }
}

// The refusal of words that spell no query. Where nothing is asked it says both ways to ask.
fn unspelled(alloc: Global, given: &ArgMatches<'_>, refusal: Refusal) -> Refusal {
    if asks_nothing(given) && refusal.fault == Fault::BadQuery {
        bad_query(format!(in alloc; "{NOTHING_ASKED}"))
    } else {
        unasked(alloc, given, refusal)
    }
}

// Prints how a query of the warehouse of a command is answered.
fn explain_query(rt: &System, given: &ArgMatches<'_>, asked: &ModeQuery) -> Result<u8, Refusal> {
    match device::open(rt, given, Access::Read) {
        Ok(session) => explain_in(rt, given, asked, &session),
        Err(met) => Err(explained(rt, given, met)),
    }
}

// Prints how a query of an open warehouse is answered, as lines or as records, and writes the notes on its conditions.
fn explain_in<D: Sectors + InFile>(
    rt: &System,
    given: &ArgMatches<'_>,
    asked: &ModeQuery,
    session: &Session<D>,
) -> Result<u8, Refusal> {
    let status = match format_of(given) {
        None => print_plans(rt, given, asked, session)?,
        Some(format) => print_records(rt, given, asked, session, format)?,
    };
    note_unfinished(rt, given, session);
    note_conditions(rt, given, QueryRef::ByModes(asked), session.dims());
    Ok(status)
}

// Prints how a query of an open warehouse is answered.
fn print_plans<D: Sectors + InFile>(
    rt: &System,
    given: &ArgMatches<'_>,
    asked: &ModeQuery,
    session: &Session<D>,
) -> Result<u8, Refusal> {
    let mut out = output(rt)?;
    let as_of = given.get_one::<u32>("as-of");
    match warehouse_jobs::explain(rt.alloc(), session, as_of, asked, &mut out) {
        Ok(()) if given.get_flag("all") => print_reads(rt, given, asked, session),
        Ok(()) => Ok(DONE),
        Err(Fault::Output) => cut_short(rt.alloc(), out.failure()),
        Err(fault) => Err(explained(rt, given, met_in(rt.alloc(), fault, session))),
    }
}

// The plans of a query of an open warehouse, the one that is taken first, and how many batches they are over.
fn plans_in<D: Sectors>(
    alloc: Global,
    given: &ArgMatches<'_>,
    asked: QueryRef<'_>,
    session: &Session<D>,
) -> Result<(Vec<Priced>, u32), Fault> {
    let count = count_asked(given, session)?;
    let plans = match asked {
        QueryRef::Plain(query) => session.plans(alloc, count, query)?,
        QueryRef::ByModes(asked) => session.moded_plans(alloc, count, asked)?,
    };
    Ok((plans, count))
}

// How many fact rows the batches after some have, up to others.
fn rows_between<D: Sectors>(session: &Session<D>, mark: u32, count: u32) -> u64 {
    let mut rows = 0u64;
    for before in mark..count {
        let batch = session.batch_rows(before.saturating_add(1)).unwrap_or(0);
        rows = rows.saturating_add(u64::from(batch));
    }
    rows
}

// Prints what the plan that is taken reads, and how many groups there are at most.
fn print_reads<D: Sectors + InFile>(
    rt: &System,
    given: &ArgMatches<'_>,
    asked: &ModeQuery,
    session: &Session<D>,
) -> Result<u8, Refusal> {
    let alloc = rt.alloc();
    let asked = QueryRef::ByModes(asked);
    let reads = Reads::of(alloc, session.dims(), session.ship_mode_count(), asked)?;
    let (plans, count) = plans_in(alloc, given, asked, session)?;
    let Some(taken) = plans.first() else {
        return Ok(DONE);
    };
    let mark = mark_of(taken.plan);
    let text = format!(in alloc;
        "batches {}\ncolumns{}\nbytes {}\ngroups {}\n",
        count.saturating_sub(mark),
        reads.column_names(alloc)?,
        reads.bytes(taken, rows_between(session, mark, count)),
        reads.groups(rows_between(session, 0, count))
    )?;
    print_text(rt, text.as_str())
}

/// Says on standard error how many cells and fact rows the query of a report reads, and how many bytes at most, where
/// it is asked to. Of a query by ship mode the texts of each batch are not counted.
pub fn say_reads<D: Sectors + InFile>(
    rt: &System,
    given: &ArgMatches<'_>,
    asked: QueryRef<'_>,
    session: &Session<D>,
) {
    if let Ok((rows, bytes)) = read_by(rt.alloc(), given, asked, session) {
        say_read(rt, given, rows, bytes);
    }
}

// How many batches a query is over.
fn count_asked<D: Sectors>(given: &ArgMatches<'_>, session: &Session<D>) -> Result<u32, Fault> {
    match given.get_one::<u32>("as-of") {
        Some(as_of) => Ok(as_of),
        None => Ok(session.status()?.batches),
    }
}

// How many cells and fact rows the plan that is taken reads, and how many bytes at most.
fn read_by<D: Sectors>(
    alloc: Global,
    given: &ArgMatches<'_>,
    asked: QueryRef<'_>,
    session: &Session<D>,
) -> Result<(u64, u64), Fault> {
    let reads = Reads::of(alloc, session.dims(), session.ship_mode_count(), asked)?;
    let (plans, count) = plans_in(alloc, given, asked, session)?;
    let Some(taken) = plans.first() else {
        return Ok((0, 0));
    };
    let rows = rows_between(session, mark_of(taken.plan), count);
    Ok((taken.cost, reads.bytes(taken, rows)))
}

// Prints the plans of a query of an open warehouse as records.
fn print_records<D: Sectors + InFile>(
    rt: &System,
    given: &ArgMatches<'_>,
    asked: &ModeQuery,
    session: &Session<D>,
    format: Format,
) -> Result<u8, Refusal> {
    let alloc = rt.alloc();
    match plans_in(alloc, given, QueryRef::ByModes(asked), session) {
        Ok((plans, count)) => {
            let records = plan_records(alloc, format, count, plans.as_slice())?;
            print_text(rt, records.text())
        }
        Err(fault) => Err(explained(rt, given, met_in(alloc, fault, session))),
    }
}

// The plans of a query over so many batches, the one that is taken first.
fn plan_records(
    alloc: Global,
    format: Format,
    count: u32,
    plans: &[Priced],
) -> Result<Records, AllocError> {
    let mut records = Records::new(alloc, format, &FIELDS)?;
    let mut name = "taken";
    for one in plans {
        records.push(alloc, &plan_cells(name, count, one))?;
        name = "other";
    }
    Ok(records)
}

// The cells of a plan.
fn plan_cells(name: &'static str, count: u32, one: &Priced) -> [Cell; 10] {
    let tail = count.saturating_sub(mark_of(one.plan));
    let ([view, customer, supplier, part, date, mode], mark) = match one.plan {
        AccessPath::Scan => ([Cell::Empty; 6], Cell::Empty),
        AccessPath::Cells { view, mark } => (view_cells(view), Cell::Number(u64::from(mark))),
    };
    [
        Cell::Word(name),
        view,
        customer,
        supplier,
        part,
        date,
        mode,
        mark,
        Cell::Number(u64::from(tail)),
        Cell::Number(one.cost),
    ]
}
