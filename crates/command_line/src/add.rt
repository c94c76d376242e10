//! The command `add`.
ghost use Rattle.std.specs.Prelude.{IfOk};
ghost use Rattle.cube_model.specs.Validity.{HaveShortTexts};

use clap::ArgMatches;
use command_files::exit::{DONE, NO_COMMAND};
use command_files::files::{Reads, open_named};
use command_files::output::{cut_short, output};
use command_files::refusal::Refusal;
use command_files::system::System;
use command_files::table_refusals::{broken_hint, refused_tables, rows_over};
use command_sessions::device::{self, Access, InFile};
use command_sessions::explaining::explained;
use command_sessions::job::met_in;
use command_sessions::unfinished::note_unfinished;
use cube_model::{DimRows, Fault};
use sector_device::Sectors;
use std::alloc::Global;
use warehouse::Session;
use warehouse_root::limits::MOST_ADDITIONS;

/// Adds the rows of the files of the command to the dimensions of its warehouse, and says so.
pub fn add(rt: &System, given: &ArgMatches<'_>) -> Result<u8, Refusal> {
    let Some(number) = given.get_one::<u32>("number") else {
        return Ok(NO_COMMAND);
    };
    let rows = rows_of(rt, given)?;
    match device::open(rt, given, Access::Commit) {
        Ok(mut session) => print_addition(rt, given, &mut session, number, &rows),
        Err(met) => Err(explained(rt, given, met)),
    }
}

// The rows of the tables that the command names. One that it does not name has none.
fn rows_of(rt: &System, given: &ArgMatches<'_>) -> Result<DimRows, Refusal>
    ensures short { IfOk result HaveShortTexts }
{
    let reads = Reads::new(None);
    match open_named(rt, given, &reads) {
        Ok(files) => rows_over(rt.alloc(), given, files, &reads),
        Err(fault) => Err(refused_tables(rt.alloc(), given, &reads, fault, Ok(None))),
    }
}

// Adds rows to the dimensions of an open warehouse, and prints that it is done.
fn print_addition<D: Sectors + InFile>(
    rt: &System,
    given: &ArgMatches<'_>,
    session: &mut Session<D>,
    number: u32,
    rows: &DimRows,
) -> Result<u8, Refusal>
    requires short { HaveShortTexts rows.now }
{
    let mut out = output(rt)?;
    match warehouse_jobs::add(rt.alloc(), session, number, rows, &mut out) {
        Ok(()) => {
            note_unfinished(rt, given, session);
            Ok(DONE)
        }
        Err(Fault::Output) => cut_short(rt.alloc(), out.failure()),
        Err(fault) => Err(refused(rt, given, session, number, rows, fault)),
    }
}

// The refusal of an addition with a number, and its cause where that can be found out.
fn refused<D: Sectors + InFile>(
    rt: &System,
    given: &ArgMatches<'_>,
    session: &Session<D>,
    number: u32,
    rows: &DimRows,
    fault: Fault,
) -> Refusal {
    match hint_of(rt.alloc(), given, session, number, rows, fault) {
        Ok(Some(hint)) => Refusal {
            fault,
            hint: Some(hint),
        },
        _ => explained(rt, given, met_in(rt.alloc(), fault, session)),
    }
}

fn hint_of<D: Sectors>(
    alloc: Global,
    given: &ArgMatches<'_>,
    session: &Session<D>,
    number: u32,
    rows: &DimRows,
    fault: Fault,
) -> Result<Option<String>, Fault> {
    let next = session.status()?.additions.saturating_add(1);
    match fault {
        Fault::Gap => Ok(Some(gap_hint(alloc, number, next)?)),
        Fault::Repeated => Ok(Some(repeated_hint(alloc, number, next)?)),
        Fault::TooManyAdditions => Ok(Some(crowd_hint(alloc)?)),
        _ => broken_hint(alloc, given, rows, Some(session.dims()), fault),
    }
}

fn gap_hint(alloc: Global, number: u32, next: u32) -> Result<String, Fault> {
    let said = format!(in alloc;
        "--number {number}: the next addition to the warehouse is {next}"
    )?;
    Ok(said)
}

fn repeated_hint(alloc: Global, number: u32, next: u32) -> Result<String, Fault> {
    let said = format!(in alloc;
        "--number {number}: that addition was made, and a row of these files is not in the warehouse with its texts; the next addition is {next}"
    )?;
    Ok(said)
}

fn crowd_hint(alloc: Global) -> Result<String, Fault> {
    let said = format!(in alloc;
        "a warehouse has at most {MOST_ADDITIONS} additions; larger ones add more rows"
    )?;
    Ok(said)
}
