//! A job that a command has done to its warehouse.
use crate::device::{self, Access, InFile};
use crate::explaining::{Met, explained};
use crate::notes::note_report;
use crate::plans::say_reads;
use crate::reports::{Reports, odd_format, reports_of, write_reports};
use crate::space::Room;
use crate::unfinished::note_unfinished;
use clap::ArgMatches;
use command_files::exit::{DONE, NO_COMMAND, exit_of};
use command_files::output::{Output, cut_short, output};
use command_files::refusal::Refusal;
use command_files::saving::{begin, cut_off, finish, part_of, remove};
use command_files::system::System;
use command_files::timing::{begin as begin_time, say_seconds};
use cube_model::Fault;
use sector_device::Sectors;
use std::alloc::Global;
use std::io;
use warehouse::Session;
use warehouse_jobs::{Job, perform};

/// Asks the query of a command, over the batches that it names, and writes the notes on its conditions and how long it
/// took.
pub fn ask(rt: &System, given: &ArgMatches<'_>) -> Result<u8, Refusal> {
    if let Some(name) = odd_format(given) {
        return unformatted(rt, name);
    }
    let tally = begin_time(rt);
    let reports = reports_of(rt, given)?;
    let status = answer(rt, given, &reports)?;
    say_seconds(rt, given, &tally);
    Ok(status)
}

// Says that several queries are not reported in a format.
fn unformatted(rt: &System, name: &str) -> Result<u8, Refusal> {
    let said = eprintln!(rt;
        "error: invalid value '{name}' for '--format <FORMAT>': the reports of several queries are written with bars; ask for one query\n\nFor more information, try '--help'."
    );
    match said {
        Ok(()) => Ok(NO_COMMAND),
        Err(_) => Err(Refusal::from(Fault::Output)),
    }
}

// Opens the warehouse of a command, and reports the answers to where the words have them go.
fn answer(rt: &System, given: &ArgMatches<'_>, reports: &Reports) -> Result<u8, Refusal> {
    match device::open(rt, given, Access::Read) {
        Ok(mut session) => answer_in(rt, given, &mut session, reports),
        Err(met) => Err(explained(rt, given, met)),
    }
}

// Reports the answers of an open warehouse to where the words have them go, and writes the notes on the conditions.
fn answer_in<D: Sectors + InFile>(
    rt: &System,
    given: &ArgMatches<'_>,
    session: &mut Session<D>,
    reports: &Reports,
) -> Result<u8, Refusal> {
    let status = match given.get_str("output") {
        None => print_reports(rt, given, session, reports)?,
        Some(path) => save_reports(rt, given, session, reports, path)?,
    };
    note_unfinished(rt, given, session);
    note_report(rt, given, reports, session.dims());
    if let Some(asked) = reports.query() {
        say_reads(rt, given, asked, session);
    }
    Ok(status)
}

// Prints reports of an open warehouse.
fn print_reports<D: Sectors + InFile>(
    rt: &System,
    given: &ArgMatches<'_>,
    session: &mut Session<D>,
    reports: &Reports,
) -> Result<u8, Refusal> {
    let mut out = output(rt)?;
    let as_of = given.get_one::<u32>("as-of");
    match write_reports(rt.alloc(), session, as_of, reports, &mut out) {
        Ok(()) => Ok(DONE),
        Err(Fault::Output) => cut_short(rt.alloc(), out.failure()),
        Err(fault) => Err(explained(rt, given, met_in(rt.alloc(), fault, session))),
    }
}

// Saves reports of an open warehouse in a file.
fn save_reports<D: Sectors + InFile>(
    rt: &System,
    given: &ArgMatches<'_>,
    session: &mut Session<D>,
    reports: &Reports,
    path: &str,
) -> Result<u8, Refusal> {
    let part = part_of(rt.alloc(), path)?;
    let mut out = begin(rt, given, path, part.as_str())?;
    let as_of = given.get_one::<u32>("as-of");
    let done = write_reports(rt.alloc(), session, as_of, reports, &mut out);
    let failure = out.failure();
    drop(out);
    match done {
        Ok(()) => finish(rt, path, part.as_str()),
        Err(fault) => {
            remove(rt, part.as_str());
            Err(unsaved(rt, given, session, part.as_str(), fault, failure))
        }
    }
}

// The refusal of a report that was not saved.
fn unsaved<D: Sectors + InFile>(
    rt: &System,
    given: &ArgMatches<'_>,
    session: &Session<D>,
    part: &str,
    fault: Fault,
    failure: Option<io::Error>,
) -> Refusal {
    match fault {
        Fault::Output => cut_off(rt.alloc(), part, failure),
        fault => explained(rt, given, met_in(rt.alloc(), fault, session)),
    }
}

/// Opens the warehouse of a command, does a job to it, and gives the status of the program.
pub fn perform_job(
    rt: &System,
    given: &ArgMatches<'_>,
    access: Access,
    job: Job,
) -> Result<u8, Refusal> {
    match device::open(rt, given, access) {
        Ok(mut session) => done_with_notes(rt, given, &mut session, job),
        Err(met) => Err(explained(rt, given, met)),
    }
}

// Does a job to an open warehouse, with a note where an upkeep is not finished.
fn done_with_notes<D: Sectors + InFile>(
    rt: &System,
    given: &ArgMatches<'_>,
    session: &mut Session<D>,
    job: Job,
) -> Result<u8, Refusal> {
    let status = done_in(rt, given, session, job)?;
    note_unfinished(rt, given, session);
    Ok(status)
}

/// Does a job to an open warehouse, and gives the status of the program.
pub fn done_in<D: Sectors + InFile>(
    rt: &System,
    given: &ArgMatches<'_>,
    session: &mut Session<D>,
    job: Job,
) -> Result<u8, Refusal> {
    let mut out = output(rt)?;
    let done = perform(rt.alloc(), session, job, io::empty(), &mut out);
    ended(rt, given, session, done, &out)
}

/// The status of a job that was done, or its refusal. Standard output may have failed; a reader of it that closes early
/// has read what it wants.
pub fn ended<D: Sectors + InFile>(
    rt: &System,
    given: &ArgMatches<'_>,
    session: &Session<D>,
    done: Result<bool, Fault>,
    out: &Output<'_>,
) -> Result<u8, Refusal> {
    match done {
        Ok(_) => Ok(exit_of(&done)),
        Err(Fault::Output) => cut_short(rt.alloc(), out.failure()),
        Err(fault) => Err(explained(rt, given, met_in(rt.alloc(), fault, session))),
    }
}

/// A fault, with how many batches there are, where that is still known, the room where that is lacking, and why the
/// device failed.
pub fn met_in<D: Sectors + InFile>(alloc: Global, fault: Fault, session: &Session<D>) -> Met {
    let batches = match session.status() {
        Ok(status) => Some(status.batches),
        Err(_) => None,
    };
    let room = match fault {
        Fault::Full => Room::of(alloc, session).ok(),
        _ => None,
    };
    Met {
        batches,
        room,
        ..device::met_by(fault, session.device())
    }
}
