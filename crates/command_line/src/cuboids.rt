//! The commands `choose` and `upkeep`.
use crate::demand::demanded;
use clap::ArgMatches;
use command_files::exit::NO_COMMAND;
use command_files::output::output;
use command_files::records::{format_of, view_cells};
use command_files::refusal::Refusal;
use command_files::screens::Screens;
use command_files::system::System;
use command_files::texts::print_text;
use command_sessions::course::{Cleared, Errand, Watch, begin_errand, course_of, take_back};
use command_sessions::device::{self, Access, InFile};
use command_sessions::explaining::explained;
use command_sessions::job::{ended, met_in, perform_job};
use command_sessions::unfinished::note_unfinished;
use cube_model::Fault;
use lattice::View;
use report_formats::{Cell, Format, Records};
use sector_device::Sectors;
use std::alloc::{AllocError, Global};
use std::io;
use warehouse::{Chosen, MOST_CUBOIDS, Session};
use warehouse_jobs::{Job, perform};

/// The fields of a record of a choice.
const FIELDS: [&str; 7] = [
    "view", "customer", "supplier", "part", "date", "shipmode", "benefit",
];

/// Chooses the cuboids of a warehouse, for the queries of a file if one is named, and prints them.
pub fn choose(rt: &System, given: &ArgMatches<'_>) -> Result<u8, Refusal> {
    let Some(views) = given.get_one::<u8>("views") else {
        return Ok(NO_COMMAND);
    };
    let demanded = match given.get_str("for") {
        None => None,
        Some(path) => Some(demanded(rt, path)?),
    };
    let done = match format_of(given) {
        None => perform_job(rt, given, Access::Commit, job_of(views, demanded)),
        Some(format) => choose_as(rt, given, format, views, demanded),
    };
    match done {
        Ok(status) => Ok(status),
        Err(refusal) => Err(with_limit(rt.alloc(), refusal, views)),
    }
}

// A choice of so many views, for some that are asked for or for all.
fn job_of(k: u8, demanded: Option<Vec<View>>) -> Job {
    match demanded {
        None => Job::Choose(k),
        Some(demanded) => Job::ChooseFor { k, demanded },
    }
}

// Chooses the cuboids of the warehouse of a command, and prints them as records.
fn choose_as(
    rt: &System,
    given: &ArgMatches<'_>,
    format: Format,
    k: u8,
    demanded: Option<Vec<View>>,
) -> Result<u8, Refusal> {
    match device::open(rt, given, Access::Commit) {
        Ok(mut session) => choose_in(rt, given, &mut session, format, k, demanded),
        Err(met) => Err(explained(rt, given, met)),
    }
}

// Chooses the cuboids of an open warehouse, and prints them as records. The room for these is taken after the choice,
// which stays.
fn choose_in<D: Sectors + InFile>(
    rt: &System,
    given: &ArgMatches<'_>,
    session: &mut Session<D>,
    format: Format,
    k: u8,
    demanded: Option<Vec<View>>,
) -> Result<u8, Refusal> {
    let chosen = match demanded {
        None => session.choose(rt.alloc(), k),
        Some(demanded) => session.choose_for(rt.alloc(), k, demanded.as_slice()),
    };
    match chosen {
        Ok(chosen) => {
            let records = choice_records(rt.alloc(), format, chosen.as_slice())?;
            let status = print_text(rt, records.text())?;
            note_unfinished(rt, given, session);
            Ok(status)
        }
        Err(fault) => Err(explained(rt, given, met_in(rt.alloc(), fault, session))),
    }
}

// The views of a choice, in its order.
fn choice_records(alloc: Global, format: Format, chosen: &[Chosen]) -> Result<Records, AllocError> {
    let mut records = Records::new(alloc, format, &FIELDS)?;
    for one in chosen {
        let [view, customer, supplier, part, date, mode] = view_cells(one.view);
        let benefit = Cell::Number(one.benefit);
        records.push(
            alloc,
            &[view, customer, supplier, part, date, mode, benefit],
        )?;
    }
    Ok(records)
}

// A refusal of a choice of so many views. Where they are too many, it says how many there can be.
fn with_limit(alloc: Global, refusal: Refusal, views: u8) -> Refusal {
    if refusal.fault != Fault::BadQuery {
        return refusal;
    }
    Refusal {
        fault: Fault::BadQuery,
        hint: format!(in alloc; "{views}: at most {MOST_CUBOIDS} views are stored").ok(),
    }
}

/// Brings the stored cuboids of the warehouse of a command to all batches. It says on a terminal how far it is.
pub fn upkeep(rt: &System, given: &ArgMatches<'_>, screens: Screens) -> Result<u8, Refusal> {
    let course = course_of(rt, given, screens);
    match device::open_watched(rt, given, Access::Commit, course.as_ref()) {
        Ok(mut session) => keep_up(rt, given, &mut session, course.as_ref()),
        Err(met) => Err(explained(rt, given, met)),
    }
}

// Brings the stored cuboids of an open warehouse to all batches, with a note where an upkeep is not finished.
fn keep_up<D: Sectors + InFile>(
    rt: &System,
    given: &ArgMatches<'_>,
    session: &mut Session<D>,
    watch: Watch<'_>,
) -> Result<u8, Refusal> {
    let mut out = Cleared::new(rt, watch, output(rt)?);
    begin_errand(rt, watch, session, Errand::Upkeep);
    let done = perform(rt.alloc(), session, Job::Upkeep, io::empty(), &mut out);
    take_back(rt, watch);
    let status = ended(rt, given, session, done, out.writer())?;
    note_unfinished(rt, given, session);
    Ok(status)
}
