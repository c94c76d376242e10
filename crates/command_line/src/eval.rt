//! The command `eval`.
use batch_loader::Table;
use clap::ArgMatches;
use command_files::exit::DONE;
use command_files::files::{DimensionFiles, GivenFile, Reads, open, open_dimensions};
use command_files::output::{cut_short, output};
use command_files::progress::{Progress, Tally, Wanted};
use command_files::refusal::Refusal;
use command_files::saving::{begin, cut_off, finish, part_of, remove};
use command_files::screens::Screens;
use command_files::system::System;
use command_files::table_refusals::{Star, refused_tables, star_hint};
use command_files::timing::{say_read, say_seconds};
use command_sessions::notes::note_report;
use command_sessions::reports::{Reports, report_of};
use cube_model::Fault;
use dimensions::Dims;
use ssb_eval::{Tables, eval_formatted, eval_partial};
use std::alloc::Global;
use std::cell::Cell;
use std::fs::{File, OpenFile};
use std::io::{self, Read};

/// Reads the query's words, opens the files in the order of the command, and writes the report.
pub fn eval(rt: &System, given: &ArgMatches<'_>, screens: Screens) -> Result<u8, Refusal> {
    let reads = Reads::new(None);
    match opened(rt, given, &reads) {
        Ok((asked, dimensions, lineorder)) => {
            let tally = Cell::new(tally_of(rt, given, lineorder.file(), screens));
            let lineorder = Progress::new(rt, lineorder, &tally);
            let tables = tables_over(rt.alloc(), dimensions, lineorder)?;
            let status = answer(rt, given, &asked, tables, &reads)?;
            let tally = tally.get();
            say_seconds(rt, given, &tally);
            say_read(rt, given, tally.rows(), tally.bytes());
            Ok(status)
        }
        Err(refusal) => Err(refusal),
    }
}

// The tables that files give.
fn tables_over<F: Read + Drop, L: Read + Drop>(
    alloc: Global,
    dimensions: DimensionFiles<F>,
    lineorder: L,
) -> Result<Star<F, L>, Fault> {
    let DimensionFiles {
        customer,
        supplier,
        part,
        date,
    } = dimensions;
    Tables::new(alloc, customer, supplier, part, date, lineorder)
}

// What counts the rows of a file of which nothing was read yet.
fn tally_of<F: OpenFile>(
    rt: &System,
    given: &ArgMatches<'_>,
    lineorder: &F,
    screens: Screens,
) -> Tally {
    let length = match lineorder.metadata() {
        Ok(metadata) => metadata.len(),
        Err(_) => 0,
    };
    let wanted = Wanted {
        progress: screens.errors && !given.get_flag("quiet"),
        rows: given.get_flag("timing"),
    };
    Tally::new(rt, length, wanted)
}

// Writes a report over its tables to where the words have it go, and the notes on its conditions. It gives the status
// of the program.
fn answer<F: Read + Drop, L: Read + Drop>(
    rt: &System,
    given: &ArgMatches<'_>,
    asked: &Reports,
    tables: Star<F, L>,
    reads: &Reads,
) -> Result<u8, Refusal> {
    match given.get_str("output") {
        None => print_report(rt, given, asked, tables, reads),
        Some(path) => save_report(rt, given, asked, tables, reads, path),
    }
}

// Prints a report. A line that says how far it is goes with the tables, before a note comes.
fn print_report<F: Read + Drop, L: Read + Drop>(
    rt: &System,
    given: &ArgMatches<'_>,
    asked: &Reports,
    tables: Star<F, L>,
    reads: &Reads,
) -> Result<u8, Refusal> {
    let mut out = output(rt)?;
    let mut tables = tables;
    match report(rt.alloc(), asked, &mut tables, &mut out) {
        Ok(dims) => {
            drop(tables);
            note_report(rt, given, asked, &dims);
            Ok(DONE)
        }
        Err(Fault::Output) => cut_short(rt.alloc(), out.failure()),
        Err(fault) => Err(refused(rt.alloc(), given, &tables, reads, fault)),
    }
}

// Saves a report in a file.
fn save_report<F: Read + Drop, L: Read + Drop>(
    rt: &System,
    given: &ArgMatches<'_>,
    asked: &Reports,
    tables: Star<F, L>,
    reads: &Reads,
    path: &str,
) -> Result<u8, Refusal> {
    let part = part_of(rt.alloc(), path)?;
    let mut out = begin(rt, given, path, part.as_str())?;
    let mut tables = tables;
    let done = report(rt.alloc(), asked, &mut tables, &mut out);
    let failure = out.failure();
    drop(out);
    match done {
        Ok(dims) => {
            drop(tables);
            let status = finish(rt, path, part.as_str())?;
            note_report(rt, given, asked, &dims);
            Ok(status)
        }
        Err(fault) => {
            remove(rt, part.as_str());
            Err(match fault {
                Fault::Output => cut_off(rt.alloc(), part.as_str(), failure),
                fault => refused(rt.alloc(), given, &tables, reads, fault),
            })
        }
    }
}

// The refusal of a report over tables.
fn refused<F: Read + Drop, L: Read + Drop>(
    alloc: Global,
    given: &ArgMatches<'_>,
    tables: &Star<F, L>,
    reads: &Reads,
    fault: Fault,
) -> Refusal {
    let hint = star_hint(alloc, given, tables, fault);
    refused_tables(alloc, given, reads, fault, hint)
}

// The report that is asked for, and the files of its tables.
fn opened<'k>(
    rt: &System,
    given: &ArgMatches<'_>,
    reads: &'k Reads,
) -> Result<
    (
        Reports,
        DimensionFiles<GivenFile<'k, File>>,
        GivenFile<'k, File>,
    ),
    Refusal,
> {
    let asked = report_of(rt.alloc(), given)?;
    match tables_of(rt, given, reads) {
        Ok((dimensions, lineorder)) => Ok((asked, dimensions, lineorder)),
        Err(fault) => Err(refused_tables(rt.alloc(), given, reads, fault, Ok(None))),
    }
}

// The files of the tables, in the order of the command.
fn tables_of<'k>(
    rt: &System,
    given: &ArgMatches<'_>,
    reads: &'k Reads,
) -> Result<(DimensionFiles<GivenFile<'k, File>>, GivenFile<'k, File>), Fault> {
    let dimensions = open_dimensions(rt, given, reads)?;
    let lineorder = open(rt, given, Table::Lineorder, reads)?;
    Ok((dimensions, lineorder))
}

// Writes the report, and gives the dimensions.
fn report<F: Read + Drop, L: Read + Drop, W: io::Write>(
    alloc: Global,
    asked: &Reports,
    tables: &mut Star<F, L>,
    out: &mut W,
) -> Result<Dims, Fault> {
    match asked {
        Reports::One(asked) => eval_formatted(alloc, tables, asked, out),
        Reports::Part(asked) => eval_partial(alloc, tables, asked, out),
        Reports::Several(_) => Err(Fault::BadQuery),
    }
}
