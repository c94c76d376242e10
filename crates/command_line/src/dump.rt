//! The command `dump`.
use batch_loader::Table;
use clap::ArgMatches;
use command_files::exit::DONE;
use command_files::output::{cut_short, output};
use command_files::refusal::Refusal;
use command_files::system::System;
use command_files::table_files::{TableLines, save_tables};
use command_sessions::device::{self, Access, InFile};
use command_sessions::explaining::explained;
use command_sessions::job::met_in;
use cube_model::{Axis, Fault};
use sector_device::Sectors;
use ssb_reports::flush;
use std::alloc::Global;
use std::io::Write;
use table_texts::write_dimension;
use warehouse::Session;
use warehouse_jobs::{write_batch, write_batches};

/// Prints the fact rows of the warehouse of a command as lines of their table, or writes all five tables into a folder.
pub fn dump(rt: &System, given: &ArgMatches<'_>) -> Result<u8, Refusal> {
    match device::open(rt, given, Access::Read) {
        Ok(mut session) => match given.get_str("tables") {
            None => print_facts(rt, given, &mut session),
            Some(folder) => dump_tables(rt, given, &mut session, folder),
        },
        Err(met) => Err(explained(rt, given, met)),
    }
}

// Prints the fact rows of an open warehouse.
fn print_facts<D: Sectors + InFile>(
    rt: &System,
    given: &ArgMatches<'_>,
    session: &mut Session<D>,
) -> Result<u8, Refusal> {
    let mut out = output(rt)?;
    let batch = given.get_one::<u32>("batch");
    match write_facts(rt.alloc(), session, batch, &mut out) {
        Ok(()) => Ok(DONE),
        Err(Fault::Output) => cut_short(rt.alloc(), out.failure()),
        Err(fault) => Err(undumped(rt, given, session, fault)),
    }
}

// The refusal of rows that are not written.
fn undumped<D: Sectors + InFile>(
    rt: &System,
    given: &ArgMatches<'_>,
    session: &Session<D>,
    fault: Fault,
) -> Refusal {
    if fault != Fault::BadLayout {
        return explained(rt, given, met_in(rt.alloc(), fault, session));
    }
    Refusal {
        fault,
        hint: format!(in rt.alloc();
            "a row has a text with a bar, a line feed or a carriage return at its end, which no line can spell"
        ).ok(),
    }
}

// Writes the tables of an open warehouse into a folder.
fn dump_tables<D: Sectors>(
    rt: &System,
    given: &ArgMatches<'_>,
    session: &mut Session<D>,
    folder: &str,
) -> Result<u8, Refusal> {
    let mut lines = Dumped {
        alloc: rt.alloc(),
        session,
        batch: given.get_one::<u32>("batch"),
    };
    save_tables(rt, given, folder, &Table::ALL, &mut lines)
}

// The tables of a warehouse, with the fact rows of one batch or of all.
#[derive(Drop)]
struct Dumped<'s, D: Sectors> {
    alloc: Global,
    session: &'s mut Session<D>,
    batch: Option<u32>,
}

impl<'s, D: Sectors> TableLines for Dumped<'s, D> {
    fn write<W: Write>(&mut self, table: Table, out: &mut W) -> Result<(), Fault> {
        match table {
            Table::Customer => write_dimension(self.session.dims(), Axis::Customer, out),
            Table::Supplier => write_dimension(self.session.dims(), Axis::Supplier, out),
            Table::Part => write_dimension(self.session.dims(), Axis::Part, out),
            Table::Date => write_dimension(self.session.dims(), Axis::Date, out),
            Table::Lineorder => write_facts(self.alloc, self.session, self.batch, out),
        }
    }
}

// Writes the fact rows of one batch or of all, and flushes them.
fn write_facts<D: Sectors, W: Write>(
    alloc: Global,
    session: &mut Session<D>,
    batch: Option<u32>,
    out: &mut W,
) -> Result<(), Fault> {
    match batch {
        Some(number) => write_batch(alloc, session, number, out)?,
        None => write_batches(alloc, session, out)?,
    }
    flush(out)
}
