//! The command `create`.
ghost use Rattle.cube_model.specs.Validity.{HaveShortTexts};

use clap::ArgMatches;
use command_files::exit::{DONE, NO_COMMAND};
use command_files::files::{Reads, first_error, open_again, open_dimensions};
use command_files::output::unwritten;
use command_files::refusal::Refusal;
use command_files::sizes::sectors_in;
use command_files::system::System;
use command_files::table_refusals::{broken_hint, refused_tables, rows_over};
use command_sessions::device;
use command_sessions::explaining::{Met, explained};
use command_sessions::space::{rows_of, sectors_for};
use cube_model::{DimRows, Fault};
use dimensions::Dims;
use file_device::Existing;
use std::alloc::{AllocError, Global};
use std::io::ErrorKind;
use warehouse::Layout;

/// How large a warehouse is to be.
#[derive(Clone, Copy)]
enum Size {
    Sectors(u32),
    /// As many sectors as so many fact rows take, about, and some more.
    Rows(u64),
}

/// Reads the dimension tables, makes the warehouse, and says so.
pub fn create(rt: &System, given: &ArgMatches<'_>) -> Result<u8, Refusal> {
    let Some(size) = size_of(rt, given)? else {
        return unsized_file(rt, given);
    };
    let sectors = make(rt, given, size)?;
    match println!(rt; "created {sectors} sectors") {
        Ok(()) => Ok(DONE),
        Err(error) if error.kind() == ErrorKind::BrokenPipe => Ok(DONE),
        Err(error) => Err(unwritten(rt.alloc(), Some(error))),
    }
}

// The size that the command asks for. Nothing where its word for the sectors is none.
fn size_of(rt: &System, given: &ArgMatches<'_>) -> Result<Option<Size>, Refusal> {
    if let Some(path) = given.get_str("for") {
        return Ok(Some(Size::Rows(rows_in(rt, path)?)));
    }
    match given.get_one::<u64>("rows") {
        Some(rows) => Ok(Some(Size::Rows(rows))),
        None => {
            let word = given.get_str("sectors").unwrap_or("");
            Ok(sectors_in(word).map(Size::Sectors))
        }
    }
}

// How many rows a fact table has, about.
fn rows_in(rt: &System, path: &str) -> Result<u64, Refusal> {
    let alloc = rt.alloc();
    let Some(file) = open_again(rt, path) else {
        return Err(match first_error(rt, path) {
            Some(error) => unread(format!(in alloc; "--for {path}: {error}")),
            None => unread(format!(in alloc; "--for {path}: not a regular file; give --rows N")),
        });
    };
    let length = match file.metadata() {
        Ok(metadata) => metadata.len(),
        Err(_) => 0,
    };
    match rows_of(file, length) {
        Some(rows) => Ok(rows),
        None => Err(unread(format!(in alloc; "--for {path}: a read failed"))),
    }
}

fn unread(hint: Result<String, AllocError>) -> Refusal {
    Refusal {
        fault: Fault::Input,
        hint: hint.ok(),
    }
}

/// Says that the word for the sectors is none.
pub fn unsized_file(rt: &System, given: &ArgMatches<'_>) -> Result<u8, Refusal> {
    let word = given.get_str("sectors").unwrap_or("");
    let said = eprintln!(rt;
        "error: invalid value '{word}' for '--sectors <N>': 64 to 4294967295, or a size such as 512M or 4G\n\nFor more information, try '--help'."
    );
    match said {
        Ok(()) => Ok(NO_COMMAND),
        Err(_) => Err(Refusal::from(Fault::Output)),
    }
}

// Makes a warehouse of a size, and gives how many sectors it has.
fn make(rt: &System, given: &ArgMatches<'_>, size: Size) -> Result<u32, Refusal> {
    let dims = read(rt, given)?;
    let sectors = sectors_of(rt.alloc(), size, &dims)?;
    let path = device::path_of(given);
    match device::create(rt, path, sectors, existing(given), dims, layout_of(given)) {
        Ok(()) => Ok(sectors),
        Err(met) => {
            let sectors = Some(sectors);
            Err(explained(rt, given, Met { sectors, ..met }))
        }
    }
}

// The sectors of a warehouse of a size.
fn sectors_of(alloc: Global, size: Size, dims: &Dims) -> Result<u32, Refusal> {
    let rows = match size {
        Size::Sectors(sectors) => return Ok(sectors),
        Size::Rows(rows) => rows,
    };
    let sectors = sectors_for(dims, rows);
    match u32::try_from(sectors) {
        Ok(sectors) => Ok(sectors),
        Err(_) => Err(Refusal {
            fault: Fault::DeviceSize,
            hint: format!(in alloc;
                "{rows} fact rows take about {sectors} sectors, and a warehouse has at most 4294967295"
            ).ok(),
        }),
    }
}

// The layout that the command asks for, the first where it names none.
fn layout_of(given: &ArgMatches<'_>) -> Layout {
    let number = given.get_one::<u32>("layout").unwrap_or(1);
    Layout::of_number(number).unwrap_or(Layout::First)
}

// What the file may hold before.
fn existing(given: &ArgMatches<'_>) -> Existing {
    if given.get_flag("overwrite") {
        Existing::Any
    } else {
        Existing::Blank
    }
}

// Reads the dimension tables.
fn read(rt: &System, given: &ArgMatches<'_>) -> Result<Dims, Refusal> {
    let alloc = rt.alloc();
    let reads = Reads::new(None);
    match open_dimensions(rt, given, &reads) {
        Ok(files) => dims_of(
            alloc,
            given,
            &rows_over(alloc, given, files, &reads)?,
            &reads,
        ),
        Err(fault) => Err(refused_tables(alloc, given, &reads, fault, Ok(None))),
    }
}

// The dimensions of rows.
fn dims_of(
    alloc: Global,
    given: &ArgMatches<'_>,
    rows: &DimRows,
    reads: &Reads,
) -> Result<Dims, Refusal>
    requires short { HaveShortTexts rows.now }
{
    match Dims::build(alloc, rows) {
        Ok(dims) => Ok(dims),
        Err(fault) => {
            let hint = broken_hint(alloc, given, rows, None, fault);
            Err(refused_tables(alloc, given, reads, fault, hint))
        }
    }
}
