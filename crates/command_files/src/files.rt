//! The files that the words of a command name.
use crate::refusal::Refusal;
use crate::system::System;
use crate::table_paths::{shown, table_path};
use batch_loader::Table;
use clap::ArgMatches;
use cube_model::Fault;
use std::alloc::Global;
use std::cell::Cell;
use std::fs;
use std::fs::File;
use std::io::{self, Read};

/// The files of the dimensions.
#[derive(Drop)]
pub struct DimensionFiles<F> {
    pub customer: F,
    pub supplier: F,
    pub part: F,
    pub date: F,
}

/// A file that could not be opened or read: its place among those of the command, and what the system said.
#[derive(Clone, Copy)]
pub struct UnreadFile {
    pub place: usize,
    pub error: io::Error,
}

/// What a command keeps of the last file that could not be opened or read. Its files share it.
pub type Reads = Cell<Option<UnreadFile>>;

/// A file of a command.
#[derive(Drop)]
pub struct GivenFile<'k, F> {
    file: F,
    place: usize,
    reads: &'k Reads,
}

impl<'k, F> GivenFile<'k, F> {
    /// The file at a place among those of a command.
    pub fn new(file: F, place: usize, reads: &'k Reads) -> GivenFile<'k, F> {
        GivenFile { file, place, reads }
    }

    /// The file itself.
    pub fn file(&self) -> &F {
        &self.file
    }
}

impl<F: Read> Read for GivenFile<'_, F> {
    ghost remaining = { λ given. F.remaining given.file };

    fn read(&mut self, buf: &mut [u8]) -> io::Result<usize> {
        let done = self.file.read(buf);
        if let Err(error) = &done {
            keep_error(self.reads, self.place, *error);
        }
        done
    }
}

fn keep_error(reads: &Reads, place: usize, error: io::Error) {
    reads.set(Some(UnreadFile { place, error }));
}

/// Opens the files of the dimensions, in the order of the command.
pub fn open_dimensions<'k>(
    rt: &System,
    given: &ArgMatches<'_>,
    reads: &'k Reads,
) -> Result<DimensionFiles<GivenFile<'k, File>>, Fault> {
    Ok(DimensionFiles {
        customer: open(rt, given, Table::Customer, reads)?,
        supplier: open(rt, given, Table::Supplier, reads)?,
        part: open(rt, given, Table::Part, reads)?,
        date: open(rt, given, Table::Date, reads)?,
    })
}

/// Opens the files of the dimensions that the command names, in its order.
pub fn open_named<'k>(
    rt: &System,
    given: &ArgMatches<'_>,
    reads: &'k Reads,
) -> Result<DimensionFiles<NamedFile<GivenFile<'k, File>>>, Fault> {
    Ok(DimensionFiles {
        customer: named(rt, given, Table::Customer, reads)?,
        supplier: named(rt, given, Table::Supplier, reads)?,
        part: named(rt, given, Table::Part, reads)?,
        date: named(rt, given, Table::Date, reads)?,
    })
}

/// The file of a word that a command may leave out. Where it does, there is nothing to read.
#[derive(Drop)]
pub struct NamedFile<F> {
    file: Option<F>,
}

impl<F: Read> Read for NamedFile<F> {
    fn read(&mut self, buf: &mut [u8]) -> io::Result<usize> {
        match &mut self.file {
            Some(file) => file.read(buf),
            None => Ok(0),
        }
    }
}

// Opens the file of a table, where the command names one.
fn named<'k>(
    rt: &System,
    given: &ArgMatches<'_>,
    table: Table,
    reads: &'k Reads,
) -> Result<NamedFile<GivenFile<'k, File>>, Fault> {
    let file = match given.get_str(table.name()) {
        Some(path) => Some(open_table(rt, path, table, reads)?),
        None => None,
    };
    Ok(NamedFile { file })
}

/// Opens the file of a table.
pub fn open<'k>(
    rt: &System,
    given: &ArgMatches<'_>,
    table: Table,
    reads: &'k Reads,
) -> Result<GivenFile<'k, File>, Fault> {
    match table_path(rt.alloc(), given, table)? {
        Some(path) => open_table(rt, path.as_str(), table, reads),
        None => Err(Fault::Input),
    }
}

// The place of a table's file is that of the table in the order in which they are read.
fn open_table<'k>(
    rt: &System,
    path: &str,
    table: Table,
    reads: &'k Reads,
) -> Result<GivenFile<'k, File>, Fault> {
    let place = table as usize;
    let file = open_file(rt, path, place, reads)?;
    Ok(GivenFile::new(file, place, reads))
}

/// Opens a file, which has a place among those of a command.
pub fn open_file(rt: &System, path: &str, place: usize, reads: &Reads) -> Result<File, Fault> {
    match fs::open(rt, path) {
        Ok(file) => Ok(file),
        Err(error) => {
            keep_error(reads, place, error);
            Err(Fault::Input)
        }
    }
}

// The refusal of a file that could not be opened or read, with what the system said of it.
fn unread(alloc: Global, path: &str, error: io::Error) -> Refusal {
    Refusal {
        fault: Fault::Input,
        hint: format!(in alloc; "{path}: {error}").ok(),
    }
}

/// The refusal of tables of a command of which one could not be opened or read, with what the system said of it.
pub fn unread_table(alloc: Global, given: &ArgMatches<'_>, reads: &Reads) -> Refusal {
    let Some(UnreadFile { place, error }) = reads.get() else {
        return Refusal::from(Fault::Input);
    };
    match path_at(alloc, given, place) {
        Some(path) => unread(alloc, path.as_str(), error),
        None => Refusal::from(Fault::Input),
    }
}

// The file of the table at a place.
fn path_at(alloc: Global, given: &ArgMatches<'_>, place: usize) -> Option<String> {
    let table = *Table::ALL.get(place)?;
    table_path(alloc, given, table).ok()?
}

/// The same of files whose names are given. One of them may be standard input.
pub fn unread_among(alloc: Global, paths: &[&str], reads: &Reads) -> Refusal {
    let Some(UnreadFile { place, error }) = reads.get() else {
        return Refusal::from(Fault::Input);
    };
    match paths.get(place) {
        Some(path) => unread(alloc, shown(path), error),
        None => Refusal::from(Fault::Input),
    }
}

/// Opens a file once more. Only a regular file is the same when it is read again, and another, such as a pipe, is not
/// even opened: that might wait for a program that writes it.
pub fn open_again(rt: &System, path: &str) -> Option<File> {
    if fs::metadata(rt, path).ok()?.is_file() {
        fs::open(rt, path).ok()
    } else {
        None
    }
}

/// Why a file cannot be opened, or its first byte not be read. What is neither a file nor a folder is not opened.
pub fn first_error(rt: &System, path: &str) -> Option<io::Error> {
    let kind = match fs::metadata(rt, path) {
        Ok(metadata) => metadata,
        Err(error) => return Some(error),
    };
    if !kind.is_file() && !kind.is_dir() {
        return None;
    }
    let mut file = match fs::open(rt, path) {
        Ok(file) => file,
        Err(error) => return Some(error),
    };
    let mut byte = [0u8; 1];
    file.read(&mut byte).err()
}

/// The bytes of some files together, if each is a regular file.
pub fn byte_count(rt: &System, paths: &[&str]) -> Option<u64> {
    let mut bytes = 0u64;
    for path in paths {
        match fs::metadata(rt, path) {
            Ok(metadata) if metadata.is_file() => bytes = bytes.saturating_add(metadata.len()),
            _ => return None,
        }
    }
    Some(bytes)
}
