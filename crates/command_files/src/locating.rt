//! The file of a load that has a line, and the number of the line in it.
use crate::table_paths::{loaded_paths, shown, table_name};
use batch_loader::Table;
use clap::ArgMatches;
use cube_model::{Fault, Place};
use std::alloc::{AllocError, Global};
use std::cell::Cell;

/// A line of a file. Lines count from 1.
#[derive(Drop)]
pub struct LineAt {
    pub path: String,
    pub line: u64,
}

/// Where a line is, by its number among those of all files of a load, and by how many lines were begun in each file. Of
/// one file no lines are counted.
pub fn located(
    alloc: Global,
    given: &ArgMatches<'_>,
    counts: &[Cell<u64>],
    line: u64,
) -> Result<LineAt, AllocError> {
    let paths = loaded_paths(given).unwrap_or(&[]);
    let mut left = line;
    for (place, count) in counts.iter().enumerate() {
        if left <= count.get() {
            let path = match paths.get(place) {
                Some(path) => String::from_str(alloc, shown(path))?,
                None => String::new(alloc),
            };
            return Ok(LineAt { path, line: left });
        }
        left = left.saturating_sub(count.get());
    }
    let path = table_name(alloc, given, Table::Lineorder)?;
    Ok(LineAt { path, line })
}

/// The line that a fault names, if it names one.
pub fn line_of(fault: Fault) -> Option<u64> {
    match fault {
        Fault::FieldCount { line }
        | Fault::BadNumber { line, .. }
        | Fault::FieldTooLong {
            place: Place::Line(line),
            ..
        } => Some(line),
        _ => None,
    }
}

/// The same fault in a line with another number.
pub fn in_line(fault: Fault, line: u64) -> Fault {
    match fault {
        Fault::FieldCount { .. } => Fault::FieldCount { line },
        Fault::BadNumber { field, .. } => Fault::BadNumber { line, field },
        Fault::FieldTooLong { field, .. } => Fault::FieldTooLong {
            place: Place::Line(line),
            field,
        },
        fault => fault,
    }
}
