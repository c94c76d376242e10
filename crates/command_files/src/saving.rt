//! The file that a report is saved in.
//!
//! A report is written to a file of its name with `.part` after it, which is renamed once the report is whole and on
//! the disk: under the name itself no other program ever finds a part of a report.
use crate::exit::DONE;
use crate::refusal::Refusal;
use crate::system::System;
use crate::watched::Watched;
use clap::ArgMatches;
use cube_model::Fault;
use std::alloc::{AllocError, Global};
use std::fs::{self, File, OpenOptions};
use std::io::{self, BufWriter, ErrorKind};

/// A file that a report is written to, with why a write to it failed.
pub type Saved<F> = Watched<BufWriter<F>>;

/// The name of the file that a report is written to until it is whole.
pub fn part_of(alloc: Global, path: &str) -> Result<String, AllocError> {
    format!(in alloc; "{path}.part")
}

/// Makes the file that a report is written to, unless it or the file that it becomes is there. With `--overwrite` the
/// latter may be.
pub fn begin(
    rt: &System,
    given: &ArgMatches<'_>,
    path: &str,
    part: &str,
) -> Result<Saved<File>, Refusal> {
    if let Some(hint) = in_the_way(rt, given, path) {
        return Err(unsaved(format!(in rt.alloc(); "{path}: {hint}")));
    }
    let mut how = OpenOptions::new();
    how.write(true).create_new(true);
    match how.open(rt, part) {
        Ok(file) => buffered(rt, part, file),
        Err(error) if error.kind() == ErrorKind::AlreadyExists => {
            Err(unsaved(format!(in rt.alloc();
                "{part}: is there already: a report is being written to it, or one that was cut off left it; remove it"
            )))
        }
        Err(error) => Err(unsaved(format!(in rt.alloc(); "{part}: {error}"))),
    }
}

// Why a report cannot get the name of a file, where it cannot.
fn in_the_way(rt: &System, given: &ArgMatches<'_>, path: &str) -> Option<&'static str> {
    match fs::symlink_metadata(rt, path) {
        Err(_) => None,
        Ok(_) if !given.get_flag("overwrite") => {
            Some("is there already; --overwrite replaces it")
        }
        Ok(found) if !found.is_file() => Some("not a regular file"),
        Ok(_) => None,
    }
}

// A file with a buffer. It is removed where there is no memory for that.
fn buffered(rt: &System, part: &str, file: File) -> Result<Saved<File>, Refusal> {
    match BufWriter::new(rt.alloc(), file) {
        Ok(out) => Ok(Watched::new(out)),
        Err(_) => {
            remove(rt, part);
            Err(Refusal::from(Fault::Memory))
        }
    }
}

/// Gives a report that is whole its name, once it is on the disk, and gives the status of the program.
pub fn finish(rt: &System, path: &str, part: &str) -> Result<u8, Refusal> {
    match named(rt, path, part) {
        Ok(()) => Ok(DONE),
        Err(error) => {
            remove(rt, part);
            Err(unsaved(format!(in rt.alloc(); "{path}: {error}")))
        }
    }
}

fn named(rt: &System, path: &str, part: &str) -> io::Result<()> {
    fs::open(rt, part)?.sync_all()?;
    fs::rename(rt, part, path)
}

/// Removes what was written of a report that is not whole.
pub fn remove(rt: &System, part: &str) {
    let _removed = fs::remove_file(rt, part);
}

/// The refusal of a write to a file, with what the system said.
pub fn cut_off(alloc: Global, part: &str, failure: Option<io::Error>) -> Refusal {
    match failure {
        Some(error) => unsaved(format!(in alloc; "{part}: {error}")),
        None => Refusal::from(Fault::Output),
    }
}

/// The refusal of a file that is not written, with why.
pub fn unsaved(hint: Result<String, AllocError>) -> Refusal {
    Refusal {
        fault: Fault::Output,
        hint: hint.ok(),
    }
}
