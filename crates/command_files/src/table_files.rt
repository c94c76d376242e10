//! The files of tables that a command writes into a folder.
use crate::exit::DONE;
use crate::output::{is_closed, unwritten};
use crate::refusal::Refusal;
use crate::saving::{cut_off, unsaved};
use crate::system::System;
use crate::table_paths::path_in;
use crate::watched::Watched;
use batch_loader::Table;
use clap::ArgMatches;
use cube_model::Fault;
use std::fs;
use std::fs::File;
use std::io::{BufWriter, Write};

/// What writes the lines of tables.
pub trait TableLines {
    /// Writes the lines of a table. `Output` where the writer fails.
    fn write<W: Write>(&mut self, table: Table, out: &mut W) -> Result<(), Fault>;
}

/// Writes the files of some tables into a folder, and says so of each. Where one of them is there already none is
/// written, unless `--overwrite` is given.
pub fn save_tables<T: TableLines>(
    rt: &System,
    given: &ArgMatches<'_>,
    folder: &str,
    tables: &[Table],
    lines: &mut T,
) -> Result<u8, Refusal> {
    if !given.get_flag("overwrite") {
        keep_files(rt, folder, tables)?;
    }
    for table in tables {
        save_table(rt, folder, *table, lines)?;
    }
    Ok(DONE)
}

// Refuses to replace a file.
fn keep_files(rt: &System, folder: &str, tables: &[Table]) -> Result<(), Refusal> {
    for table in tables {
        let path = path_in(rt.alloc(), folder, *table)?;
        if fs::metadata(rt, path.as_str()).is_ok() {
            return Err(unsaved(format!(in rt.alloc();
                "{path}: is there already; --overwrite replaces it"
            )));
        }
    }
    Ok(())
}

// Writes the file of a table, and says so.
fn save_table<T: TableLines>(
    rt: &System,
    folder: &str,
    table: Table,
    lines: &mut T,
) -> Result<(), Refusal> {
    let path = path_in(rt.alloc(), folder, table)?;
    let file = match fs::create(rt, path.as_str()) {
        Ok(file) => file,
        Err(error) => return Err(unsaved(format!(in rt.alloc(); "{path}: {error}"))),
    };
    write_file(rt, path.as_str(), file, table, lines)?;
    match println!(rt; "{path}") {
        Ok(()) => Ok(()),
        Err(error) if is_closed(Some(error)) => Ok(()),
        Err(error) => Err(unwritten(rt.alloc(), Some(error))),
    }
}

// Writes the lines of a table to its file.
fn write_file<T: TableLines>(
    rt: &System,
    path: &str,
    file: File,
    table: Table,
    lines: &mut T,
) -> Result<(), Refusal> {
    let Ok(out) = BufWriter::new(rt.alloc(), file) else {
        return Err(Refusal::from(Fault::Memory));
    };
    let mut out = Watched::new(out);
    let written = lines.write(table, &mut out);
    let flushed = out.flush();
    match (written, flushed) {
        (Ok(()), Ok(())) => Ok(()),
        (Ok(()), Err(error)) => Err(unsaved(format!(in rt.alloc(); "{path}: {error}"))),
        (Err(Fault::Output), _) => Err(cut_off(rt.alloc(), path, out.failure())),
        (Err(fault), _) => Err(Refusal::from(fault)),
    }
}
