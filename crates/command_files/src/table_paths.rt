//! The names of the files of the tables.
use batch_loader::Table;
use clap::ArgMatches;
use std::alloc::{AllocError, Global};

// What names standard input in place of a file.
const STANDARD_INPUT: &str = "-";

/// The file of a table: the one that its option names, or else the one in the folder of `--tables`. Nothing where
/// neither is given.
pub fn table_path(
    alloc: Global,
    given: &ArgMatches<'_>,
    table: Table,
) -> Result<Option<String>, AllocError> {
    match (given.get_str(table.name()), given.get_str("tables")) {
        (Some(path), _) => Ok(Some(String::from_str(alloc, path)?)),
        (None, Some(folder)) => Ok(Some(path_in(alloc, folder, table)?)),
        (None, None) => Ok(None),
    }
}

/// The file of a table in a folder.
pub fn path_in(alloc: Global, folder: &str, table: Table) -> Result<String, AllocError> {
    format!(in alloc; "{folder}/{}.tbl", table.name())
}

/// The files of a load in their order. Nothing where the command is none.
pub fn loaded_paths<'g, 'w>(given: &'g ArgMatches<'w>) -> Option<&'g [&'w str]> {
    if given.get_str("device").is_some() {
        given.get_strs("lineorder")
    } else {
        None
    }
}

/// How often standard input is among some files.
pub fn count_inputs(paths: &[&str]) -> usize {
    paths.iter().filter(|path| is_standard_input(path)).count()
}

/// Whether a word names standard input.
pub fn is_standard_input(path: &str) -> bool {
    path == STANDARD_INPUT
}

/// What a file of a load is called.
pub fn shown(path: &str) -> &str {
    if is_standard_input(path) {
        "standard input"
    } else {
        path
    }
}

/// What a table is called: its file, or the first of several and how many more there are.
pub fn table_name(
    alloc: Global,
    given: &ArgMatches<'_>,
    table: Table,
) -> Result<String, AllocError> {
    if table == Table::Lineorder {
        match loaded_paths(given).unwrap_or(&[]) {
            [] => {}
            [path] => return String::from_str(alloc, shown(path)),
            [path, rest @ ..] => {
                return format!(in alloc; "{} and {} more", shown(path), rest.len());
            }
        }
    }
    match table_path(alloc, given, table)? {
        Some(path) => Ok(path),
        None => Ok(String::new(alloc)),
    }
}
