//! The command `merge`.
use crate::load::{open_each, several_inputs};
use clap::ArgMatches;
use command_files::exit::DONE;
use command_files::files::{Reads, unread_among};
use command_files::layout::{arrangement_of, bad_order, layout_of};
use command_files::output::{cut_short, output};
use command_files::refusal::Refusal;
use command_files::saving::{begin, cut_off, finish, part_of, remove};
use command_files::system::System;
use command_files::table_paths::count_inputs;
use command_files::unmerged::unmerged_hint;
use cube_model::{Answer, Fault, Items, Query};
use mode_queries::ModeQuery;
use report_formats::{Asked, write_formatted};
use report_merge::{Merge, Unmerged, merge_readers};
use std::alloc::{AllocError, Global};
use std::io::{self, Write};

/// What is written of partial reports.
#[derive(Drop)]
enum Merged {
    /// The report over all rows.
    Whole(Asked, Answer),
    /// A partial report of the parts together.
    Parts(Merge),
}

/// Merges the partial reports in the files of a command, and writes what it asks for.
pub fn merge(rt: &System, given: &ArgMatches<'_>) -> Result<u8, Refusal> {
    let paths = given.get_strs("file").unwrap_or(&[]);
    if count_inputs(paths) > 1 {
        return several_inputs(rt);
    }
    let merged = merged_of(rt, given, paths)?;
    match given.get_str("output") {
        None => print_merged(rt, &merged),
        Some(path) => save_merged(rt, given, &merged, path),
    }
}

// What a command asks for of the partial reports in files.
fn merged_of(rt: &System, given: &ArgMatches<'_>, paths: &[&str]) -> Result<Merged, Refusal> {
    let alloc = rt.alloc();
    let reads = Reads::new(None);
    let merge = match open_each(rt, paths, &reads) {
        Ok(readers) => match merge_readers(alloc, readers) {
            Ok(merge) => merge,
            Err(unmerged) => return Err(refusal_of(alloc, paths, &reads, unmerged)),
        },
        Err(Fault::Input) => return Err(unread_among(alloc, paths, &reads)),
        Err(fault) => return Err(Refusal::from(fault)),
    };
    if given.get_flag("partial") {
        return Ok(Merged::Parts(merge));
    }
    if let Some(number) = merge.first_missing() {
        return Err(bad_parts(format!(in alloc;
            "part {number} of {} is missing",
            merge.head().parts
        )));
    }
    whole_of(alloc, given, merge)
}

// The report over all rows that a command asks for.
fn whole_of(alloc: Global, given: &ArgMatches<'_>, merge: Merge) -> Result<Merged, Refusal> {
    let named = named_as(alloc, merge.query())?;
    let arrangement = match arrangement_of(&named, given) {
        Ok(arrangement) => arrangement,
        Err(_) => {
            let word = given.get_str("order").unwrap_or("");
            return Err(bad_parts(bad_order(alloc, word)));
        }
    };
    let (asked, answer) = merge.finish(alloc, layout_of(given))?;
    Ok(Merged::Whole(asked.with_arrangement(arrangement), answer))
}

// A query whose columns and aggregates have the names of those of another.
fn named_as(alloc: Global, query: &Query) -> Result<ModeQuery, AllocError> {
    let columns = Vec::from_slice(alloc, query.columns.as_slice())?;
    let aggregates = Vec::from_slice(alloc, query.aggregates.as_slice())?;
    let named = Query {
        kind: query.kind,
        columns: Items::from_vec(columns),
        conditions: Items::new(alloc),
        aggregates: Items::from_vec(aggregates),
        order: None,
    };
    Ok(ModeQuery::without_modes(alloc, named))
}

// Hands a writer what is asked for.
fn write_merged<W: Write>(alloc: Global, merged: &Merged, out: &mut W) -> Result<(), Fault> {
    match merged {
        Merged::Whole(asked, answer) => write_formatted(alloc, asked, answer, out),
        Merged::Parts(merge) => merge.write_partial(alloc, out),
    }
}

fn print_merged(rt: &System, merged: &Merged) -> Result<u8, Refusal> {
    let mut out = output(rt)?;
    match write_merged(rt.alloc(), merged, &mut out) {
        Ok(()) => Ok(DONE),
        Err(Fault::Output) => cut_short(rt.alloc(), out.failure()),
        Err(fault) => Err(Refusal::from(fault)),
    }
}

fn save_merged(
    rt: &System,
    given: &ArgMatches<'_>,
    merged: &Merged,
    path: &str,
) -> Result<u8, Refusal> {
    let part = part_of(rt.alloc(), path)?;
    let mut out = begin(rt, given, path, part.as_str())?;
    let done = write_merged(rt.alloc(), merged, &mut out);
    let failure = out.failure();
    drop(out);
    match done {
        Ok(()) => finish(rt, path, part.as_str()),
        Err(fault) => {
            remove(rt, part.as_str());
            Err(unsaved(rt.alloc(), part.as_str(), fault, failure))
        }
    }
}

// The refusal of a report that was not saved.
fn unsaved(alloc: Global, part: &str, fault: Fault, failure: Option<io::Error>) -> Refusal {
    match fault {
        Fault::Output => cut_off(alloc, part, failure),
        fault => Refusal::from(fault),
    }
}

// The refusal of a file that was not merged.
fn refusal_of(alloc: Global, paths: &[&str], reads: &Reads, unmerged: Unmerged) -> Refusal {
    let Unmerged { place, refused } = unmerged;
    match refused.fault() {
        Fault::Input => unread_among(alloc, paths, reads),
        fault => Refusal {
            fault,
            hint: unmerged_hint(alloc, paths, place, refused),
        },
    }
}

// The refusal of parts that are not the whole, or have no such order.
fn bad_parts(hint: Result<String, AllocError>) -> Refusal {
    Refusal {
        fault: Fault::BadQuery,
        hint: hint.ok(),
    }
}
