//! Notes on conditions that select nothing.
use crate::reports::Reports;
use clap::ArgMatches;
use command_files::query::benchmark_word;
use command_files::system::System;
use dimensions::Dims;
use mode_queries::{ModeCond, QueryRef, SHIP_MODE};
use query_words::{End, Note, write_notes};

/// Says on standard error what no row of the dimensions can meet of the conditions of the query of a command, and which
/// of its ranges of ship modes are empty. It is called once the report is written; standard output and the status stay
/// as they are, also where standard error takes nothing.
///
/// Of a query of the benchmark nothing is said: its conditions are not the user's.
pub fn note_conditions(rt: &System, given: &ArgMatches<'_>, asked: QueryRef<'_>, dims: &Dims) {
    if benchmark_word(given).is_some() {
        return;
    }
    let _said = write_notes(rt, dims, asked.query());
    for condition in asked.conditions() {
        note_modes(rt, condition);
    }
}

/// The same of the one report that a command asks for. Of several reports nothing is said.
pub fn note_report(rt: &System, given: &ArgMatches<'_>, reports: &Reports, dims: &Dims) {
    if let Some(asked) = reports.query() {
        note_conditions(rt, given, asked, dims);
    }
}

// Says it of a condition on ship modes, which are no members of the dimensions: only a range may be empty.
fn note_modes(rt: &System, condition: &ModeCond) {
    let ModeCond::Between(low, high) = condition else {
        return;
    };
    let (low, high) = (low.as_slice(), high.as_slice());
    if low > high {
        let note = Note::EmptyRange {
            name: SHIP_MODE,
            low: End::Text(low),
            high: End::Text(high),
        };
        let _said = eprintln!(rt; "note: {note}");
    }
}
