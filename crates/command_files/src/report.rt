//! The command `report`.
use crate::query::benchmark_word;
use crate::refusal::Refusal;
use clap::ArgMatches;
use ssb_reports::QNumber;
use std::alloc::Global;

/// What is said where the file and the query of a report were given in the other order.
pub fn swapped(alloc: Global, given: &ArgMatches<'_>) -> Option<String> {
    let device = given.get_str("device")?;
    let query = benchmark_word(given)?;
    if !QNumber::ALL.iter().any(|number| number.name() == device) {
        return None;
    }
    format!(in alloc;
        "{query}: no query of the benchmark, and {device} is one: are DEV and Q swapped?"
    ).ok()
}

/// The refusal of words that spell no query.
pub fn unasked(alloc: Global, given: &ArgMatches<'_>, refusal: Refusal) -> Refusal {
    match swapped(alloc, given) {
        Some(hint) => Refusal {
            hint: Some(hint),
            ..refusal
        },
        None => refusal,
    }
}
