//! How the report of a command is written.
use crate::query::query_of;
use crate::refusal::{Refusal, bad_query};
use clap::ArgMatches;
use cube_model::Fault;
use mode_queries::ModeQuery;
use report_formats::{Arrangement, Asked, Format, Layout, Sorting, sort_key};
use std::alloc::{AllocError, Global};

/// The report that the words of a command ask for.
pub fn asked_of(alloc: Global, given: &ArgMatches<'_>) -> Result<Asked, Refusal> {
    let query = query_of(alloc, given)?;
    let Ok(arrangement) = arrangement_of(&query, given) else {
        let word = given.get_str("order").unwrap_or("");
        return Err(bad_query(bad_order(alloc, word)));
    };
    Ok(Asked::new(alloc, layout_of(given), query)?.with_arrangement(arrangement))
}

/// How the words of a command have a report written: with bars, where they do not say.
pub fn layout_of(given: &ArgMatches<'_>) -> Layout {
    let format = match given.get_str("format") {
        Some(name) => Format::named(name),
        None => None,
    };
    Layout {
        format: format.unwrap_or(Format::Bars),
        decimals: given.get_one::<u32>("decimals"),
    }
}

/// The order and the number of the lines that the words of a command ask for. `BadQuery` where the query has no such
/// column or aggregate.
pub fn arrangement_of(query: &ModeQuery, given: &ArgMatches<'_>) -> Result<Arrangement, Fault> {
    let sorting = match given.get_str("order") {
        Some(word) => Some(sorting_of(query, word)?),
        None => None,
    };
    let limit = given.get_one::<u32>("limit").map(|limit| limit as usize);
    Ok(Arrangement { sorting, limit })
}

// The order by a word such as `sum(revenue):desc`.
fn sorting_of(query: &ModeQuery, word: &str) -> Result<Sorting, Fault> {
    let (name, descending) = match word.strip_suffix(":desc") {
        Some(name) => (name, true),
        None => (word, false),
    };
    match sort_key(query, name) {
        Some(key) => Ok(Sorting { key, descending }),
        None => Err(Fault::BadQuery),
    }
}

/// What is wrong with an order that a query does not have.
pub fn bad_order(alloc: Global, word: &str) -> Result<String, AllocError> {
    format!(in alloc;
        "--order {word}: the query has no such column or aggregate; :desc may be after its name"
    )
}
