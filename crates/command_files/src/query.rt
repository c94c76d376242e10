//! The words of a query.
use crate::refusal::{Refusal, bad_query};
use clap::ArgMatches;
use cube_model::{Fault, Query};
use mode_queries::{ModeQuery, SHIP_MODE};
use query_words::{QueryWords, Refused, hint_of, read_query};
use std::alloc::{AllocError, Global};

/// The query that the words of a command spell, or why they are refused.
pub fn query_of(alloc: Global, given: &ArgMatches<'_>) -> Result<ModeQuery, Refusal> {
    match read_query(alloc, &words_of(given)) {
        Ok(query) => Ok(query),
        Err(refused) => Err(refusal_of(alloc, in_command(given, refused))),
    }
}

// The commands that ask queries of a warehouse have no number of one of the benchmark as an option: aggregates alone
// are wanted there.
fn in_command<'a>(given: &ArgMatches<'_>, refused: Refused<'a>) -> Refused<'a> {
    match refused {
        Refused::NothingAsked if given.get_str("device").is_some() => Refused::NoAggregate,
        refused => refused,
    }
}

/// The query that words ask for, where a command or an option takes none by ship mode. `BadQuery` where it is one.
pub fn plain_query(alloc: Global, asked: ModeQuery, by: &str) -> Result<Query, Refusal> {
    match asked.into_plain() {
        Some(query) => Ok(query),
        None => Err(bad_query(modes_hint(alloc, by))),
    }
}

/// What is said of a query by ship mode, where a command or an option takes none.
pub fn modes_hint(alloc: Global, by: &str) -> Result<String, AllocError> {
    format!(in alloc;
        "{SHIP_MODE}: {by} takes no query by ship mode; cube, explain, eval and report --queries do, without --partial"
    )
}

/// The refusal of words, with the mistake in them.
pub fn refusal_of(alloc: Global, refused: Refused<'_>) -> Refusal {
    let hint = match refused {
        Refused::Memory => None,
        refused => said_of(alloc, refused).ok(),
    };
    Refusal {
        fault: Fault::from(refused),
        hint,
    }
}

fn said_of(alloc: Global, refused: Refused<'_>) -> Result<String, AllocError> {
    let hint = hint_of(alloc, refused)?;
    format!(in alloc; "{hint}")
}

/// What is said where neither a query of the benchmark nor one of one's own is given.
pub const NOTHING_ASKED: &str =
    "nothing is asked: give a query of the benchmark, such as 3.1, or --agg G,G, such as --agg count,sum:revenue";

/// Whether words give neither a query of the benchmark nor aggregates.
pub fn asks_nothing(given: &ArgMatches<'_>) -> bool {
    given.get_str("agg").is_none() && benchmark_word(given).is_none()
}

/// The word for a query of the benchmark, where a command has one.
pub fn benchmark_word<'a>(given: &'a ArgMatches<'_>) -> Option<&'a str> {
    words_of(given).q
}

/// The words of the query of a command.
pub fn words_of<'a>(given: &'a ArgMatches<'_>) -> QueryWords<'a> {
    let words = QueryWords {
        q: given.get_str("query"),
        set: given.get_str("set"),
        by: given.get_str("by"),
        agg: given.get_str("agg"),
        conditions: given.get_strs("condition").unwrap_or(&[]),
    };
    match given.get_strs("asked") {
        Some(asked) => with_asked(words, asked),
        None => words,
    }
}

// The words of a query of `explain`, whose words at a place are a query of the benchmark or conditions. One word alone
// that has no sign of a condition is a query of the benchmark.
fn with_asked<'a>(words: QueryWords<'a>, asked: &'a [&'a str]) -> QueryWords<'a> {
    match asked {
        [q] if is_alone(&words) && !q.contains('=') && !q.contains(':') => QueryWords {
            q: Some(*q),
            ..words
        },
        asked => QueryWords {
            conditions: asked,
            ..words
        },
    }
}

// Whether no option of a query of one's own is given.
fn is_alone(words: &QueryWords<'_>) -> bool {
    words.set.is_none() && words.by.is_none() && words.agg.is_none()
}
