//! The words of a query.
ghost use Rattle.std.specs.Prelude.{◌≡◌, ◌↔◌, None, Some, map, IsTrue};
ghost use Rattle.std.specs.Option.{option_map, IsSomeAnd};
ghost use Rattle.query_words.specs.Mistakes.{IsAskedMistake, IsMistakeOf, IsPartMistake, IsSetMistake};
ghost use Rattle.query_words.specs.Reading.{Reads};
ghost use Rattle.query_words.specs.Given.{number_alone, words_of};
ghost use Rattle.query_words.specs.Words.{SpellsKind, SpellsProper, Words};

use crate::aggregates::read_aggregates;
use crate::columns::read_columns;
use crate::conditions::read_conditions;
use crate::cube_parts::CubeParts;
use crate::known::Known;
use crate::limits::limit_mistake;
use crate::names::{kind, number};
use crate::refused::{QueryWords, Refused};
use cube_model::Kind;
use mode_queries::ModeQuery;
use ssb_reports::query_of;
use std::alloc::Global;

/// Reads the words of a query that may be asked: a query of the benchmark by its number, or a cube query by the name of
/// its set, its columns, its aggregates and its conditions. One column may be the ship mode, and conditions may be on
/// it. Words that are no such query are refused with the first mistake in them.
pub fn read_query<'a>(alloc: Global, words: &QueryWords<'a>) -> Result<ModeQuery, Refused<'a>>
    ensures { Reads (SpellsProper (words_of words.now)) (IsMistakeOf (words_of words.now)) result }
{
    match (words.q, words.agg) {
        (Some(q), _) => {
            if is_number_alone(words) {
                read_benchmark(alloc, q)
            } else {
                Err(Refused::NotAlone)
            }
        }
        (None, Some(agg)) => read_cube(alloc, words.set, words.by, agg, words.conditions),
        (None, None) => Err(Refused::NothingAsked),
    }
}

// Whether no other word comes with the number of a query.
fn is_number_alone(words: &QueryWords<'_>) -> bool
    ensures { IsTrue result ↔ (words_of words.now ≡ number_alone (words_of words.now).q) }
{
    words.set.is_none() && words.by.is_none() && words.agg.is_none() && words.conditions.is_empty()
}

fn read_benchmark(alloc: Global, q: &str) -> Result<ModeQuery, Refused<'_>>
    ensures { Reads (SpellsProper (number_alone (Some q.now))) (IsAskedMistake (number_alone (Some q.now))) result }
{
    let Some(number) = number(q) else {
        return Err(Refused::Unknown {
            word: q,
            known: Known::Query,
        });
    };
    match query_of(alloc, number) {
        Ok(query) => Ok(ModeQuery::without_modes(alloc, query)),
        Err(_) => Err(Refused::Memory),
    }
}

fn read_cube<'a>(
    alloc: Global,
    set: Option<&'a str>,
    by: Option<&'a str>,
    agg: &'a str,
    conditions: &[&'a str],
) -> Result<ModeQuery, Refused<'a>>
    ensures { let words : Words = record {
      q = None;
      set = option_map (λ word. word.now) set.entry;
      by = option_map (λ word. word.now) by.entry;
      agg = Some agg.now;
      conditions = map (λ word. word.now) conditions.now;
    } in Reads (SpellsProper words) (IsPartMistake words) result }
{
    let kind = read_set(set)?;
    let columns = read_columns(alloc, by)?;
    let conditions = read_conditions(alloc, conditions)?;
    let aggregates = read_aggregates(alloc, agg)?;
    let parts = CubeParts {
        kind,
        columns,
        conditions,
        aggregates,
    };
    match limit_mistake(&parts) {
        None => Ok(parts.into_query(alloc)?),
        Some(refused) => Err(refused),
    }
}

// The kind of a set by its name, and plain without a word.
fn read_set(set: Option<&str>) -> Result<Kind, Refused<'_>>
    ensures { let set = option_map (λ word. word.now) set.entry in
        Reads (SpellsKind set) (λ refused. IsSomeAnd set (λ text. IsSetMistake text refused)) result }
{
    let Some(word) = set else {
        return Ok(Kind::Plain);
    };
    match kind(word) {
        Some(kind) => Ok(kind),
        None => Err(Refused::Unknown {
            word,
            known: Known::Set,
        }),
    }
}
