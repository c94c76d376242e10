//! What a query whose words can be read has too many of, or twice.
ghost use Rattle.std.specs.Prelude.{MatchOption};
ghost use Rattle.query_words.specs.Limits.{AreDistinct, IsLimitMistake, IsWithinLimits, OccursTwice};

use crate::cube_parts::CubeParts;
use crate::known::Column;
use crate::refused::{Counted, Mistake, Refused};
use cube_model::limits::{MOST_ASKED_AGGREGATES, MOST_COLUMNS, MOST_CONDITIONS};

/// The first limit that the parts of a query exceed: that of its aggregates, its conditions and its columns, and then a
/// column that it has twice.
pub fn limit_mistake(parts: &CubeParts) -> Option<Refused<'static>>
    ensures { MatchOption result (IsWithinLimits parts.now) (IsLimitMistake parts.now) }
{
    let aggregates = parts.aggregates.len();
    if aggregates > MOST_ASKED_AGGREGATES {
        return Some(Counted::Aggregates.too_many(aggregates, MOST_ASKED_AGGREGATES));
    }
    let conditions = parts.conditions.len();
    if conditions > MOST_CONDITIONS {
        return Some(Counted::Conditions.too_many(conditions, MOST_CONDITIONS));
    }
    let columns = parts.columns.len();
    if columns > MOST_COLUMNS {
        return Some(Counted::Columns.too_many(columns, MOST_COLUMNS));
    }
    match repeated(parts.columns.as_slice()) {
        None => None,
        Some(column) => Some(Mistake::Twice.of(column.name())),
    }
}

// The first column that occurs before.
fn repeated(columns: &[Column]) -> Option<Column>
    ensures { MatchOption result (AreDistinct columns.now) (OccursTwice columns.now) }
{
    for place in 0..columns.len() {
        if columns[..place].contains(&columns[place]) {
            return Some(columns[place]);
        }
    }
    None
}
