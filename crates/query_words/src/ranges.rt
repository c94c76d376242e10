//! The words of ranges.
ghost use Rattle.std.specs.Prelude.{◌≡◌, ◌≢◌, ℕ, List, length, [], ◌∷◌, IfOk};
ghost use Rattle.query_words.specs.Mistakes.{IsCountMistake, IsEndMistake, IsRangeMistake};
ghost use Rattle.query_words.specs.Reading.{Finds, Reads};
ghost use Rattle.query_words.specs.Spelled.{SpellsAfter, between};
ghost use Rattle.query_words.specs.Words.{IsSmallNumber, parts_by};

use crate::cube_parts::Condition;
use crate::known::{Column, Subject};
use crate::parts::{parts, text_of};
use crate::refused::{Mistake, Refused};
use cube_model::Cond;
use std::alloc::{AllocError, Global};

/// Reads the two ends after the name of what a condition is on.
pub fn read_range<'a>(
    alloc: Global,
    word: &'a str,
    subject: Subject,
    range: &'a str,
) -> Result<Condition, Refused<'a>>
    ensures { Reads (SpellsAfter subject 58 range.now) (IsRangeMistake word.now range.now) result }
{
    let ends = parts(alloc, range, '|')?;
    let [low, high] = ends.as_slice() else {
        return Err(no_range(word, range, ends.len()));
    };
    read_ends(alloc, subject, low, high)
}

// A range has one end, or more than two.
fn no_range<'a>(word: &'a str, range: &str, ends: usize) -> Refused<'a>
    requires ends { ends ≡ length (parts_by 124 range.now) }
    requires not_two { ends ≢ 2 }
    ensures { IsCountMistake word.now range.now result }
{
    if ends == 1 {
        Mistake::NoBar.of(word)
    } else {
        Mistake::NotTwoEnds.of(word)
    }
}

// Reads a condition by what it is on and its two ends, the parts of what is after the name.
fn read_ends<'a>(
    alloc: Global,
    subject: Subject,
    low: &'a str,
    high: &'a str,
) -> Result<Condition, Refused<'a>>
    ensures { (range : List ℕ) → low.now ∷ high.now ∷ [] ≡ parts_by 124 range
        → Reads (SpellsAfter subject 58 range) (IsEndMistake low.now high.now) result }
{
    match subject {
        Subject::Member(column) => Ok(between(alloc, column, low, high)?),
        Subject::Quantity => match bounds(low, high) {
            Ok((low, high)) => Ok(Condition::Dimension(Cond::Quantity(low, high))),
            Err(refused) => Err(refused),
        },
        Subject::Discount => match bounds(low, high) {
            Ok((low, high)) => Ok(Condition::Dimension(Cond::Discount(low, high))),
            Err(refused) => Err(refused),
        },
    }
}

fn between(alloc: Global, column: Column, low: &str, high: &str) -> Result<Condition, AllocError>
    ensures { IfOk result (λ condition. condition ≡ between column low.now high.now) }
{
    Ok(Condition::between(column, text_of(alloc, low)?, text_of(alloc, high)?))
}

// The numbers that two texts are.
fn bounds<'a>(low: &'a str, high: &'a str) -> Result<(u8, u8), Refused<'a>>
    ensures { Reads (λ ends. IsSmallNumber low.now ends.0 × IsSmallNumber high.now ends.1)
        (IsEndMistake low.now high.now) result }
{
    match (small_number(low), small_number(high)) {
        (Some(low), Some(high)) => Ok((low, high)),
        (None, _) => Err(Mistake::NoNumber.of(low)),
        (Some(_), None) => Err(Mistake::NoNumber.of(high)),
    }
}

// One or more digits, whose value is at most 255. Leading zeros are accepted, a sign is not.
fn small_number(text: &str) -> Option<u8>
    ensures { Finds (IsSmallNumber text.now) result }
{
    if text.starts_with('+') {
        return None;
    }
    match text.parse::<u8>() {
        Ok(number) => Some(number),
        Err(_) => None,
    }
}
