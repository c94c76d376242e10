//! Why files are no partial reports of one query.
use crate::table_paths::shown;
use partial_reports::Wrong;
use report_merge::Refused;
use std::alloc::{AllocError, Global};

/// What is wrong with the file at a place among others, where it is wrong.
pub fn unmerged_hint(
    alloc: Global,
    paths: &[&str],
    place: usize,
    refused: Refused,
) -> Option<String> {
    let path = shown(paths.get(place)?);
    let first = shown(paths.first()?);
    hint_of(alloc, path, first, refused).ok()?
}

fn hint_of(
    alloc: Global,
    path: &str,
    first: &str,
    refused: Refused,
) -> Result<Option<String>, AllocError> {
    let said = match refused {
        Refused::Memory | Refused::Input => return Ok(None),
        Refused::At { line, wrong } => {
            let said = wrong_text(wrong);
            format!(in alloc; "{path}, line {line}: {said}")?
        }
        Refused::OtherWords => differs(alloc, path, "of a query in other words", first)?,
        Refused::OtherParts => differs(alloc, path, "of another number of parts", first)?,
        Refused::OtherDimensions => differs(alloc, path, "over other dimension rows", first)?,
        Refused::Twice { number } => {
            format!(in alloc; "{path}: part {number} is in a file before it too")?
        }
    };
    Ok(Some(said))
}

fn differs(alloc: Global, path: &str, what: &str, first: &str) -> Result<String, AllocError> {
    format!(in alloc; "{path}: {what} than {first}")
}

// What is wrong in a line.
fn wrong_text(wrong: Wrong) -> &'static str {
    match wrong {
        Wrong::Version => "no partial report: 'ssbcube partial report 1' is its first line",
        Wrong::Part => {
            "'part' and its number, or several in ascending order with commas, of at most 1024, such as 3/8, are wanted"
        }
        Wrong::Dimensions => "'dimensions' and 64 hexadecimal digits are wanted",
        Wrong::Words => "these are not the words of a query",
        Wrong::Names => "the names are not those of the query's columns and aggregates",
        Wrong::FieldCount => "too few or too many fields",
        Wrong::Field => "a number or a member is not as a report spells it",
        Wrong::KeyOrder => "its members are not after those of the line before it",
        Wrong::Cut => "the file is cut off here",
        Wrong::Count => "'rows', the number of lines, and nothing after it are wanted",
    }
}
