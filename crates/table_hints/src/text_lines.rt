//! A line for which a table is refused.
use crate::lines::{field, field_count};
use crate::quoted::Quoted;
use batch_loader::{Column, Table, without_cr};
use cube_model::limits::{LONGEST_LINE, LONGEST_TEXT};
use cube_model::{Fault, Place};
use std::alloc::Global;

/// What is wrong with a line of a table for which the table is refused, as one line without its end. Nothing where the
/// fault is none of a line. It fails only when out of memory.
pub fn line_hint(
    alloc: Global,
    path: &str,
    table: Table,
    line: &[u8],
    fault: Fault,
) -> Result<Option<String>, Fault> {
    let (at, wrong) = match fault {
        Fault::FieldCount { line: at } => (at, count_hint(alloc, table, line)?),
        Fault::BadNumber { line: at, field } => (at, number_hint(alloc, table, line, field)?),
        Fault::FieldTooLong {
            place: Place::Line(at),
            field,
        } => (at, length_hint(alloc, table, line, field)?),
        _ => return Ok(None),
    };
    let Some(wrong) = wrong else {
        return Ok(None);
    };
    Ok(Some(format!(in alloc; "{path} line {at}: {wrong}")?))
}

fn count_hint(alloc: Global, table: Table, line: &[u8]) -> Result<Option<String>, Fault> {
    let whole = without_cr(line);
    if whole.is_empty() {
        return Ok(Some(format!(in alloc; "the line is empty")?));
    }
    if whole.trim_ascii().is_empty() {
        return Ok(Some(format!(in alloc; "the line is blank")?));
    }
    Ok(Some(format!(in alloc;
        "a {} line has {} fields, and this one {}",
        table.name(),
        table.columns().len(),
        field_count(line)
    )?))
}

fn number_hint(
    alloc: Global,
    table: Table,
    line: &[u8],
    number: u8,
) -> Result<Option<String>, Fault> {
    let place = usize::from(number).saturating_sub(1);
    let (Some(column), Some(Column::Number(limit))) = (
        table.column_name(number),
        table.columns().get(place),
    ) else {
        return Ok(None);
    };
    Ok(Some(format!(in alloc;
        "{column} is {}, expected an integer from 0 to {limit}",
        Quoted(field(line, place).unwrap_or(&[]))
    )?))
}

// The whole line is too long where no field is named.
fn length_hint(
    alloc: Global,
    table: Table,
    line: &[u8],
    number: u8,
) -> Result<Option<String>, Fault> {
    let Some(place) = usize::from(number).checked_sub(1) else {
        return Ok(Some(format!(in alloc; "more than {LONGEST_LINE} bytes")?));
    };
    let Some(column) = table.column_name(number) else {
        return Ok(None);
    };
    let length = field(line, place).unwrap_or(&[]).len();
    Ok(Some(format!(in alloc;
        "{column} has {length} bytes, and a text has at most {LONGEST_TEXT}"
    )?))
}
