//! The rules of the five tables, written out by plain splitting.
use cube_model::{CustomerRow, DateRow, Fault, LineOrder, PartRow, Place, SupplierRow};
use std::str;

/// What a column has: a number up to a limit, a text that is kept, or bytes that are not.
#[derive(Clone, Copy)]
pub enum Column {
    Number(u64),
    Kept,
    Skipped,
}

/// The parts of a line between its bars, of which there may be one more than the widest table has columns.
pub type Parts<'a> = [&'a [u8]; 18];

/// The parts of a line, and how many there are.
fn parts_of(line: &[u8]) -> (Parts<'_>, usize) {
    let mut parts: Parts<'_> = [b""; 18];
    let mut count = 0usize;
    for part in line.split(|byte| *byte == b'|') {
        if let Some(place) = parts.get_mut(count) {
            *place = part;
        }
        count = count.saturating_add(1);
    }
    (parts, count)
}

/// The number that digits spell.
fn number_of(text: &[u8]) -> Option<u64> {
    if !text.iter().all(|byte| byte.is_ascii_digit()) {
        return None;
    }
    let digits = str::from_utf8(text).ok()?;
    digits.parse().ok()
}

/// Why a field is refused, if it is.
fn refusal(column: Column, text: &[u8], line: u64, field: u8) -> Option<Fault> {
    match column {
        Column::Number(limit) if number_of(text).is_none_or(|number| number > limit) => {
            Some(Fault::BadNumber { line, field })
        }
        Column::Kept if text.len() > 255 => Some(Fault::FieldTooLong {
            place: Place::Line(line),
            field,
        }),
        _ => None,
    }
}

/// The parts of a line without the carriage return at its end, and how many there are.
fn fields_of(line: &[u8]) -> (Parts<'_>, usize) {
    parts_of(line.strip_suffix(b"\r").unwrap_or(line))
}

/// The first fault of a line, if it has one.
fn fault_of(columns: &[Column], line: &[u8], number: u64) -> Option<Fault> {
    if line.len() > 8192 {
        let place = Place::Line(number);
        return Some(Fault::FieldTooLong { place, field: 0 });
    }
    let (parts, count) = fields_of(line);
    let has_last_bar = line_ends_empty(columns, &parts, count);
    if count != columns.len() && !has_last_bar {
        return Some(Fault::FieldCount { line: number });
    }
    let mut field = 0u8;
    for (column, part) in columns.iter().zip(&parts) {
        field = field.saturating_add(1);
        if let Some(fault) = refusal(*column, part, number, field) {
            return Some(fault);
        }
    }
    None
}

/// Whether there is one part more than columns, and it is empty.
fn line_ends_empty(columns: &[Column], parts: &Parts<'_>, count: usize) -> bool {
    count.checked_sub(1) == Some(columns.len())
        && parts.get(columns.len()).is_some_and(|last| last.is_empty())
}

/// The first fault of a text, if it has one.
pub fn first_fault(columns: &[Column], text: &[u8]) -> Option<Fault> {
    let mut number = 0u64;
    for line in text.split_inclusive(|byte| *byte == b'\n') {
        number = number.saturating_add(1);
        let line = line.strip_suffix(b"\n").unwrap_or(line);
        if let Some(fault) = fault_of(columns, line, number) {
            return Some(fault);
        }
    }
    None
}

/// A row that is kept of a line.
pub trait KeptRow {
    /// Whether it is the row of a line's fields.
    fn is_of(&self, fields: &Parts<'_>) -> bool;
}

/// Whether rows are those of a text without a fault.
pub fn are_of<R: KeptRow>(columns: &[Column], text: &[u8], rows: &[R]) -> bool {
    let mut left = rows.iter();
    for line in text.split_inclusive(|byte| *byte == b'\n') {
        let line = line.strip_suffix(b"\n").unwrap_or(line);
        let Some(row) = left.next() else {
            return false;
        };
        if fault_of(columns, line, 1).is_some() || !row.is_of(&fields_of(line).0) {
            return false;
        }
    }
    left.next().is_none()
}

/// Whether a number is the one that digits spell.
fn is_number(number: u64, digits: &[u8]) -> bool {
    number_of(digits) == Some(number)
}

impl KeptRow for CustomerRow {
    fn is_of(&self, fields: &Parts<'_>) -> bool {
        is_number(self.key as u64, fields[0])
            && self.city.as_slice() == fields[3]
            && self.nation.as_slice() == fields[4]
            && self.region.as_slice() == fields[5]
    }
}

impl KeptRow for SupplierRow {
    fn is_of(&self, fields: &Parts<'_>) -> bool {
        is_number(self.key as u64, fields[0])
            && self.city.as_slice() == fields[3]
            && self.nation.as_slice() == fields[4]
            && self.region.as_slice() == fields[5]
    }
}

impl KeptRow for PartRow {
    fn is_of(&self, fields: &Parts<'_>) -> bool {
        is_number(self.key as u64, fields[0])
            && self.mfgr.as_slice() == fields[2]
            && self.category.as_slice() == fields[3]
            && self.brand1.as_slice() == fields[4]
    }
}

impl KeptRow for DateRow {
    fn is_of(&self, fields: &Parts<'_>) -> bool {
        is_number(self.key as u64, fields[0])
            && self.year.as_slice() == fields[4]
            && self.yearmonthnum.as_slice() == fields[5]
            && self.yearmonth.as_slice() == fields[6]
            && self.weeknuminyear.as_slice() == fields[11]
    }
}

impl KeptRow for LineOrder {
    fn is_of(&self, fields: &Parts<'_>) -> bool {
        are_numbers_of(self, fields) && are_texts_of(self, fields)
    }
}

/// Whether the numbers of a fact row are those of a line's fields.
fn are_numbers_of(row: &LineOrder, fields: &Parts<'_>) -> bool {
    let numbers = [
        (row.orderkey.get(), fields[0]),
        (row.linenumber as u64, fields[1]),
        (row.custkey as u64, fields[2]),
        (row.partkey as u64, fields[3]),
        (row.suppkey as u64, fields[4]),
        (row.orderdate as u64, fields[5]),
        (row.quantity as u64, fields[8]),
        (row.extendedprice.get(), fields[9]),
        (row.ordtotalprice.get(), fields[10]),
        (row.discount as u64, fields[11]),
        (row.revenue.get(), fields[12]),
        (row.supplycost.get(), fields[13]),
        (row.tax as u64, fields[14]),
    ];
    numbers
        .iter()
        .all(|(number, digits)| is_number(*number, digits))
}

/// Whether the texts of a fact row are those of a line's fields.
fn are_texts_of(row: &LineOrder, fields: &Parts<'_>) -> bool {
    row.orderpriority.as_slice() == fields[6]
        && row.shippriority.as_slice() == fields[7]
        && row.commitdate.as_slice() == fields[15]
        && row.shipmode.as_slice() == fields[16]
}
