//! The columns of the five tables, and what they make of a line's fields.
ghost use Rattle.std.specs.Prelude.{◌≡◌, ◌<◌, ◌+◌, Some, None, IfSome, IfOk, IfErr};
ghost use Rattle.batch_loader.specs.declared.columns.Column.TheVariants.{Number};
ghost use Rattle.batch_loader.specs.Columns.{field_fault, fields_fault, number_in, field_text};
ghost use Rattle.batch_loader.specs.LineFields.{fields_at, field_texts};
ghost use Rattle.batch_loader.specs.Parsing.{AreNumbers, FitsField, ReadsField};

use crate::line_fields::{FieldsInPlace, LineFields};
use cube_model::limits::LONGEST_TEXT;
use cube_model::{Fault, Place};

/// The greatest key.
pub const KEY_LIMIT: u64 = 4_294_967_295;

/// The greatest amount of money.
pub const AMOUNT_LIMIT: u64 = 9_223_372_036_854_775_807;

/// The greatest small count.
pub const SMALL_LIMIT: u64 = 255;

/// What a column of a table holds.
#[derive(Clone, Copy)]
pub enum Column {
    /// A number up to a limit.
    Number(u64),
    /// A text that is kept.
    Text,
    /// Any bytes, which are not kept.
    Skipped,
}

/// A key or a line number.
pub const KEY: Column = Column::Number(KEY_LIMIT);

/// An amount of money.
pub const AMOUNT: Column = Column::Number(AMOUNT_LIMIT);

/// A small count.
pub const SMALL: Column = Column::Number(SMALL_LIMIT);

/// A text that is kept.
pub const TEXT: Column = Column::Text;

const SKIPPED: Column = Column::Skipped;

pub const CUSTOMER: [Column; 8] = [KEY, SKIPPED, SKIPPED, TEXT, TEXT, TEXT, SKIPPED, SKIPPED];

pub const SUPPLIER: [Column; 7] = [KEY, SKIPPED, SKIPPED, TEXT, TEXT, TEXT, SKIPPED];

pub const PART: [Column; 9] = [
    KEY, SKIPPED, TEXT, TEXT, TEXT, SKIPPED, SKIPPED, SKIPPED, SKIPPED,
];

pub const DATE: [Column; 17] = [
    KEY, SKIPPED, SKIPPED, SKIPPED, TEXT, TEXT, TEXT, SKIPPED, SKIPPED, SKIPPED, SKIPPED, TEXT,
    SKIPPED, SKIPPED, SKIPPED, SKIPPED, SKIPPED,
];

pub const LINEORDER: [Column; 17] = [
    AMOUNT, KEY, KEY, KEY, KEY, KEY, TEXT, TEXT, SMALL, AMOUNT, AMOUNT, SMALL, AMOUNT, AMOUNT,
    SMALL, TEXT, TEXT,
];

/// Reads the numbers of a line's fields, from left to right, and refuses the first field that does not fit its column.
#[inline(always)]
pub fn numbers_of<const N: usize>(
    columns: &[Column; N],
    fields: &LineFields<'_, N>,
    line: u64,
) -> Result<[u64; N], Fault>
    requires { N < 255 }
    ensures fits { IfOk result (λ _. fields_fault line 1 columns.now (field_texts fields.now) ≡ None) }
    ensures numbers { IfOk result (λ numbers. AreNumbers 0 columns.now (field_texts fields.now) numbers) }
    ensures refused { IfErr result (λ fault. fields_fault line 1 columns.now (field_texts fields.now) ≡ Some fault) }
{
    let mut numbers = [0u64; N];
    for place in 0..N {
        numbers[place] = read_field(columns[place], fields, line, place)?;
    }
    Ok(numbers)
}

/// The number of the field at a place from 0, if its column is one of numbers, and else 0.
#[inline(always)]
fn read_field<const N: usize>(
    column: Column,
    fields: &LineFields<'_, N>,
    line: u64,
    place: usize,
) -> Result<u64, Fault>
    requires few { N < 255 }
    requires place { place < N }
    ensures fits { IfOk result (λ _. field_fault line (place + 1) column (field_text (field_texts fields.now) place)
        ≡ None) }
    ensures number { IfOk result (FitsField column (number_in (field_texts fields.now) place)) }
    ensures refused { IfErr result
        (λ fault. field_fault line (place + 1) column (field_text (field_texts fields.now) place)
        ≡ Some fault) }
{
    let field = place as u8 + 1;
    match column {
        Column::Number(limit) => match fields.number(place, limit) {
            Some(number) => Ok(number),
            None => Err(Fault::BadNumber { line, field }),
        },
        Column::Text => {
            if fields.get(place).len() > LONGEST_TEXT {
                let place = Place::Line(line);
                return Err(Fault::FieldTooLong { place, field });
            }
            Ok(0)
        }
        Column::Skipped => Ok(0),
    }
}

/// The same, with nothing in place of the fault of a field that does not fit its column.
#[inline(always)]
pub fn fitting<const N: usize>(
    column: Column,
    fields: &FieldsInPlace<'_, '_, N>,
    place: usize,
) -> Option<u64>
    requires { place < N }
    ensures { IfSome result (ReadsField column (field_text (fields_at fields.now) place)) }
{
    match column {
        Column::Number(limit) => fields.number(place, limit),
        Column::Text if fields.get(place).len() > LONGEST_TEXT => None,
        Column::Text | Column::Skipped => Some(0),
    }
}

/// The same of a column of numbers up to a limit that mostly have one digit or two.
#[inline(always)]
pub fn fitting_few_digits<const N: usize>(
    limit: u64,
    fields: &FieldsInPlace<'_, '_, N>,
    place: usize,
) -> Option<u64>
    requires { place < N }
    ensures { IfSome result (ReadsField (Number limit) (field_text (fields_at fields.now) place)) }
{
    fields.few_digits(place, limit)
}
