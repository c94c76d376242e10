//! Whether dimension rows have short texts.
ghost use Rattle.std.specs.Prelude.{◌≡◌, length, map};
ghost use Rattle.std.specs.Bool.{OnTrue, OnFalse};
ghost use Rattle.cube_model.specs.Validity.{HaveShortTexts};
ghost use Rattle.dimensions.specs.ShortTexts.{IsShortRow, AreShortRows};

use crate::row::DimensionRow;
use crate::shape::column_count;
use cube_model::limits::LONGEST_TEXT;
use cube_model::{Axis, DimRows};

/// Whether each text of dimension rows has at most 255 bytes, which `Dims::build` asks for.
pub fn have_short_texts(rows: &DimRows) -> bool
    ensures yes { OnTrue result (HaveShortTexts rows.now) }
    ensures no { OnFalse result (HaveShortTexts rows.now → ⊥) }
{
    if !are_short(rows.customers.as_slice(), column_count(Axis::Customer)) {
        return false;
    }
    if !are_short(rows.suppliers.as_slice(), column_count(Axis::Supplier)) {
        return false;
    }
    if !are_short(rows.parts.as_slice(), column_count(Axis::Part)) {
        return false;
    }
    are_short(rows.dates.as_slice(), column_count(Axis::Date))
}

// The same of the rows of one dimension.
fn are_short<R: DimensionRow>(rows: &[R], columns: usize) -> bool
    requires { (row : R) → length (R.shown row).texts ≡ columns }
    ensures yes { OnTrue result (AreShortRows (map R.shown rows.now)) }
    ensures no { OnFalse result (AreShortRows (map R.shown rows.now) → ⊥) }
{
    for row in rows {
        if !is_short(row, columns) {
            return false;
        }
    }
    true
}

// The same of one row.
fn is_short<R: DimensionRow>(row: &R, columns: usize) -> bool
    requires { length (R.shown row.now).texts ≡ columns }
    ensures yes { OnTrue result (IsShortRow (R.shown row.now)) }
    ensures no { OnFalse result (IsShortRow (R.shown row.now) → ⊥) }
{
    for column in 0..columns {
        let text = row.text(column);
        if text.len() > LONGEST_TEXT {
            return false;
        }
    }
    true
}
