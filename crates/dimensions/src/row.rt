//! The rows of the dimensions as texts by column.
ghost use Rattle.std.specs.Prelude.{◌≡◌, ◌<◌, ℕ, true, false, length, codes};
ghost use Rattle.std.specs.Bool.{OnTrue, OnFalse};
ghost use Rattle.std.specs.Str.{bytes_eq};
ghost use Rattle.dimensions.specs.TextRows.{TextRow, text_in, row_of_customer, row_of_supplier, row_of_part};
ghost use Rattle.dimensions.specs.TextRows.{row_of_date};

use crate::members::is_all;
use cube_model::{CustomerRow, DateRow, PartRow, SupplierRow};

/// A row of a dimension, with a text in each column.
pub trait DimensionRow {
    /// Contracts see it as its key and its texts.
    ghost shown: { Self → TextRow };

    /// The key of the row.
    fn key(&self) -> u32
        ensures { result ≡ (shown self.now).key };

    /// The text of the row in a column.
    fn text(&self, column: usize) -> &[u8]
        requires { column < length (shown self.now).texts }
        ensures { result.now ≡ text_in column (shown self.now) };
}

impl DimensionRow for CustomerRow {
    ghost shown = { row_of_customer };

    fn key(&self) -> u32 {
        self.key
    }

    fn text(&self, column: usize) -> &[u8] {
        match column {
            0 => self.city.as_slice(),
            1 => self.nation.as_slice(),
            _ => self.region.as_slice(),
        }
    }
}

impl DimensionRow for SupplierRow {
    ghost shown = { row_of_supplier };

    fn key(&self) -> u32 {
        self.key
    }

    fn text(&self, column: usize) -> &[u8] {
        match column {
            0 => self.city.as_slice(),
            1 => self.nation.as_slice(),
            _ => self.region.as_slice(),
        }
    }
}

impl DimensionRow for PartRow {
    ghost shown = { row_of_part };

    fn key(&self) -> u32 {
        self.key
    }

    fn text(&self, column: usize) -> &[u8] {
        match column {
            0 => self.brand1.as_slice(),
            1 => self.category.as_slice(),
            _ => self.mfgr.as_slice(),
        }
    }
}

impl DimensionRow for DateRow {
    ghost shown = { row_of_date };

    fn key(&self) -> u32 {
        self.key
    }

    fn text(&self, column: usize) -> &[u8] {
        match column {
            0 => self.yearmonthnum.as_slice(),
            1 => self.year.as_slice(),
            2 => self.yearmonth.as_slice(),
            _ => self.weeknuminyear.as_slice(),
        }
    }
}

/// Whether one of a row's texts is the one that means all members.
pub fn names_all<R: DimensionRow>(row: &R, count: usize) -> bool
    requires { length (R.shown row.now).texts ≡ count }
    ensures some { OnTrue result
        ((i : ℕ) × (i < count) × (bytes_eq (codes "ALL") (text_in i (R.shown row.now)) ≡ true)) }
    ensures none { OnFalse result ((i : ℕ) → i < count → bytes_eq (codes "ALL") (text_in i (R.shown row.now)) ≡ false) }
{
    for i in 0..count {
        if is_all(row.text(i)) {
            return true;
        }
    }
    false
}
