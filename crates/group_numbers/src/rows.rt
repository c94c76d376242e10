//! Fact rows as group numbers and a fold read them, wherever they are.
ghost use Rattle.std.specs.Prelude.{◌≡◌, ◌<◌, ℕ, List, length, map};
ghost use Rattle.cube_model.specs.declared.rows.LineOrder.{LineOrder};
ghost use Rattle.cube_model.specs.Attributes.{key_on};
ghost use Rattle.cube_model.specs.Measures.{measure_of};
ghost use Rattle.dictionary.specs.Columns.{text_of_code};
ghost use Rattle.group_numbers.specs.Rows.{row_at};

use cube_model::{Axis, LineOrder, Measure};

/// Fact rows by their places, which count from 0. Only the numbers that a query asks for are read.
pub trait FactRows {
    /// The rows.
    ghost rows: { Self → List LineOrder };

    /// How many rows there are.
    fn count(&self) -> usize
        ensures { result ≡ length (rows self.now) };

    /// The key that a row has in a dimension.
    fn key(&self, place: usize, axis: Axis) -> u32
        requires { place < length (rows self.now) }
        ensures { result ≡ key_on axis (row_at (rows self.now) place) };

    /// The quantity of a row.
    fn quantity(&self, place: usize) -> u8
        requires { place < length (rows self.now) }
        ensures { result ≡ (row_at (rows self.now) place).quantity };

    /// The discount of a row, in hundredths.
    fn discount(&self, place: usize) -> u8
        requires { place < length (rows self.now) }
        ensures { result ≡ (row_at (rows self.now) place).discount };

    /// A measure of a row.
    fn measure(&self, place: usize, measure: Measure) -> i128
        requires { place < length (rows self.now) }
        ensures { result ≡ measure_of measure (row_at (rows self.now) place) };
}

/// Fact rows whose ship modes are given by codes: each row has the code of a text. A text may have several codes.
pub trait ModeRows: FactRows {
    /// The text of each code.
    ghost modes: { Self → List (List ℕ) };

    /// How many codes there are.
    fn mode_count(&self) -> usize
        ensures { result ≡ length (modes self.now) };

    /// The text of a code.
    fn mode_text(&self, code: usize) -> &[u8]
        requires { code < length (modes self.now) }
        ensures { result.now ≡ text_of_code (modes self.now) code };

    /// The code of a row's ship mode.
    fn mode_code(&self, place: usize) -> usize
        requires { place < length (Self.rows self.now) }
        ensures below { result < length (modes self.now) }
        ensures text { text_of_code (modes self.now) result ≡ (row_at (Self.rows self.now) place).shipmode };
}

/// Fact rows in memory, one after another.
#[derive(Clone, Copy)]
pub struct RowSlice<'a>(pub &'a [LineOrder]);

impl<'a> FactRows for RowSlice<'a> {
    ghost rows = { λ slice. slice.0.now };

    fn count(&self) -> usize {
        self.0.len()
    }

    fn key(&self, place: usize, axis: Axis) -> u32 {
        let row = &self.0[place];
        match axis {
            Axis::Customer => row.custkey,
            Axis::Supplier => row.suppkey,
            Axis::Part => row.partkey,
            Axis::Date => row.orderdate,
        }
    }

    fn quantity(&self, place: usize) -> u8 {
        self.0[place].quantity
    }

    fn discount(&self, place: usize) -> u8 {
        self.0[place].discount
    }

    fn measure(&self, place: usize, measure: Measure) -> i128 {
        self.0[place].measure(measure)
    }
}

impl<'a> ModeRows for RowSlice<'a> {
    ghost modes = { λ slice. map (λ row. row.shipmode) slice.0.now };

    fn mode_count(&self) -> usize {
        self.0.len()
    }

    fn mode_text(&self, code: usize) -> &[u8] {
        self.0[code].shipmode.as_slice()
    }

    fn mode_code(&self, place: usize) -> usize {
        place
    }
}
