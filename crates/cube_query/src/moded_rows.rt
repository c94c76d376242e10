//! The rows of a batch, with the codes of their ship modes.
ghost use Rattle.std.specs.Prelude.{◌≡◌, ◌<◌, ◌≤◌, length, map, slice_index_or};
ghost use Rattle.std.specs.Int.{from_le_bytes, w16};
ghost use Rattle.cube_model.specs.Limits.{most_batch_rows};
ghost use Rattle.dictionary.specs.Columns.{text_of_code};

use crate::column_rows::ColumnRows;
use column_segment::{Segment, TextColumn};
use cube_model::{Axis, Measure};
use dictionary::Dictionary;
use group_numbers::{FactRows, ModeRows};
use std::marker::Model;

/// The rows of a batch whose ship modes are given by their codes in the batch. Contracts see the list of the rows, and
/// the texts of the codes.
#[derive(Drop)]
pub struct RowsWithModes<'a> {
    rows: ColumnRows<'a>,
    modes: &'a Dictionary,
    codes: &'a [[u8; 2]],
}

impl<'a> Model for RowsWithModes<'a> {
    ghost use Rattle.cube_query.specs.ColumnRows.{HaveModes, ModedRows};

    ghost Value = { ModedRows };

    ghost view = { λ r. record { rows = r.rows; modes = r.modes.now.texts } };

    ghost invariant = { λ r. HaveModes (record { rows = r.rows; modes = r.modes.now.texts }) r.codes.now };
}

impl<'a> RowsWithModes<'a> {
    /// The rows of a batch.
    pub fn of(segment: &'a Segment) -> RowsWithModes<'a>
        ensures rows { result.rows ≡ segment.now.rows }
        ensures few { length segment.now.rows ≤ most_batch_rows }
    {
        let (modes, codes) = segment.coded(TextColumn::ShipMode);
        RowsWithModes {
            rows: ColumnRows::of(segment.columns()),
            modes,
            codes,
        }
    }
}

impl<'a> FactRows for RowsWithModes<'a> {
    ghost rows = { λ r. r.rows };

    fn count(&self) -> usize {
        self.rows.count()
    }

    fn key(&self, place: usize, axis: Axis) -> u32 {
        self.rows.key(place, axis)
    }

    fn quantity(&self, place: usize) -> u8 {
        self.rows.quantity(place)
    }

    fn discount(&self, place: usize) -> u8 {
        self.rows.discount(place)
    }

    fn measure(&self, place: usize, measure: Measure) -> i128 {
        self.rows.measure(place, measure)
    }
}

impl<'a> ModeRows for RowsWithModes<'a> {
    ghost modes = { λ r. r.modes };

    fn mode_count(&self) -> usize {
        self.modes.len()
    }

    fn mode_text(&self, code: usize) -> &[u8] {
        text_of(self.modes, code)
    }

    fn mode_code(&self, place: usize) -> usize {
        usize::from(code_at(self.codes, place))
    }
}

// The text of a code.
fn text_of(modes: &Dictionary, code: usize) -> &[u8]
    requires few { length modes.now.texts ≤ most_batch_rows }
    requires below { code < length modes.now.texts }
    ensures { result.now ≡ text_of_code modes.now.texts code }
{
    match modes.text(code as u32) {
        Some(text) => text,
        None => &[],
    }
}

// The code at a place of a column of codes.
fn code_at(codes: &[[u8; 2]], place: usize) -> u16
    requires { place < length codes.now }
    ensures { result ≡ slice_index_or (map (from_le_bytes w16) codes.now) place 0 }
{
    u16::from_le_bytes(codes[place])
}
