//! Where the columns of a batch are in its bytes.
ghost use Rattle.std.specs.Prelude.{◌≡◌, ◌+◌, ◌*◌, ◌^◌, ◌≤◌, ◌<◌, All, length, map};
ghost use Rattle.std.specs.Int.{from_le_bytes, w16};
ghost use Rattle.std.specs.Simd.{first_chunks};
ghost use Rattle.cube_model.specs.Limits.{most_batch_rows};
ghost use Rattle.column_segment.specs.Decoded.{codes_in, coded_of, column_bytes, fact_place};

use crate::columns::{Column, TextColumn};
use dictionary::Dictionary;
use std::alloc::Global;

/// How many bytes are before the columns: the name, the batch's number, how many rows.
pub(crate) const HEADER_BYTES: usize = 12;

/// How many bytes a row takes in the columns of numbers.
pub(crate) const NUMBER_BYTES: usize = 63;

/// A column of texts: its dictionary, and where its codes begin.
pub(crate) struct Coded {
    pub(crate) texts: Dictionary,
    pub(crate) at: usize,
}

// Written out, as that of the columns together, so that a proof has one call to follow where they are let go.
impl Drop for Coded {
    fn drop(self) {
        let Coded { texts: _, at: _ } = self;
    }
}

impl Coded {
    // A column of no text.
    fn none(alloc: Global) -> Coded {
        Coded {
            texts: Dictionary::new(alloc, 0),
            at: 0,
        }
    }
}

/// The columns of texts of a batch.
pub(crate) struct CodedTexts {
    pub(crate) orderpriority: Coded,
    pub(crate) shippriority: Coded,
    pub(crate) commitdate: Coded,
    pub(crate) shipmode: Coded,
}

impl Drop for CodedTexts {
    fn drop(self) {
        let CodedTexts {
            orderpriority: _,
            shippriority: _,
            commitdate: _,
            shipmode: _,
        } = self;
    }
}

impl CodedTexts {
    // One of them.
    pub(crate) fn column(&self, column: TextColumn) -> &Coded
        ensures { result.now ≡ coded_of column self.now }
    {
        match column {
            TextColumn::OrderPriority => &self.orderpriority,
            TextColumn::ShipPriority => &self.shippriority,
            TextColumn::CommitDate => &self.commitdate,
            TextColumn::ShipMode => &self.shipmode,
        }
    }
}

/// What the bytes of a batch were found to be.
#[derive(Drop)]
pub(crate) struct Layout {
    pub(crate) number: u32,
    pub(crate) rows: usize,
    pub(crate) texts: CodedTexts,
}

impl Layout {
    // That of no row, with no texts.
    pub(crate) fn without_texts(alloc: Global) -> Layout
        ensures { result.rows ≡ 0 }
    {
        Layout {
            number: 0,
            rows: 0,
            texts: CodedTexts {
                orderpriority: Coded::none(alloc),
                shippriority: Coded::none(alloc),
                commitdate: Coded::none(alloc),
                shipmode: Coded::none(alloc),
            },
        }
    }
}

/// A column of bytes that have room for all columns of numbers.
pub(crate) fn chunks<const WIDTH: usize>(
    bytes: &[u8],
    rows: usize,
    column: Column<WIDTH>,
) -> &[[u8; WIDTH]]
    requires few { rows ≤ most_batch_rows }
    requires room { 12 + 63 * rows ≤ length bytes.now }
    ensures value { result.now
        ≡ first_chunks WIDTH rows (column_bytes (fact_place column.entry.name) WIDTH rows bytes.now) }
    ensures many { length result.now ≡ rows }
{
    part(bytes, rows, column.name.place(), WIDTH)
        .as_chunks::<WIDTH>()
        .0
}

/// A column of small numbers.
pub(crate) fn byte_part(bytes: &[u8], rows: usize, column: Column<1>) -> &[u8]
    requires few { rows ≤ most_batch_rows }
    requires room { 12 + 63 * rows ≤ length bytes.now }
    ensures value { result.now ≡ column_bytes (fact_place column.name) 1 rows bytes.now }
    ensures many { length result.now ≡ rows }
    ensures fit { All (λ number. number < 2 ^ 8) result.now }
{
    part(bytes, rows, column.name.place(), 1)
}

/// The codes of a column of texts that begin at a place.
pub(crate) fn code_chunks(bytes: &[u8], rows: usize, at: usize) -> &[[u8; 2]]
    requires few { rows ≤ most_batch_rows }
    requires room { at + 2 * rows ≤ length bytes.now }
    ensures { map (from_le_bytes w16) result.now ≡ codes_in bytes.now rows at }
{
    bytes.split_at(at).1.split_at(2 * rows).0.as_chunks::<2>().0
}

// The bytes of a column of so many bytes a row, after those of the columns before it.
fn part(bytes: &[u8], rows: usize, place: usize, width: usize) -> &[u8]
    requires few { rows ≤ most_batch_rows }
    requires within { place + width ≤ 63 }
    requires room { 12 + 63 * rows ≤ length bytes.now }
    ensures value { result.now ≡ column_bytes place width rows bytes.now }
    ensures many { length result.now ≡ width * rows }
{
    let columns = bytes.split_at(HEADER_BYTES).1;
    columns.split_at(place * rows).1.split_at(width * rows).0
}
