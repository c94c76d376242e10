//! Reading columns of a batch, and nothing else of it.
ghost use Rattle.std.specs.Prelude.{◌≡◌, ◌↔◌, ◌+◌, ◌*◌, ◌≤◌, ◌<◌, ℕ, All, List, Some, length, slice_index, IfOk};
ghost use Rattle.std.specs.Prelude.{IsErrOf, IsSomeAnd, IsTrue, OnOk};
ghost use Rattle.std.specs.List.{AllByRecursion};
ghost use Rattle.cube_model.specs.Limits.{most_batch_rows};
ghost use Rattle.cube_model.specs.declared.fault.Fault.{Fault};
ghost use Rattle.wire.specs.Runs.{ReadsSource, ReadsSourceOr};
ghost use Rattle.column_segment.specs.declared.columns.FactColumn.{FactColumn};
ghost use Rattle.column_segment.specs.Decoded.{HoldsColumns};
ghost use Rattle.column_segment.specs.Reading.{HasHeader, HasNumbers};
ghost use Rattle.column_segment.specs.Projected.{FitsColumnIn, HasColumns, HoldsNoneOf, ShareColumn};
ghost use Rattle.column_segment.specs.Projected.{StaysOutside};

use crate::columns::{Column, FactColumn};
use crate::layout::{HEADER_BYTES, Layout, NUMBER_BYTES};
use crate::reading::{fits, read_header};
use cube_model::Fault;
use wire::{Source, read_part};

// Up to how many bytes the header of a batch and its columns of numbers are read at once: those of a few sectors.
const AT_ONCE_BYTES: usize = 4096;

/// Reads columns of the batch of a number and of so many rows that a source has at an id, each to its place.
pub(crate) fn read_columns<S: Source>(
    source: &mut S,
    id: u32,
    number: u32,
    bytes: &mut [u8],
    rows: usize,
    columns: &[FactColumn],
) -> Result<(), Fault>
    requires holds { HoldsColumns bytes.old rows }
    ensures found { OnOk result
        (S.keeps_word source.new → IsSomeAnd (S.texts source.old id) (λ text. HasColumns text number rows
        × AllByRecursion (ShareColumn rows bytes.new text) columns.now)) }
    ensures checked { OnOk result
        (S.keeps_word source.new → IsSomeAnd (S.texts source.old id) (λ text. HasColumns text number rows
        × AllByRecursion (FitsColumnIn text rows) columns.now)) }
    ensures refused { IsErrOf result Fault.BadLayout → S.keeps_word source.new
        → HoldsNoneOf (S.texts source.old id) number rows }
    ensures run { ReadsSourceOr S.Source (λ fault. fault ≡ Fault.BadLayout) source.old source.new result }
{
    if HEADER_BYTES + NUMBER_BYTES * rows <= AT_ONCE_BYTES {
        return read_at_once(source, id, number, bytes, rows, columns);
    }
    if !has_columns(source, id, number, rows)? {
        return Err(Fault::BadLayout);
    }
    for i in 0..columns.len() {
        read_column(source, id, bytes, rows, columns[i])?;
    }
    Ok(())
}

// Reads the header and all columns of numbers at once, each to its place, and checks the header and the columns asked
// for.
fn read_at_once<S: Source>(
    source: &mut S,
    id: u32,
    number: u32,
    bytes: &mut [u8],
    rows: usize,
    columns: &[FactColumn],
) -> Result<(), Fault>
    requires holds { HoldsColumns bytes.old rows }
    ensures found { OnOk result
        (S.keeps_word source.new → IsSomeAnd (S.texts source.old id) (λ text. HasColumns text number rows
        × AllByRecursion (ShareColumn rows bytes.new text) columns.now)) }
    ensures checked { OnOk result
        (S.keeps_word source.new → IsSomeAnd (S.texts source.old id) (λ text. HasColumns text number rows
        × AllByRecursion (FitsColumnIn text rows) columns.now)) }
    ensures refused { IsErrOf result Fault.BadLayout → S.keeps_word source.new
        → HoldsNoneOf (S.texts source.old id) number rows }
    ensures run { ReadsSourceOr S.Source (λ fault. fault ≡ Fault.BadLayout) source.old source.new result }
{
    if !has_room(source, id, rows) {
        return Err(Fault::BadLayout);
    }
    read_over(source, id, bytes, 0, HEADER_BYTES + NUMBER_BYTES * rows)?;
    if !is_front(bytes, number, rows, columns) {
        return Err(Fault::BadLayout);
    }
    Ok(())
}

// Whether bytes begin with the header of a batch of a number and of so many rows, and each number of some columns is
// one.
fn is_front(bytes: &[u8], number: u32, rows: usize, columns: &[FactColumn]) -> bool
    requires holds { HoldsColumns bytes.now rows }
    ensures { IsTrue result ↔ (HasHeader bytes.now number rows × All (FitsColumnIn bytes.now rows) columns.now) }
{
    is_header(bytes, number, rows) && fit_columns(bytes, rows, columns)
}

// Whether each number of some columns is one.
fn fit_columns(bytes: &[u8], rows: usize, columns: &[FactColumn]) -> bool
    requires holds { HoldsColumns bytes.now rows }
    ensures { IsTrue result ↔ All (FitsColumnIn bytes.now rows) columns.now }
{
    columns
        .iter()
        .all(|column| fits_column(bytes, rows, *column))
}

// Whether a source has at an id a text with room for the header and the columns of numbers of so many rows.
fn has_room<S: Source>(source: &S, id: u32, rows: usize) -> bool
    requires few { rows ≤ most_batch_rows }
    ensures total { IsTrue result → IsSomeAnd (S.totals source.now id) (λ total. 12 + 63 * rows ≤ total) }
    ensures text { IsTrue result → S.keeps_word source.now
        → IsSomeAnd (S.texts source.now id) (λ text. 12 + 63 * rows ≤ length text) }
    ensures none { (IsTrue result → ⊥) → S.keeps_word source.now → (text : List ℕ) → S.texts source.now id ≡ Some text
        → 12 + 63 * rows ≤ length text → ⊥ }
{
    match source.total(id) {
        Some(total) => (HEADER_BYTES + NUMBER_BYTES * rows) as u64 <= total,
        None => false,
    }
}

// Whether a source has at an id the header of a batch of a number and of so many rows, and room after it for the
// columns of numbers.
fn has_columns<S: Source>(source: &mut S, id: u32, number: u32, rows: usize) -> Result<bool, Fault>
    requires few { rows ≤ most_batch_rows }
    ensures room { IfOk result
        (λ yes. IsTrue yes → IsSomeAnd (S.totals source.old id) (λ total. 12 + 63 * rows ≤ total)) }
    ensures found { IfOk result (λ yes. IsTrue yes → S.keeps_word source.new
        → IsSomeAnd (S.texts source.old id) (λ text. HasColumns text number rows)) }
    ensures none { IfOk result (λ yes. (IsTrue yes → ⊥) → S.keeps_word source.new → (text : List ℕ)
        → S.texts source.old id ≡ Some text
        → HasColumns text number rows → ⊥) }
    ensures run { ReadsSource S.Source source.old source.new result }
{
    if !has_room(source, id, rows) {
        return Ok(false);
    }
    let mut header = [0; HEADER_BYTES];
    read_part(source, id, 0, &mut header)?;
    Ok(is_header(&header, number, rows))
}

// Whether bytes begin with the header of a batch of a number and of so many rows.
fn is_header(bytes: &[u8], number: u32, rows: usize) -> bool
    ensures { IsTrue result ↔ HasHeader bytes.now number rows }
{
    match read_header(bytes) {
        Ok(header) => header.number == number && header.rows == rows,
        Err(_) => false,
    }
}

// Reads one column to its place.
fn read_column<S: Source>(
    source: &mut S,
    id: u32,
    bytes: &mut [u8],
    rows: usize,
    column: FactColumn,
) -> Result<(), Fault>
    requires holds { HoldsColumns bytes.old rows }
    requires room { IsSomeAnd (S.totals source.old id) (λ total. 12 + 63 * rows ≤ total) }
    ensures found { OnOk result (S.keeps_word source.new → (text : List ℕ) → S.texts source.old id ≡ Some text
        → 12 + 63 * rows ≤ length text
        → ShareColumn rows bytes.new text column × FitsColumnIn text rows column
        × ((other : FactColumn) → ShareColumn rows bytes.old text other → ShareColumn rows bytes.new text other)) }
    ensures refused { IsErrOf result Fault.BadLayout → S.keeps_word source.new → (text : List ℕ)
        → S.texts source.old id ≡ Some text
        → HasNumbers text rows → ⊥ }
    ensures run { ReadsSourceOr S.Source (λ fault. fault ≡ Fault.BadLayout) source.old source.new result }
{
    let at = HEADER_BYTES + column.place() * rows;
    read_over(source, id, bytes, at, column.width() * rows)?;
    if !fits_column(bytes, rows, column) {
        return Err(Fault::BadLayout);
    }
    Ok(())
}

// Reads a part of a text over the bytes at the same place.
fn read_over<S: Source>(
    source: &mut S,
    id: u32,
    bytes: &mut [u8],
    at: usize,
    count: usize,
) -> Result<(), Fault>
    requires within { at + count ≤ length bytes.old }
    requires room { IsSomeAnd (S.totals source.old id) (λ total. at + count ≤ total) }
    ensures outside { StaysOutside at count bytes.old bytes.new }
    ensures inside { OnOk result (S.keeps_word source.new → (text : List ℕ) → S.texts source.old id ≡ Some text
        → (place : ℕ) → place < count → slice_index bytes.new (at + place) ≡ slice_index text (at + place)) }
    ensures run { ReadsSource S.Source source.old source.new result }
{
    read_part(source, id, at as u64, &mut bytes[at..at + count])
}

// Whether each number of a column is one: those of all but the amounts are.
fn fits_column(bytes: &[u8], rows: usize, column: FactColumn) -> bool
    requires holds { HoldsColumns bytes.now rows }
    ensures { IsTrue result ↔ FitsColumnIn bytes.now rows column }
{
    column.width() != 8 || fits(bytes, rows, Column { name: column })
}
