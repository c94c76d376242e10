//! Checking the bytes of a batch.
ghost use Rattle.std.specs.Prelude.{◌≡◌, ◌↔◌, ◌⊎◌, ◌+◌, ◌*◌, ◌≤◌, ◌<◌, ◌^◌, ◌∷◌, [], ℕ, List, length, drop, IfErr};
ghost use Rattle.std.specs.Prelude.{IfOk, IsErr, IsOkUnless, IsTrue};
ghost use Rattle.cube_model.specs.Limits.{most_batch_rows};
ghost use Rattle.cube_model.specs.declared.fault.Fault.{Fault};
ghost use Rattle.cube_model.specs.declared.rows.LineOrder.{LineOrder};
ghost use Rattle.column_kernels.specs.Checks.{all_below};
ghost use Rattle.column_segment.specs.Decoded.{IsDecoded, amounts_in};
ghost use Rattle.column_segment.specs.Reading.{BeginsWithCodes, BeginsWithNoColumn, HasColumn, HasHeader, HasLast};
ghost use Rattle.column_segment.specs.Reading.{HasNumbers, HasTexts, SpellNoTexts, SpellNone};
ghost use Rattle.column_segment.specs.declared.columns.TextColumn.TheVariants.{CommitDate, ShipMode};
ghost use Rattle.column_segment.specs.Segment.{IsSegment};

use crate::columns::Column;
use crate::encoding::NAME;
use crate::layout::{Coded, CodedTexts, HEADER_BYTES, Layout, NUMBER_BYTES, chunks};
use column_kernels::are_amounts;
use cube_model::Fault;
use cube_model::limits::MOST_BATCH_ROWS;
use dictionary::{Dictionary, are_codes};
use std::alloc::Global;
use wire::Cursor;

// The number of a batch, and how many rows it has.
#[derive(Clone, Copy)]
pub(crate) struct Header {
    pub(crate) number: u32,
    pub(crate) rows: usize,
}

// How the bytes of a batch are laid out.
pub(crate) fn read_layout(alloc: Global, bytes: &[u8]) -> Result<Layout, Fault>
    ensures ok { IfOk result (IsDecoded bytes.now) }
    ensures refused { IfErr result (λ fault. (fault ≡ Fault.Memory) ⊎ ((fault ≡ Fault.BadLayout)
        × ((number : ℕ) (rows : List LineOrder) → ¬ IsSegment bytes.now number rows))) }
{
    let header = read_header(bytes)?;
    if !has_numbers(bytes, header.rows) {
        return Err(Fault::BadLayout);
    }
    let texts = read_texts(alloc, bytes, header.rows)?;
    Ok(Layout {
        number: header.number,
        rows: header.rows,
        texts,
    })
}

// What is before the columns.
pub(crate) fn read_header(bytes: &[u8]) -> Result<Header, Fault>
    ensures ok { IfOk result (λ header. HasHeader bytes.now header.number header.rows) }
    ensures fault { IsOkUnless result Fault.BadLayout }
    ensures none { IsErr result → (number rows : ℕ) → ¬ HasHeader bytes.now number rows }
{
    let mut cursor = Cursor::new(bytes);
    if cursor.bytes(4)? != NAME {
        return Err(Fault::BadLayout);
    }
    let number = cursor.u32()?;
    let rows = cursor.u32()? as usize;
    if rows > MOST_BATCH_ROWS {
        return Err(Fault::BadLayout);
    }
    Ok(Header { number, rows })
}

// Whether the columns of numbers are there, with amounts in their range.
fn has_numbers(bytes: &[u8], rows: usize) -> bool
    requires few { rows ≤ most_batch_rows }
    ensures { IsTrue result ↔ HasNumbers bytes.now rows }
{
    if bytes.len() < HEADER_BYTES + NUMBER_BYTES * rows {
        return false;
    }
    fits(bytes, rows, Column::ORDER_KEY)
        & fits(bytes, rows, Column::EXTENDED_PRICE)
        & fits(bytes, rows, Column::ORD_TOTAL_PRICE)
        & fits(bytes, rows, Column::REVENUE)
        & fits(bytes, rows, Column::SUPPLY_COST)
}

// Whether each number of a column is an amount.
pub(crate) fn fits(bytes: &[u8], rows: usize, column: Column<8>) -> bool
    requires few { rows ≤ most_batch_rows }
    requires room { 12 + 63 * rows ≤ length bytes.now }
    ensures { result ≡ all_below (2 ^ 63) (amounts_in bytes.now rows column.name) }
{
    are_amounts(chunks(bytes, rows, column))
}

// Where the columns of texts are, which end with the bytes.
fn read_texts(alloc: Global, bytes: &[u8], rows: usize) -> Result<CodedTexts, Fault>
    requires few { rows ≤ most_batch_rows }
    requires room { 12 + 63 * rows ≤ length bytes.now }
    ensures ok { IfOk result (HasTexts bytes.now rows) }
    ensures refused { IfErr result (λ fault. (fault ≡ Fault.Memory) ⊎ ((fault ≡ Fault.BadLayout)
        × SpellNoTexts rows (drop (12 + 63 * rows) bytes.now))) }
{
    let first = read_first_two(alloc, bytes, rows)?;
    let last = read_last_two(alloc, bytes, first.1.at + 2 * rows, rows)?;
    let (orderpriority, shippriority) = first;
    let (commitdate, shipmode) = last;
    Ok(CodedTexts {
        orderpriority,
        shippriority,
        commitdate,
        shipmode,
    })
}

// Where the first two of them are.
fn read_first_two(alloc: Global, bytes: &[u8], rows: usize) -> Result<(Coded, Coded), Fault>
    requires few { rows ≤ most_batch_rows }
    requires room { 12 + 63 * rows ≤ length bytes.now }
    ensures ok { IfOk result (λ two. HasColumn bytes.now rows (12 + 63 * rows) two.0
        × HasColumn bytes.now rows (two.0.at + 2 * rows) two.1) }
    ensures refused { IfErr result (λ fault. (fault ≡ Fault.Memory) ⊎ ((fault ≡ Fault.BadLayout)
        × SpellNoTexts rows (drop (12 + 63 * rows) bytes.now))) }
{
    let orderpriority = read_column(alloc, bytes, HEADER_BYTES + NUMBER_BYTES * rows, rows)?;
    let shippriority = read_column(alloc, bytes, orderpriority.at + 2 * rows, rows)?;
    Ok((orderpriority, shippriority))
}

// Where the last two of them are, which begin at a place and end with the bytes.
fn read_last_two(
    alloc: Global,
    bytes: &[u8],
    from: usize,
    rows: usize,
) -> Result<(Coded, Coded), Fault>
    requires few { rows ≤ most_batch_rows }
    requires within { from ≤ length bytes.now }
    ensures ok { IfOk result (λ two. HasLast bytes.now rows from two.0 two.1) }
    ensures refused { IfErr result (λ fault. (fault ≡ Fault.Memory) ⊎ ((fault ≡ Fault.BadLayout)
        × SpellNone (CommitDate ∷ ShipMode ∷ []) rows (drop from bytes.now))) }
{
    let commitdate = read_column(alloc, bytes, from, rows)?;
    let shipmode = read_column(alloc, bytes, commitdate.at + 2 * rows, rows)?;
    if shipmode.at + 2 * rows != bytes.len() {
        return Err(Fault::BadLayout);
    }
    Ok((commitdate, shipmode))
}

// Where a column of texts is that begins at a place.
fn read_column(alloc: Global, bytes: &[u8], from: usize, rows: usize) -> Result<Coded, Fault>
    requires few { rows ≤ most_batch_rows }
    requires within { from ≤ length bytes.now }
    ensures ok { IfOk result (HasColumn bytes.now rows from) }
    ensures refused { IfErr result (λ fault. (fault ≡ Fault.Memory) ⊎ ((fault ≡ Fault.BadLayout)
        × BeginsWithNoColumn rows (drop from bytes.now))) }
{
    let mut cursor = Cursor::new(bytes.split_at(from).1);
    let texts = Dictionary::read(alloc, &mut cursor, MOST_BATCH_ROWS as u32)?;
    let at = bytes.len() - cursor.len();
    if !has_codes(bytes.split_at(at).1, rows, texts.len() as u32) {
        return Err(Fault::BadLayout);
    }
    Ok(Coded { texts, at })
}

// Whether bytes begin with the codes of a column, which uses each one below a count.
fn has_codes(bytes: &[u8], rows: usize, count: u32) -> bool
    requires few { rows ≤ most_batch_rows }
    ensures { IsTrue result ↔ BeginsWithCodes bytes.now rows count }
{
    if bytes.len() < 2 * rows {
        return false;
    }
    are_codes(bytes.split_at(2 * rows).0.as_chunks::<2>().0, count)
}
