//! Rows from the bytes of a batch.
ghost use Rattle.std.specs.Prelude.{◌≡◌, ◌-◌, ◌<◌, ◌≤◌, ◌++◌, [], map, slice_index, slice_index_or, IfOk};
ghost use Rattle.std.specs.Prelude.{IsOkUnless, OnOk};
ghost use Rattle.std.specs.List.{range_with_len};
ghost use Rattle.cube_model.specs.Limits.{most_batch_rows};
ghost use Rattle.column_segment.specs.Decoded.{HasCodes, IsReadable, amounts_in, figures_in, numbers_in, row_in};
ghost use Rattle.column_segment.specs.Decoded.{texts_in};
ghost use Rattle.column_segment.specs.Rows.{figures_of, row_keys_of};

use crate::columns::Column;
use crate::layout::{Coded, Layout, byte_part, chunks};
use cube_model::{Amount, Fault, LineOrder, RowText};
use std::alloc::Global;

// The keys of a row.
#[derive(Clone, Copy)]
struct RowKeys {
    orderkey: Amount,
    linenumber: u32,
    custkey: u32,
    partkey: u32,
    suppkey: u32,
    orderdate: u32,
}

// The figures of a row.
#[derive(Clone, Copy)]
struct RowFigures {
    quantity: u8,
    extendedprice: Amount,
    ordtotalprice: Amount,
    discount: u8,
    revenue: Amount,
    supplycost: Amount,
    tax: u8,
}

// Adds so many rows to others, from a place on.
pub(crate) fn push_each(
    alloc: Global,
    bytes: &[u8],
    layout: &Layout,
    first: usize,
    count: usize,
    to: &mut Vec<LineOrder>,
) -> Result<(), Fault>
    requires readable { IsReadable bytes.now layout.now }
    requires within { count ≤ layout.now.rows - first }
    ensures ok { OnOk result
        (to.new.items ≡ to.old.items ++ map (row_in bytes.now layout.now) (range_with_len first count)) }
    ensures memory { IsOkUnless result Fault.Memory }
{
    for i in 0..count {
        let row = row_at(alloc, bytes, layout, first + i)?;
        to.push(row)?;
    }
    Ok(())
}

// A row.
fn row_at(alloc: Global, bytes: &[u8], layout: &Layout, row: usize) -> Result<LineOrder, Fault>
    requires readable { IsReadable bytes.now layout.now }
    requires within { row < layout.now.rows }
    ensures ok { IfOk result (λ found. found ≡ row_in bytes.now layout.now row) }
    ensures memory { IsOkUnless result Fault.Memory }
{
    let rows = layout.rows;
    let texts = &layout.texts;
    let (orderpriority, shippriority) = two_texts(
        alloc,
        bytes,
        rows,
        &texts.orderpriority,
        &texts.shippriority,
        row,
    )?;
    let (commitdate, shipmode) = two_texts(
        alloc,
        bytes,
        rows,
        &texts.commitdate,
        &texts.shipmode,
        row,
    )?;
    let keys = keys_at(bytes, layout, row);
    let figures = figures_at(bytes, layout, row);
    Ok(LineOrder {
        orderkey: keys.orderkey,
        linenumber: keys.linenumber,
        custkey: keys.custkey,
        partkey: keys.partkey,
        suppkey: keys.suppkey,
        orderdate: keys.orderdate,
        orderpriority,
        shippriority,
        quantity: figures.quantity,
        extendedprice: figures.extendedprice,
        ordtotalprice: figures.ordtotalprice,
        discount: figures.discount,
        revenue: figures.revenue,
        supplycost: figures.supplycost,
        tax: figures.tax,
        commitdate,
        shipmode,
    })
}

// The keys of a row.
fn keys_at(bytes: &[u8], layout: &Layout, row: usize) -> RowKeys
    requires readable { IsReadable bytes.now layout.now }
    requires within { row < layout.now.rows }
    ensures { result ≡ row_keys_of (row_in bytes.now layout.now row) }
{
    RowKeys {
        orderkey: amount_at(bytes, layout, Column::ORDER_KEY, row),
        linenumber: number_at(bytes, layout, Column::LINE_NUMBER, row),
        custkey: number_at(bytes, layout, Column::CUST_KEY, row),
        partkey: number_at(bytes, layout, Column::PART_KEY, row),
        suppkey: number_at(bytes, layout, Column::SUPP_KEY, row),
        orderdate: number_at(bytes, layout, Column::ORDER_DATE, row),
    }
}

// The figures of a row.
fn figures_at(bytes: &[u8], layout: &Layout, row: usize) -> RowFigures
    requires readable { IsReadable bytes.now layout.now }
    requires within { row < layout.now.rows }
    ensures { result ≡ figures_of (row_in bytes.now layout.now row) }
{
    RowFigures {
        quantity: byte_at(bytes, layout, Column::QUANTITY, row),
        extendedprice: amount_at(bytes, layout, Column::EXTENDED_PRICE, row),
        ordtotalprice: amount_at(bytes, layout, Column::ORD_TOTAL_PRICE, row),
        discount: byte_at(bytes, layout, Column::DISCOUNT, row),
        revenue: amount_at(bytes, layout, Column::REVENUE, row),
        supplycost: amount_at(bytes, layout, Column::SUPPLY_COST, row),
        tax: byte_at(bytes, layout, Column::TAX, row),
    }
}

// The amount of a row in a column.
fn amount_at(bytes: &[u8], layout: &Layout, column: Column<8>, row: usize) -> Amount
    requires readable { IsReadable bytes.now layout.now }
    requires within { row < layout.now.rows }
    ensures { result ≡ slice_index (amounts_in bytes.now layout.now.rows column.name) row }
{
    Amount::new(u64::from_le_bytes(chunks(bytes, layout.rows, column)[row]))
}

// The number of a row in a column.
fn number_at(bytes: &[u8], layout: &Layout, column: Column<4>, row: usize) -> u32
    requires readable { IsReadable bytes.now layout.now }
    requires within { row < layout.now.rows }
    ensures { result ≡ slice_index (numbers_in bytes.now layout.now.rows column.name) row }
{
    u32::from_le_bytes(chunks(bytes, layout.rows, column)[row])
}

// The small number of a row in a column.
fn byte_at(bytes: &[u8], layout: &Layout, column: Column<1>, row: usize) -> u8
    requires readable { IsReadable bytes.now layout.now }
    requires within { row < layout.now.rows }
    ensures { result ≡ slice_index (figures_in bytes.now layout.now.rows column.name) row }
{
    byte_part(bytes, layout.rows, column)[row]
}

// The texts of a row in two columns.
fn two_texts(
    alloc: Global,
    bytes: &[u8],
    rows: usize,
    one: &Coded,
    other: &Coded,
    row: usize,
) -> Result<(RowText, RowText), Fault>
    requires few { rows ≤ most_batch_rows }
    requires one { HasCodes bytes.now rows one.now }
    requires other { HasCodes bytes.now rows other.now }
    requires within { row < rows }
    ensures ok { IfOk result (λ texts. (texts.0 ≡ slice_index_or (texts_in bytes.now rows one.now) row [])
        × (texts.1 ≡ slice_index_or (texts_in bytes.now rows other.now) row [])) }
    ensures memory { IsOkUnless result Fault.Memory }
{
    let first = text_at(alloc, bytes, rows, one, row)?;
    let second = text_at(alloc, bytes, rows, other, row)?;
    Ok((first, second))
}

// The text of a row in a column.
fn text_at(
    alloc: Global,
    bytes: &[u8],
    rows: usize,
    coded: &Coded,
    row: usize,
) -> Result<RowText, Fault>
    requires few { rows ≤ most_batch_rows }
    requires codes { HasCodes bytes.now rows coded.now }
    requires within { row < rows }
    ensures ok { IfOk result (λ text. text ≡ slice_index_or (texts_in bytes.now rows coded.now) row []) }
    ensures memory { IsOkUnless result Fault.Memory }
{
    let codes = bytes.split_at(coded.at).1.split_at(2 * rows).0;
    let code = u16::from_le_bytes(codes.as_chunks::<2>().0[row]);
    match coded.texts.text(u32::from(code)) {
        Some(text) => Ok(RowText::from_slice(alloc, text)?),
        None => unreachable!(),
    }
}
