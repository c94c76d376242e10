//! The columns of numbers of a batch while its rows are added, a piece at a time: the bytes of each row's number, a
//! vector a column.
ghost use Rattle.std.specs.Prelude.{◌≡◌, ◌≤◌, ◌++◌, [], List, length, IfOk, IsOkUnless, OnOk};
ghost use Rattle.std.specs.List.{flat_map};
ghost use Rattle.cube_model.specs.declared.rows.LineOrder.{LineOrder};
ghost use Rattle.column_segment.specs.Columns.{figure_columns, key_columns};
ghost use Rattle.column_segment.specs.Encoding.{PutsColumn};
ghost use Rattle.column_segment.specs.Segment.{number_column};

use crate::columns::Column;
use cube_model::{Fault, LineOrder};
use std::alloc::Global;
use wire::push_bytes;

// How many rows are added at once, column by column: so many lie near the processor until the last column has them.
pub(crate) const PIECE: usize = 256;

/// The keys of rows.
#[derive(Drop)]
pub(crate) struct Keys {
    orderkey: Vec<[u8; 8]>,
    linenumber: Vec<[u8; 4]>,
    custkey: Vec<[u8; 4]>,
    partkey: Vec<[u8; 4]>,
    suppkey: Vec<[u8; 4]>,
    orderdate: Vec<[u8; 4]>,
}

impl Keys {
    ghost use Rattle.column_segment.specs.Encoding.{HaveKeys};

    // Those of no row, with room for so many.
    pub(crate) fn new(alloc: Global, rows: usize) -> Result<Keys, Fault>
        ensures ok { IfOk result (HaveKeys []) }
        ensures memory { IsOkUnless result Fault.Memory }
    {
        Ok(Keys {
            orderkey: Vec::with_capacity(alloc, rows)?,
            linenumber: Vec::with_capacity(alloc, rows)?,
            custkey: Vec::with_capacity(alloc, rows)?,
            partkey: Vec::with_capacity(alloc, rows)?,
            suppkey: Vec::with_capacity(alloc, rows)?,
            orderdate: Vec::with_capacity(alloc, rows)?,
        })
    }

    // How many rows there are.
    pub(crate) fn len(&self) -> usize
        ensures { (rows : List LineOrder) → HaveKeys rows self.now → result ≡ length rows }
    {
        self.orderkey.len()
    }

    // Adds those of a piece of rows.
    pub(crate) fn push(&mut self, rows: &[LineOrder]) -> Result<(), Fault>
        requires piece { length rows.now ≤ PIECE }
        ensures ok { OnOk result ((before : List LineOrder) → HaveKeys before self.old
            → HaveKeys (before ++ rows.now) self.new) }
        ensures memory { IsOkUnless result Fault.Memory }
    {
        put(&mut self.orderkey, rows, Column::ORDER_KEY)?;
        put(&mut self.linenumber, rows, Column::LINE_NUMBER)?;
        put(&mut self.custkey, rows, Column::CUST_KEY)?;
        put(&mut self.partkey, rows, Column::PART_KEY)?;
        put(&mut self.suppkey, rows, Column::SUPP_KEY)?;
        put(&mut self.orderdate, rows, Column::ORDER_DATE)
    }

    // Adds the columns to bytes.
    pub(crate) fn push_to(&self, out: &mut Vec<u8>) -> Result<(), Fault>
        ensures ok { OnOk result ((rows : List LineOrder) → HaveKeys rows self.now
            → out.new.items ≡ out.old.items ++ flat_map (number_column rows) key_columns) }
        ensures memory { IsOkUnless result Fault.Memory }
    {
        push_column(out, &self.orderkey)?;
        push_column(out, &self.linenumber)?;
        push_column(out, &self.custkey)?;
        push_column(out, &self.partkey)?;
        push_column(out, &self.suppkey)?;
        push_column(out, &self.orderdate)
    }
}

/// The figures of rows.
#[derive(Drop)]
pub(crate) struct Figures {
    quantity: Vec<[u8; 1]>,
    extendedprice: Vec<[u8; 8]>,
    ordtotalprice: Vec<[u8; 8]>,
    discount: Vec<[u8; 1]>,
    revenue: Vec<[u8; 8]>,
    supplycost: Vec<[u8; 8]>,
    tax: Vec<[u8; 1]>,
}

impl Figures {
    ghost use Rattle.column_segment.specs.Encoding.{HaveFigures};

    // Those of no row, with room for so many.
    pub(crate) fn new(alloc: Global, rows: usize) -> Result<Figures, Fault>
        ensures ok { IfOk result (HaveFigures []) }
        ensures memory { IsOkUnless result Fault.Memory }
    {
        Ok(Figures {
            quantity: Vec::with_capacity(alloc, rows)?,
            extendedprice: Vec::with_capacity(alloc, rows)?,
            ordtotalprice: Vec::with_capacity(alloc, rows)?,
            discount: Vec::with_capacity(alloc, rows)?,
            revenue: Vec::with_capacity(alloc, rows)?,
            supplycost: Vec::with_capacity(alloc, rows)?,
            tax: Vec::with_capacity(alloc, rows)?,
        })
    }

    // Adds those of a piece of rows.
    pub(crate) fn push(&mut self, rows: &[LineOrder]) -> Result<(), Fault>
        requires piece { length rows.now ≤ PIECE }
        ensures ok { OnOk result ((before : List LineOrder) → HaveFigures before self.old
            → HaveFigures (before ++ rows.now) self.new) }
        ensures memory { IsOkUnless result Fault.Memory }
    {
        put(&mut self.quantity, rows, Column::QUANTITY)?;
        put(&mut self.extendedprice, rows, Column::EXTENDED_PRICE)?;
        put(&mut self.ordtotalprice, rows, Column::ORD_TOTAL_PRICE)?;
        put(&mut self.discount, rows, Column::DISCOUNT)?;
        put(&mut self.revenue, rows, Column::REVENUE)?;
        put(&mut self.supplycost, rows, Column::SUPPLY_COST)?;
        put(&mut self.tax, rows, Column::TAX)
    }

    // Adds the columns to bytes.
    pub(crate) fn push_to(&self, out: &mut Vec<u8>) -> Result<(), Fault>
        ensures ok { OnOk result ((rows : List LineOrder) → HaveFigures rows self.now
            → out.new.items ≡ out.old.items ++ flat_map (number_column rows) figure_columns) }
        ensures memory { IsOkUnless result Fault.Memory }
    {
        push_column(out, &self.quantity)?;
        push_column(out, &self.extendedprice)?;
        push_column(out, &self.ordtotalprice)?;
        push_column(out, &self.discount)?;
        push_column(out, &self.revenue)?;
        push_column(out, &self.supplycost)?;
        push_column(out, &self.tax)
    }
}

// Adds what the rows of a piece have in a column.
#[inline(always)]
fn put<const WIDTH: usize>(
    to: &mut Vec<[u8; WIDTH]>,
    rows: &[LineOrder],
    column: Column<WIDTH>,
) -> Result<(), Fault>
    requires piece { length rows.now ≤ PIECE }
    ensures ok { OnOk result (PutsColumn column.entry.name rows.now to.old.items to.new.items) }
    ensures memory { IsOkUnless result Fault.Memory }
{
    let mut chunks = [[0u8; WIDTH]; PIECE];
    for (place, row) in rows.iter().enumerate() {
        chunks[place] = column.bytes_of(row);
    }
    to.extend_from_slice(&chunks[..rows.len()])?;
    Ok(())
}

/// Adds a column to bytes.
pub(crate) fn push_column<const N: usize>(
    out: &mut Vec<u8>,
    column: &[[u8; N]],
) -> Result<(), Fault>
    ensures ok { OnOk result (out.new.items ≡ out.old.items ++ flat_map (λ bytes. bytes) column.now) }
    ensures memory { IsOkUnless result Fault.Memory }
{
    push_bytes(out, column.as_flattened())
}
