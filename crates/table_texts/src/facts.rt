//! The table of fact rows.
ghost use Rattle.std.specs.Prelude.{◌≡◌, ◌&&◌, map};
ghost use Rattle.std.specs.List.{list_all};
ghost use Rattle.ssb_reports.specs.Report.{row_text};
ghost use Rattle.ssb_reports.specs.Writing.{Writes};
ghost use Rattle.table_texts.specs.Cells.{cell_text};
ghost use Rattle.table_texts.specs.Spellable.{WritesTable, has_figures_in_range, has_keys_in_range, has_plain_texts};
ghost use Rattle.table_texts.specs.Spellable.{is_spellable, is_spellable_cell};
ghost use Rattle.table_texts.specs.Texts.{fact_fields, facts_text, key_fields, other_fields};

use crate::cell::{Cell, write_line};
use crate::spellable::{are_fields, ends_in_cr};
use cube_model::{Fault, LineOrder};
use std::io::Write;

/// Hands a writer a line for each fact row. Where one of the rows has a text that no line can hold, it answers
/// `BadLayout` and writes nothing.
///
/// It takes no memory, and does not flush.
pub fn write_facts<W: Write>(rows: &[LineOrder], out: &mut W) -> Result<(), Fault>
    ensures { WritesTable (list_all is_spellable rows.now) (W.contents out.old) (W.contents out.new) result
        (facts_text rows.now) }
{
    if !are_spellable(rows) {
        return Err(Fault::BadLayout);
    }
    write_rows(rows, out)
}

// Whether lines can spell fact rows.
fn are_spellable(rows: &[LineOrder]) -> bool
    ensures { result ≡ list_all is_spellable rows.now }
{
    rows.iter().all(is_spellable)
}

// Whether a line can spell a fact row, of which the ship mode is the last field.
fn is_spellable(row: &LineOrder) -> bool
    ensures { result ≡ is_spellable row.now }
{
    are_fields(&keys_of(row)) && are_fields(&others_of(row)) && !ends_in_cr(row.shipmode.as_slice())
}

fn write_rows<W: Write>(rows: &[LineOrder], out: &mut W) -> Result<(), Fault>
    ensures { Writes (W.contents out.old) (W.contents out.new) result (facts_text rows.now) }
{
    for row in rows {
        write_row(row, out)?;
    }
    Ok(())
}

fn write_row<W: Write>(row: &LineOrder, out: &mut W) -> Result<(), Fault>
    ensures { Writes (W.contents out.old) (W.contents out.new) result (row_text (fact_fields row.now)) }
{
    write_line(out, &keys_of(row), &others_of(row))
}

// The fields of the keys of a fact row.
fn keys_of(row: &LineOrder) -> [Cell<'_>; 6]
    ensures fields { map cell_text result ≡ key_fields row.now }
    ensures spellable { list_all is_spellable_cell result ≡ has_keys_in_range row.now }
{
    [
        Cell::Number(row.orderkey.get()),
        Cell::Number(row.linenumber as u64),
        Cell::Number(row.custkey as u64),
        Cell::Number(row.partkey as u64),
        Cell::Number(row.suppkey as u64),
        Cell::Number(row.orderdate as u64),
    ]
}

// Its other fields.
fn others_of(row: &LineOrder) -> [Cell<'_>; 11]
    ensures fields { map cell_text result ≡ other_fields row.now }
    ensures spellable { list_all is_spellable_cell result ≡ (has_figures_in_range row.now && has_plain_texts row.now) }
{
    [
        Cell::Text(row.orderpriority.as_slice()),
        Cell::Text(row.shippriority.as_slice()),
        Cell::Number(row.quantity as u64),
        Cell::Number(row.extendedprice.get()),
        Cell::Number(row.ordtotalprice.get()),
        Cell::Number(row.discount as u64),
        Cell::Number(row.revenue.get()),
        Cell::Number(row.supplycost.get()),
        Cell::Number(row.tax as u64),
        Cell::Text(row.commitdate.as_slice()),
        Cell::Text(row.shipmode.as_slice()),
    ]
}
