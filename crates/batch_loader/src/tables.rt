//! The rows of the five tables.
ghost use Rattle.std.specs.Prelude.{◌≡◌, ◌⊎◌, ◌≤◌, OnOk, IfErr, Err, length};
ghost use Rattle.cube_model.specs.Limits.{longest_line};
ghost use Rattle.batch_loader.specs.Columns.{row_of};
ghost use Rattle.batch_loader.specs.Reading.{AnswersBatch, AnswersRows, AnswersTable, PushesNext, PushesRow};
ghost use Rattle.batch_loader.specs.Reading.{RefusesRow};
ghost use Rattle.batch_loader.specs.Tables.{customer_row, supplier_row, part_row, date_row, lineorder_row};

use crate::lines::Lines;
use crate::row_buffer::RowBuffer;
use crate::rows::TableRow;
use cube_model::{CustomerRow, DateRow, Fault, Items, LineOrder, PartRow, SupplierRow};
use std::alloc::Global;
use std::io::Read;

/// The rows of a customer table, or the first fault of its text.
pub fn read_customers<R: Read>(
    alloc: Global,
    lines: &mut Lines<R>,
) -> Result<Items<CustomerRow>, Fault>
    ensures { AnswersTable customer_row lines.old lines.new result }
{
    read_all(alloc, lines)
}

/// The rows of a supplier table, or the first fault of its text.
pub fn read_suppliers<R: Read>(
    alloc: Global,
    lines: &mut Lines<R>,
) -> Result<Items<SupplierRow>, Fault>
    ensures { AnswersTable supplier_row lines.old lines.new result }
{
    read_all(alloc, lines)
}

/// The rows of a part table, or the first fault of its text.
pub fn read_parts<R: Read>(alloc: Global, lines: &mut Lines<R>) -> Result<Items<PartRow>, Fault>
    ensures { AnswersTable part_row lines.old lines.new result }
{
    read_all(alloc, lines)
}

/// The rows of a date table, or the first fault of its text.
pub fn read_dates<R: Read>(alloc: Global, lines: &mut Lines<R>) -> Result<Items<DateRow>, Fault>
    ensures { AnswersTable date_row lines.old lines.new result }
{
    read_all(alloc, lines)
}

/// The next fact rows, at most `max`, and fewer only at the end of the text; or the first fault of their lines.
pub fn read_batch<R: Read>(
    alloc: Global,
    lines: &mut Lines<R>,
    max: usize,
) -> Result<Items<LineOrder>, Fault>
    ensures { AnswersBatch lineorder_row max lines.old lines.new result }
{
    read_rows(alloc, lines, max, Items::new(alloc))
}

/// The same in the memory of fact rows that are no longer needed.
pub fn read_batch_into<R: Read>(
    alloc: Global,
    lines: &mut Lines<R>,
    max: usize,
    done: Items<LineOrder>,
) -> Result<Items<LineOrder>, Fault>
    ensures { AnswersBatch lineorder_row max lines.old lines.new result }
{
    read_rows(alloc, lines, max, done)
}

// The rows of all lines that are left.
fn read_all<T: TableRow + Drop, R: Read>(
    alloc: Global,
    lines: &mut Lines<R>,
) -> Result<Items<T>, Fault>
    ensures { AnswersTable (row_of T.columns T.of_fields) lines.old lines.new result }
{
    let rows = read_rows(alloc, lines, usize::MAX, Items::new(alloc))?;
    if rows.len() == usize::MAX {
        // So many rows fill any memory, and it is not known whether lines are left.
        return Err(lines.refuse(Fault::Memory));
    }
    Ok(rows)
}

// The rows of the next lines, at most `max`, put over rows that are no longer needed.
fn read_rows<T: TableRow + Drop, R: Read>(
    alloc: Global,
    lines: &mut Lines<R>,
    max: usize,
    done: Items<T>,
) -> Result<Items<T>, Fault>
    ensures { AnswersBatch (row_of T.columns T.of_fields) max lines.old lines.new result }
{
    if let Some(fault) = lines.fault() {
        return Err(fault);
    }
    let mut rows = RowBuffer::over(done);
    for _ in 0..max {
        if !push_row(alloc, lines, &mut rows)? {
            return Ok(rows.into_rows());
        }
    }
    Ok(rows.into_rows())
}

// Puts the row of the next line after some rows. It gives false at the end of the text.
fn push_row<T: TableRow + Drop, R: Read>(
    alloc: Global,
    lines: &mut Lines<R>,
    rows: &mut RowBuffer<T>,
) -> Result<bool, Fault>
    ensures { AnswersRows (row_of T.columns T.of_fields)
        (PushesNext (row_of T.columns T.of_fields) lines.old lines.new rows.old rows.new)
        (RefusesRow (row_of T.columns T.of_fields) lines.old) lines.old lines.new result }
{
    if !lines.advance()? {
        return Ok(false);
    }
    match push_line(alloc, lines.line(), lines.number(), rows) {
        Ok(()) => Ok(true),
        Err(fault) => Err(lines.refuse(fault)),
    }
}

// Puts the row of a line with a number after some rows.
fn push_line<T: TableRow + Drop>(
    alloc: Global,
    line: &[u8],
    number: u64,
    rows: &mut RowBuffer<T>,
) -> Result<(), Fault>
    requires { length line.now ≤ longest_line }
    ensures ok { OnOk result (PushesRow (row_of T.columns T.of_fields number line.now) rows.old rows.new) }
    ensures err { IfErr result
        (λ fault. (fault ≡ Fault.Memory) ⊎ (row_of T.columns T.of_fields number line.now ≡ Err fault)) }
{
    let row = T::read(alloc, line, number)?;
    rows.push(row)?;
    Ok(())
}
