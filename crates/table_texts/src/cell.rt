//! The fields of a line.
ghost use Rattle.std.specs.Prelude.{◌++◌, map};
ghost use Rattle.ssb_reports.specs.Report.{row_text};
ghost use Rattle.ssb_reports.specs.Writing.{Writes};
ghost use Rattle.table_texts.specs.Cells.{cell_text};

use cube_model::Fault;
use ssb_reports::{Field, write_bytes, write_joined, write_number};
use std::io::Write;

/// A field of a line.
#[derive(Clone, Copy, Drop)]
pub(crate) enum Cell<'r> {
    Number(u64),
    Text(&'r [u8]),
}

impl<'r> Field for Cell<'r> {
    ghost text = { cell_text };

    fn write_to<W: Write>(&self, out: &mut W) -> Result<(), Fault> {
        match *self {
            Cell::Number(number) => write_number(out, number),
            Cell::Text(text) => write_bytes(out, text),
        }
    }
}

/// Writes a line of some fields and others after them.
pub(crate) fn write_line<W: Write>(
    out: &mut W,
    cells: &[Cell<'_>],
    others: &[Cell<'_>],
) -> Result<(), Fault>
    ensures { Writes (W.contents out.old) (W.contents out.new) result
        (row_text (map cell_text cells.now ++ map cell_text others.now)) }
{
    write_joined(out, b'|', &cells, &others)?;
    write_bytes(out, b"\n")
}
