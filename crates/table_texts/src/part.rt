//! The fields of a line.
ghost use Rattle.std.specs.Prelude.{◌++◌};
ghost use Rattle.table_texts.specs.Parts.{member_part_text};
ghost use Rattle.ssb_reports.specs.Report.{row_text};
ghost use Rattle.ssb_reports.specs.Writing.{Writes};

use cube_model::Fault;
use ssb_reports::{Field, Fields, write_bytes, write_joined, write_number};
use std::io::Write;

/// A text, or a number of rows.
#[derive(Clone, Copy, Drop)]
pub(crate) enum Part<'d> {
    Text(&'d [u8]),
    Rows(usize),
}

impl<'d> Field for Part<'d> {
    ghost text = { member_part_text };

    fn write_to<W: Write>(&self, out: &mut W) -> Result<(), Fault> {
        match *self {
            Part::Text(text) => write_bytes(out, text),
            Part::Rows(number) => write_number(out, number),
        }
    }
}

/// Writes a line of some fields and others after them.
pub(crate) fn write_row<W: Write, F: Fields, G: Fields>(
    out: &mut W,
    fields: &F,
    others: &G,
) -> Result<(), Fault>
    ensures { Writes (W.contents out.old) (W.contents out.new) result
        (row_text (F.texts fields.now ++ G.texts others.now)) }
{
    write_joined(out, b'|', fields, others)?;
    write_bytes(out, b"\n")
}
