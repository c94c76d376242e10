//! The report of an answer.
ghost use Rattle.std.specs.Prelude.{◌≡◌, ◌++◌, ◌≤◌, drop, length};
ghost use Rattle.std.specs.List.{flat_map, join_with_byte};
ghost use Rattle.ssb_reports.specs.Parted.{parted, lead_after};
ghost use Rattle.ssb_reports.specs.Report.{report_of, row_text, line_text, count_text};
ghost use Rattle.ssb_reports.specs.Writing.{Writes};

use crate::fields::Fields;
use crate::lines::Lines;
use crate::writing::{flush, write_bytes, write_number};
use cube_model::{Fault, Query};
use std::io::Write;

/// Hands a writer the report of a query's answer, and flushes it. It takes no memory.
pub fn write_report<L: Lines, W: Write>(query: &Query, lines: &L, out: &mut W) -> Result<(), Fault>
    ensures { Writes (W.contents out.old) (W.contents out.new) result
        (report_of query.now (record { lines = L.lines lines.now })) }
{
    write_text(query, lines, out)?;
    flush(out)
}

fn write_text<L: Lines, W: Write>(query: &Query, lines: &L, out: &mut W) -> Result<(), Fault>
    ensures { Writes (W.contents out.old) (W.contents out.new) result
        (report_of query.now (record { lines = L.lines lines.now })) }
{
    let columns = query.columns.as_slice();
    let aggregates = query.aggregates.as_slice();
    write_row(out, &columns, &aggregates)?;
    write_lines(out, lines)?;
    write_count(out, lines.count())
}

fn write_lines<L: Lines, W: Write>(out: &mut W, lines: &L) -> Result<(), Fault>
    ensures { Writes (W.contents out.old) (W.contents out.new) result (flat_map line_text (L.lines lines.now)) }
{
    for place in 0..lines.count() {
        lines.write_line(place, out)?;
    }
    Ok(())
}

/// Hands a writer how many lines a report has.
pub fn write_count<W: Write>(out: &mut W, count: usize) -> Result<(), Fault>
    ensures { Writes (W.contents out.old) (W.contents out.new) result (count_text count) }
{
    write_bytes(out, b"rows ")?;
    write_number(out, count)?;
    write_bytes(out, b"\n")
}

/// Writes some fields and others after them, and a line feed.
pub(crate) fn write_row<W: Write, F: Fields, G: Fields>(
    out: &mut W,
    fields: &F,
    others: &G,
) -> Result<(), Fault>
    ensures { Writes (W.contents out.old) (W.contents out.new) result
        (row_text (F.texts fields.now ++ G.texts others.now)) }
{
    write_joined(out, b'|', fields, others)?;
    write_bytes(out, b"\n")
}

/// Writes some fields and others after them, with a separator between each two.
pub fn write_joined<W: Write, F: Fields, G: Fields>(
    out: &mut W,
    separator: u8,
    fields: &F,
    others: &G,
) -> Result<(), Fault>
    ensures { Writes (W.contents out.old) (W.contents out.new) result
        (join_with_byte separator (F.texts fields.now ++ G.texts others.now)) }
{
    let bar = [separator];
    write_fields(out, &bar, b"", fields, 0)?;
    write_fields(out, &bar, lead_after(&bar, fields), others, 0)
}

// Writes the fields from a place on with a bar between each two, and a lead in front of the first.
fn write_fields<W: Write, F: Fields>(
    out: &mut W,
    bar: &[u8],
    lead: &[u8],
    fields: &F,
    place: usize,
) -> Result<(), Fault>
    requires { place ≤ length (F.texts fields.now) }
    ensures { Writes (W.contents out.old) (W.contents out.new) result
        (parted bar.now lead.now (drop place (F.texts fields.now))) }
{
    if place == fields.count() {
        return Ok(());
    }
    write_bytes(out, lead)?;
    fields.write_field(place, out)?;
    write_fields(out, bar, bar, fields, place + 1)
}

// What leads the next field.
fn lead_after<'b, F: Fields>(bar: &'b [u8], fields: &F) -> &'b [u8]
    ensures { result.now ≡ lead_after bar.now (F.texts fields.now) }
{
    if fields.count() == 0 { b"" } else { bar }
}
