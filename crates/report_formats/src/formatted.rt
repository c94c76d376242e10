//! The report of an answer in a layout.
ghost use Rattle.std.specs.Prelude.{◌≡◌, ◌<◌, ◌++◌, length, None};
ghost use Rattle.std.specs.List.{flat_map};
ghost use Rattle.group_tallies.specs.GroupLines.{line_at};
ghost use Rattle.report_formats.specs.Arranged.{WritesOrLacksMemory};
ghost use Rattle.report_formats.specs.Fields.{footer_text, formatted, formatted_header, laid_out, formatted_line};
ghost use Rattle.report_formats.specs.Fields.{unarranged};
ghost use Rattle.report_formats.specs.Rows.{formatted_row};
ghost use Rattle.ssb_reports.specs.Writing.{Writes};

use crate::asked::Asked;
use crate::fields::{ColumnNames, MemberFields, ValueFields};
use crate::layout::Format;
use cube_model::Fault;
use ssb_reports::{Fields, Lines, flush, write_bytes, write_count, write_joined, write_report};
use std::alloc::Global;
use std::io::Write;

/// Hands a writer the report that is asked for of the lines of its query's answer, and flushes it. It takes memory only
/// for the places of lines in an order.
///
/// `Memory`, before anything is written, and `Output` where the writer fails, after a beginning of the report.
pub fn write_formatted<L: Lines, W: Write>(
    alloc: Global,
    asked: &Asked,
    lines: &L,
    out: &mut W,
) -> Result<(), Fault>
    ensures writes { WritesOrLacksMemory (W.contents out.old) (W.contents out.new) result
        (formatted asked.now (record { lines = L.lines lines.now })) }

    // Without an order no memory is taken.
    ensures free { asked.now.arrangement.sorting ≡ None → Writes (W.contents out.old) (W.contents out.new) result
        (formatted asked.now (record { lines = L.lines lines.now })) }
{
    let arranged = asked.arranged(alloc, lines)?;
    write_unarranged(asked, &arranged, out)
}

// Hands a writer the report that is asked for of lines as they come, and flushes it. It takes no memory.
fn write_unarranged<L: Lines, W: Write>(asked: &Asked, lines: &L, out: &mut W) -> Result<(), Fault>
    ensures { Writes (W.contents out.old) (W.contents out.new) result
        (unarranged asked.now (record { lines = L.lines lines.now })) }
{
    if asked.is_plain() {
        return write_report(&asked.query.query, lines, out);
    }
    write_laid_out(asked, lines, out)?;
    flush(out)
}

// Hands a writer a report with the names of its columns and aggregates, its lines and, with bars, their number.
fn write_laid_out<L: Lines, W: Write>(asked: &Asked, lines: &L, out: &mut W) -> Result<(), Fault>
    ensures { Writes (W.contents out.old) (W.contents out.new) result
        (laid_out asked.now (record { lines = L.lines lines.now })) }
{
    write_header(out, asked)?;
    write_lines(out, asked, lines)?;
    write_footer(out, asked.layout.format, lines.count())
}

fn write_header<W: Write>(out: &mut W, asked: &Asked) -> Result<(), Fault>
    ensures { Writes (W.contents out.old) (W.contents out.new) result (formatted_header asked.now) }
{
    let columns = ColumnNames(&asked.query);
    let aggregates = asked.aggregates.as_slice();
    match asked.layout.format {
        Format::Json => Ok(()),
        format => write_row(out, format, &columns, &aggregates),
    }
}

fn write_lines<L: Lines, W: Write>(out: &mut W, asked: &Asked, lines: &L) -> Result<(), Fault>
    ensures { Writes (W.contents out.old) (W.contents out.new) result
        (flat_map (formatted_line asked.now) (L.lines lines.now)) }
{
    for place in 0..lines.count() {
        write_line(out, asked, lines, place)?;
    }
    Ok(())
}

fn write_line<L: Lines, W: Write>(
    out: &mut W,
    asked: &Asked,
    lines: &L,
    place: usize,
) -> Result<(), Fault>
    requires { place < length (L.lines lines.now) }
    ensures { Writes (W.contents out.old) (W.contents out.new) result
        (formatted_line asked.now (line_at (L.lines lines.now) place)) }
{
    let members = MemberFields {
        asked,
        lines,
        place,
    };
    let values = ValueFields {
        asked,
        lines,
        place,
    };
    write_row(out, asked.layout.format, &members, &values)
}

// Hands a writer a line of some fields and others after them.
fn write_row<W: Write, F: Fields, G: Fields>(
    out: &mut W,
    format: Format,
    fields: &F,
    others: &G,
) -> Result<(), Fault>
    ensures { Writes (W.contents out.old) (W.contents out.new) result
        (formatted_row format (F.texts fields.now ++ G.texts others.now)) }
{
    write_bytes(out, format.opening())?;
    write_joined(out, format.separator(), fields, others)?;
    write_bytes(out, format.ending())
}

fn write_footer<W: Write>(out: &mut W, format: Format, count: usize) -> Result<(), Fault>
    ensures { Writes (W.contents out.old) (W.contents out.new) result (footer_text format count) }
{
    match format {
        Format::Bars => write_count(out, count),
        Format::Csv | Format::Tsv | Format::Json => Ok(()),
    }
}
