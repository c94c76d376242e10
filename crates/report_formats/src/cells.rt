//! What is written of a member and of a value.
ghost use Rattle.std.specs.Prelude.{◌++◌, codes, option_map};
ghost use Rattle.mode_queries.specs.Joining.{member_of};
ghost use Rattle.report_formats.specs.Fields.{all_in, average_text, counted_text, member_field};
ghost use Rattle.report_formats.specs.Fields.{formatted_member};
ghost use Rattle.report_formats.specs.Fields.{name_text, number_text, formatted_text, value_field};
ghost use Rattle.ssb_reports.specs.Report.{value_text};
ghost use Rattle.ssb_reports.specs.Writing.{Writes};

use crate::decimals::write_decimal;
use crate::escapes::{Escaping, write_csv_text, write_escaped, write_json_text};
use crate::layout::{Format, Layout};
use cube_model::{Agg, Fault, Value};
use ssb_reports::{Field, write_bytes};
use std::io::Write;

/// The name of a column.
#[derive(Clone, Copy)]
struct ColumnName<'a>(&'a str);

impl<'a> Field for ColumnName<'a> {
    ghost text = { λ name. name.0.now };

    fn write_to<W: Write>(&self, out: &mut W) -> Result<(), Fault> {
        write_bytes(out, self.0.as_bytes())
    }
}

/// Hands a writer the field of the column of a name: none is ALL.
pub(crate) fn write_member_field<W: Write>(
    out: &mut W,
    format: Format,
    column: &str,
    text: Option<&[u8]>,
) -> Result<(), Fault>
    ensures { Writes (W.contents out.old) (W.contents out.new) result
        (member_field format (column.now, member_of (option_map (λ one. one.now) text.entry))) }
{
    write_name(out, format, &ColumnName(column))?;
    write_member(out, format, text)
}

// Hands a writer a member: none is ALL.
fn write_member<W: Write>(out: &mut W, format: Format, text: Option<&[u8]>) -> Result<(), Fault>
    ensures { Writes (W.contents out.old) (W.contents out.new) result
        (formatted_member format (member_of (option_map (λ one. one.now) text.entry))) }
{
    match text {
        Some(text) => write_text(out, format, text),
        None => write_all(out, format),
    }
}

/// Hands a writer the field of an aggregate, with the count of the rows where that is asked for.
pub(crate) fn write_value_field<W: Write>(
    out: &mut W,
    layout: Layout,
    agg: Agg,
    value: Value,
    count: Value,
) -> Result<(), Fault>
    ensures { Writes (W.contents out.old) (W.contents out.new) result (value_field layout count (agg, value)) }
{
    write_name(out, layout.format, &agg)?;
    write_counted(out, layout, agg, value, count)
}

// Hands a writer a value of an aggregate, with the count of the rows where that is asked for.
fn write_counted<W: Write>(
    out: &mut W,
    layout: Layout,
    agg: Agg,
    value: Value,
    count: Value,
) -> Result<(), Fault>
    ensures { Writes (W.contents out.old) (W.contents out.new) result (counted_text layout count (agg, value)) }
{
    if layout.counts_averages() && agg.is_average() {
        write_average(out, value, count)
    } else {
        write_value(out, layout.decimals, value)
    }
}

// Hands a writer the name of a field, where each line has it.
fn write_name<W: Write, F: Field>(out: &mut W, format: Format, name: &F) -> Result<(), Fault>
    ensures { Writes (W.contents out.old) (W.contents out.new) result (name_text format (F.text name.now)) }
{
    match format {
        Format::Json => write_json_name(out, name),
        Format::Bars | Format::Csv | Format::Tsv => Ok(()),
    }
}

fn write_json_name<W: Write, F: Field>(out: &mut W, name: &F) -> Result<(), Fault>
    ensures { Writes (W.contents out.old) (W.contents out.new) result (codes "\"" ++ (F.text name.now ++ codes "\":")) }
{
    write_bytes(out, b"\"")?;
    name.write_to(out)?;
    write_bytes(out, b"\":")
}

fn write_text<W: Write>(out: &mut W, format: Format, text: &[u8]) -> Result<(), Fault>
    ensures { Writes (W.contents out.old) (W.contents out.new) result (formatted_text format text.now) }
{
    match format {
        Format::Bars => write_bytes(out, text),
        Format::Csv => write_csv_text(out, text),
        Format::Tsv => write_escaped(out, Escaping::Tabbed, text),
        Format::Json => write_json_text(out, text),
    }
}

fn write_all<W: Write>(out: &mut W, format: Format) -> Result<(), Fault>
    ensures { Writes (W.contents out.old) (W.contents out.new) result (all_in format) }
{
    match format {
        Format::Bars => write_bytes(out, b"ALL"),
        Format::Csv | Format::Tsv => Ok(()),
        Format::Json => write_bytes(out, b"null"),
    }
}

// Hands a writer an average by its sum and its count.
fn write_average<W: Write>(out: &mut W, sum: Value, count: Value) -> Result<(), Fault>
    ensures { Writes (W.contents out.old) (W.contents out.new) result (average_text sum count) }
{
    write_after(out, b"{\"sum\":", sum)?;
    write_after(out, b",\"count\":", count)?;
    write_bytes(out, b"}")
}

// Hands a writer a name and a value after it.
fn write_after<W: Write>(out: &mut W, name: &[u8], value: Value) -> Result<(), Fault>
    ensures { Writes (W.contents out.old) (W.contents out.new) result (name.now ++ value_text value) }
{
    write_bytes(out, name)?;
    value.write_to(out)
}

fn write_value<W: Write>(out: &mut W, decimals: Option<u32>, value: Value) -> Result<(), Fault>
    ensures { Writes (W.contents out.old) (W.contents out.new) result (number_text decimals value) }
{
    match (decimals, value) {
        (Some(digits), Value::Ratio(fraction)) => write_decimal(out, digits.min(18), fraction),
        (_, value) => value.write_to(out),
    }
}
