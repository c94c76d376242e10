//! Good lines of the five tables, and patterns of lines that are one edit apart from them.
use crate::plain_rules::Column;
use crate::plain_rules::Column::{Kept, Number, Skipped};
use batch_loader::Table;
use cube_model::Fault;
use std::alloc::Global;

/// A good line of a table, with a bar after each field, and the columns of the table.
#[derive(Clone, Copy)]
pub struct GoodLine {
    pub table: Table,
    pub columns: &'static [Column],
    pub text: &'static [u8],
}

const KEY: Column = Number(4_294_967_295);

const MONEY: Column = Number(9_223_372_036_854_775_807);

const SMALL: Column = Number(255);

pub static GOOD_LINES: [GoodLine; 5] = [
    GoodLine {
        table: Table::Customer,
        columns: &[KEY, Skipped, Skipped, Kept, Kept, Kept, Skipped, Skipped],
        text: b"1|C1|a|UNITED KI1|UNITED KINGDOM|EUROPE|p|M|",
    },
    GoodLine {
        table: Table::Supplier,
        columns: &[KEY, Skipped, Skipped, Kept, Kept, Kept, Skipped],
        text: b"1|S1|a|UNITED KI5|UNITED KINGDOM|EUROPE|p|",
    },
    GoodLine {
        table: Table::Part,
        columns: &[
            KEY, Skipped, Kept, Kept, Kept, Skipped, Skipped, Skipped, Skipped,
        ],
        text: b"1|n|MFGR#1|MFGR#12|MFGR#1210|red|t|7|box|",
    },
    GoodLine {
        table: Table::Date,
        columns: &[
            KEY, Skipped, Skipped, Skipped, Kept, Kept, Kept, Skipped, Skipped, Skipped, Skipped,
            Kept, Skipped, Skipped, Skipped, Skipped, Skipped,
        ],
        text: b"19930105|January 5, 1993|Tuesday|January|1993|199301|Jan1993|3|5|5|1|1|Winter|0|0|0|1|",
    },
    GoodLine {
        table: Table::Lineorder,
        columns: &[
            MONEY, KEY, KEY, KEY, KEY, KEY, Kept, Kept, SMALL, MONEY, MONEY, SMALL, MONEY, MONEY,
            SMALL, Kept, Kept,
        ],
        text: b"1|1|1|1|1|19930105|1-URGENT|0|17|1000|1000|2|980|600|0|19930201|AIR|",
    },
];

/// Numbers at the limits of each column and one past them, and what is no number. Like those below these are patterns,
/// separated by LF, of a line with an edit at one field: `<` is for the fields in front of it and `>` for those after
/// it, with their bars, `*` for the field as it was, `$` for a LF, `?` for each byte in turn, `%` for 300 zeros, `#`
/// for 254 times the letter y, and `~` for what a long line is filled with. Other bytes are for themselves.
static NUMBERS: &[u8] = b"<|>$\n<0|>$\n<00|>$\n<7|>$\n<254|>$\n<255|>$\n<256|>$\n<2550|>$\n\
<4294967294|>$\n<4294967295|>$\n<4294967296|>$\n<42949672950|>$\n\
<9223372036854775806|>$\n<9223372036854775807|>$\n<9223372036854775808|>$\n<92233720368547758070|>$\n\
<18446744073709551615|>$\n<18446744073709551616|>$\n<10000000000000000000|>$\n<99999999999999999999|>$\n\
<0000000000000255|>$\n<00000000000004294967295|>$\n<00000000000009223372036854775807|>$\n\
<00000000000000000000256|>$\n<000000000000000000004294967296|>$\n<000000000000000000009223372036854775808|>$\n\
<00000000000000000007|>$\n<00000000000000000000|>$\n<%5|>$\n<9%|>$\n\
<12345678|>$\n<123456789|>$\n<1234567890123456|>$\n<12345678901234567|>$\n\
<+1|>$\n<-1|>$\n<-0|>$\n< 1|>$\n<1 |>$\n<1.0|>$\n<1e1|>$\n<0x1|>$\n<1_0|>$\n<1,0|>$\n<1\r|>$\n<\r1|>$\n<\r|>$\n\
<\0|>$\n<1\0|>$\n<\xb2|>$\n<\xd9\xa1|>$\n<12345678x|>$\n<x12345678|>$\n<1234567x|>$\n<x1234567|>$";

/// Texts of bytes that mean something elsewhere, and of lengths at their limit and one past it.
static TEXTS: &[u8] =
    b"<|>$\n<a|>$\n< |>$\n<\r|>$\n<\r\r|>$\n<a\rb|>$\n<\0|>$\n<a\0b|>$\n<\"a\"|>$\n\
<#|>$\n<y#|>$\n<yy#|>$\n<\xff#|>$\n<\xff\xff#|>$";

/// Bars that are missing, doubled and after the end, fields that are missing, and ends of each kind.
pub static BARS: &[u8] = b"<*|>$\n<*>$\n<*||>$\n<|*|>$\n<*>|$\n<*>||$\n<>$\n<x|>$\n*|>$\n|>$\n>$\n\
<*|>\n<*|>|$\n<*|>||$\n<*|>x$\n<*|>x|$\n<*|> $\n<*|>\r$\n<*|>\r\r$\n<*|>\r|$\n<*|>|\r$\n<*\r|>\r$\n<\r*|>$\r\n<*|>$$";

/// Lines that are long by what they are filled with.
pub static LONG: &[u8] = b"<~*|>$\n<~*|>\r$\n<*~|>$\n<*~|>\r$";

/// Patterns of fields for a column.
pub fn fields_of(column: Column) -> &'static [u8] {
    if let Number(_) = column {
        NUMBERS
    } else {
        TEXTS
    }
}

/// Patterns of fields with each byte for a column at a place from 0: in a number at several places in two columns, and
/// after a digit in the others; alone in a text that is kept, and in the second column. Others have the good line.
pub fn fields_of_each_byte(column: Column, place: usize) -> &'static [u8] {
    match column {
        Number(_) if place == 0 || place == 8 =>
            b"<?|>$\n<1?|>$\n<?1234567|>$\n<123?5678|>$\n<1234567?9|>$",
        Number(_) => b"<1?|>$",
        Skipped if place != 1 => b"<*|>$",
        Kept | Skipped => b"<?|>$",
    }
}

/// An edit of a line at a field.
#[derive(Clone, Copy)]
pub struct Edit<'a> {
    pub pattern: &'a [u8],
    /// What a long line is filled with: a byte, and how often.
    pub fill: (u8, usize),
}

impl Edit<'_> {
    /// The last byte of those that are put in turn.
    pub fn last_byte(&self) -> u8 {
        if self.pattern.contains(&b'?') { 255 } else { 0 }
    }

    /// In pieces of how many bytes the line is read, where it is cut.
    pub fn pieces(&self) -> &'static [usize] {
        if self.fill.1 > 0 {
            &[usize::MAX, 1000]
        } else if self.last_byte() > 0 {
            &[usize::MAX]
        } else {
            &[usize::MAX, 1]
        }
    }
}

/// Adds some of the fields of a line, with their bars.
fn put_fields(text: &mut Vec<u8>, line: &GoodLine, from: usize, count: usize) -> Result<(), Fault> {
    let fields = line.text.split_inclusive(|byte| *byte == b'|');
    for field in fields.skip(from).take(count) {
        text.extend_from_slice(field)?;
    }
    Ok(())
}

/// Adds what a byte of a pattern means.
fn put(
    text: &mut Vec<u8>,
    line: &GoodLine,
    place: usize,
    edit: &Edit<'_>,
    pattern: u8,
    any: u8,
) -> Result<(), Fault> {
    let (byte, count) = match pattern {
        b'<' => return put_fields(text, line, 0, place),
        b'>' => return put_fields(text, line, place.saturating_add(1), usize::MAX),
        b'*' => return put_field(text, line, place),
        b'$' => (b'\n', 1),
        b'?' => (any, 1),
        b'%' => (b'0', 300),
        b'#' => (b'y', 254),
        b'~' => edit.fill,
        other => (other, 1),
    };
    text.resize(text.len().saturating_add(count), byte)?;
    Ok(())
}

/// Adds a field of a line without its bar.
fn put_field(text: &mut Vec<u8>, line: &GoodLine, place: usize) -> Result<(), Fault> {
    put_fields(text, line, place, 1)?;
    text.pop();
    Ok(())
}

/// The text of a line with an edit at a place, for each byte in turn.
pub fn edited(
    alloc: Global,
    line: &GoodLine,
    place: usize,
    edit: &Edit<'_>,
    any: u8,
) -> Result<Vec<u8>, Fault> {
    let mut text = Vec::new(alloc);
    for pattern in edit.pattern {
        put(&mut text, line, place, edit, *pattern, any)?;
    }
    Ok(text)
}

/// Whether a long line is cut at each byte that it is filled with: one of the longest lines that are read, or of a byte
/// more.
fn is_cut_everywhere(line: &GoodLine, edit: &Edit<'_>) -> bool {
    let (byte, count) = edit.fill;
    byte == b'y' && (8_192..=8_193).contains(&line.text.len().saturating_add(count))
}

/// From how many bytes on a text is cut: those in front of the edit are left out, where the cuts are those of the good
/// line, and of most long lines all but the last 20 that they are filled with.
pub fn first_cut(line: &GoodLine, place: usize, edit: &Edit<'_>) -> usize {
    if edit.pattern.first() != Some(&b'<') {
        return 0;
    }
    let fields = line.text.split_inclusive(|byte| *byte == b'|');
    let front = fields
        .take(place)
        .fold(0usize, |sum, field| sum.saturating_add(field.len()));
    if is_cut_everywhere(line, edit) {
        return front;
    }
    front.saturating_add(edit.fill.1.saturating_sub(20))
}
