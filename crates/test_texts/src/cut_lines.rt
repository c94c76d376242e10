//! Lines that are one edit apart from good ones, cut at each place.
use crate::edited_lines::{
    BARS, Edit, GOOD_LINES, GoodLine, LONG, edited, fields_of, fields_of_each_byte, first_cut,
};
use crate::plain_rules::{Column, KeptRow, are_of, first_fault};
use batch_loader::{
    Lines, Table, read_batch, read_customers, read_dates, read_parts, read_suppliers,
};
use cube_model::{Fault, Items};
use sample_star::in_pieces;
use std::alloc::Global;

/// How many texts and cuts were read, and the first cut that was not read as the rules say: the place of its edit, its
/// byte, and how many bytes it has.
#[derive(Clone, Copy, PartialEq, Eq)]
struct Tally {
    texts: u32,
    cuts: usize,
    wrong: Option<(usize, u8, usize)>,
}

const NOTHING: Tally = Tally {
    texts: 0,
    cuts: 0,
    wrong: None,
};

/// Whether rows, or a fault, are what the rules make of a text.
fn is_right<R: KeptRow + Drop>(
    columns: &[Column],
    text: &[u8],
    found: Result<Items<R>, Fault>,
) -> bool {
    match (found, first_fault(columns, text)) {
        (Ok(rows), None) => are_of(columns, text, rows.as_slice()),
        (Err(fault), Some(wanted)) => fault == wanted,
        _ => false,
    }
}

/// Whether a text is read as the rules say, in pieces of so many bytes.
fn is_read(alloc: Global, line: &GoodLine, text: &[u8], piece: usize) -> Result<bool, Fault> {
    let mut lines = Lines::new(alloc, in_pieces(text, piece.max(1)))?;
    let columns = line.columns;
    Ok(match line.table {
        Table::Customer => is_right(columns, text, read_customers(alloc, &mut lines)),
        Table::Supplier => is_right(columns, text, read_suppliers(alloc, &mut lines)),
        Table::Part => is_right(columns, text, read_parts(alloc, &mut lines)),
        Table::Date => is_right(columns, text, read_dates(alloc, &mut lines)),
        Table::Lineorder => is_right(columns, text, read_batch(alloc, &mut lines, 9)),
    })
}

/// The first place from some bytes on at which a text that ends there is not read as the rules say, if there is one.
fn first_wrong(
    alloc: Global,
    line: &GoodLine,
    text: &[u8],
    from: usize,
    pieces: &[usize],
) -> Result<Option<usize>, Fault> {
    for end in from..text.len().saturating_add(1) {
        let cut = text.get(..end).unwrap_or(text);
        for piece in pieces {
            if !is_read(alloc, line, cut, *piece)? {
                return Ok(Some(end));
            }
        }
    }
    Ok(None)
}

/// Reads the cuts of a line with an edit at a place, for each byte if the edit has a place for one.
fn cut_edit(
    alloc: Global,
    line: &GoodLine,
    place: usize,
    edit: &Edit<'_>,
    tally: &mut Tally,
) -> Result<(), Fault> {
    let from = first_cut(line, place, edit);
    for byte in 0..=edit.last_byte() {
        let text = edited(alloc, line, place, edit, byte)?;
        let wrong = first_wrong(alloc, line, text.as_slice(), from, edit.pieces())?;
        let cuts = text.len().saturating_sub(from).saturating_add(1);
        tally.texts = tally.texts.saturating_add(1);
        tally.cuts = tally.cuts.saturating_add(cuts);
        tally.wrong = tally.wrong.or(wrong.map(|end| (place, byte, end)));
    }
    Ok(())
}

/// Reads the cuts of a line with each of some patterns at a place.
fn cut_patterns(
    alloc: Global,
    line: &GoodLine,
    place: usize,
    patterns: &[u8],
    fill: (u8, usize),
    tally: &mut Tally,
) -> Result<(), Fault> {
    for pattern in patterns.split(|byte| *byte == b'\n') {
        let edit = Edit { pattern, fill };
        cut_edit(alloc, line, place, &edit, tally)?;
    }
    Ok(())
}

/// Reads the cuts of a line with each edit at each of its fields.
fn cut_line(alloc: Global, line: &GoodLine) -> Result<Tally, Fault> {
    let mut tally = NOTHING;
    for (place, column) in line.columns.iter().enumerate() {
        let each_byte = fields_of_each_byte(*column, place);
        for patterns in &[fields_of(*column), each_byte, BARS] {
            cut_patterns(alloc, line, place, *patterns, (0, 0), &mut tally)?;
        }
    }
    Ok(tally)
}

/// Where the cuts of long lines are filled, and with what.
static FILLS: [(usize, u8); 4] = [(0, b'0'), (1, b'y'), (2, b'|'), (3, b'\r')];

/// Reads the cuts of lines of some bytes, filled in each way.
fn cut_long_lines(
    alloc: Global,
    line: &GoodLine,
    bytes: usize,
    tally: &mut Tally,
) -> Result<(), Fault> {
    for (place, byte) in &FILLS {
        let fill = (*byte, bytes.saturating_sub(line.text.len()));
        cut_patterns(alloc, line, *place, LONG, fill, tally)?;
    }
    Ok(())
}

/// Reads the cuts of long lines of each number of bytes about the limit.
fn cut_about_the_limit(alloc: Global, line: &GoodLine) -> Result<Tally, Fault> {
    let mut tally = NOTHING;
    for bytes in 8189..8197 {
        cut_long_lines(alloc, line, bytes, &mut tally)?;
    }
    Ok(tally)
}

/// The texts and cuts of the lines of each table, in the order of the good lines, and the cuts of its long lines.
static COUNTS: [(u32, usize, usize); 5] = [
    (2652, 109319, 73092),
    (2613, 102645, 72852),
    (2691, 111949, 72636),
    (3258, 205270, 76436),
    (7579, 366453, 76036),
];

/// The good line at a place.
fn line_at(place: usize) -> Result<&'static GoodLine, Fault> {
    GOOD_LINES.get(place).ok_or(Fault::BadLayout)
}

/// The cuts of the lines of the table at a place.
fn lines_of(alloc: Global, place: usize) -> Result<Tally, Fault> {
    cut_line(alloc, line_at(place)?)
}

/// What is wanted of them.
fn wanted_of(place: usize) -> Tally {
    let (texts, cuts, _) = COUNTS.get(place).copied().unwrap_or((0, 0, 0));
    Tally {
        texts,
        cuts,
        wrong: None,
    }
}

#[test]
fn places_and_parts_are_read_wherever_they_end(rt: HostRuntime) {
    for place in 0..3 {
        assert!(rt;
            lines_of(rt.alloc(), place) == Ok(wanted_of(place)),
            "table {place}"
        );
    }
}

#[test]
fn days_are_read_wherever_they_end(rt: HostRuntime) {
    assert!(rt; lines_of(rt.alloc(), 3) == Ok(wanted_of(3)));
}

#[test]
fn fact_rows_are_read_wherever_they_end(rt: HostRuntime) {
    assert!(rt; lines_of(rt.alloc(), 4) == Ok(wanted_of(4)));
}

#[test]
fn long_lines_are_read_wherever_they_end(rt: HostRuntime) {
    for (line, (_, _, cuts)) in GOOD_LINES.iter().zip(&COUNTS) {
        let wanted = Tally {
            texts: 128,
            cuts: *cuts,
            wrong: None,
        };
        assert!(rt; cut_about_the_limit(rt.alloc(), line) == Ok(wanted));
    }
}
