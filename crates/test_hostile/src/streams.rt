//! Readers and writers that fail at each of their calls, under the thirteen reports.
use cube_model::{Fault, Query};
use sample_star::{TABLES, Taker, WhenFull, in_pieces};
use ssb_eval::eval_texts;
use ssb_reports::{QNumber, query_of};
use std::alloc::Global;
use std::test::Fail;

/// The thirteen reports over the sample tables, worked out by hand.
static REPORTS: [(QNumber, &[u8]); 13] = [
    (QNumber::Q11, b"sum(discounted)\n2000\nrows 1\n"),
    (QNumber::Q12, b"sum(discounted)\nrows 0\n"),
    (QNumber::Q13, b"sum(discounted)\nrows 0\n"),
    (QNumber::Q21, b"d_year|p_brand1|sum(revenue)\nrows 0\n"),
    (QNumber::Q22, b"d_year|p_brand1|sum(revenue)\nrows 0\n"),
    (QNumber::Q23, b"d_year|p_brand1|sum(revenue)\nrows 0\n"),
    (
        QNumber::Q31,
        b"c_nation|s_nation|d_year|sum(revenue)\nrows 0\n",
    ),
    (
        QNumber::Q32,
        b"c_city|s_city|d_year|sum(revenue)\nUNITED ST3|UNITED ST0|1997|1940\nrows 1\n",
    ),
    (
        QNumber::Q33,
        b"c_city|s_city|d_year|sum(revenue)\nUNITED KI1|UNITED KI5|1993|980\nUNITED KI1|UNITED KI5|1997|495\nrows 2\n",
    ),
    (
        QNumber::Q34,
        b"c_city|s_city|d_year|sum(revenue)\nUNITED KI1|UNITED KI5|1997|495\nrows 1\n",
    ),
    (
        QNumber::Q41,
        b"d_year|c_nation|sum(profit)\n1997|UNITED STATES|-60\nrows 1\n",
    ),
    (
        QNumber::Q42,
        b"d_year|s_nation|p_category|sum(profit)\n1997|UNITED STATES|MFGR#14|-60\nrows 1\n",
    ),
    (
        QNumber::Q43,
        b"d_year|s_city|p_brand1|sum(profit)\n1997|UNITED ST0|MFGR#142|-60\nrows 1\n",
    ),
];

/// How many bytes a writer takes at most a write, and what it does once it has taken all that it takes.
static WRITERS: [(usize, WhenFull); 6] = [
    (usize::MAX, WhenFull::Fails),
    (3, WhenFull::Fails),
    (1, WhenFull::Fails),
    (usize::MAX, WhenFull::TakesNone),
    (3, WhenFull::TakesNone),
    (1, WhenFull::TakesNone),
];

/// Tables that are read in pieces of so many bytes, and the read at which each fails, counted from 1 (at 0 it does
/// not); and a writer: how many bytes it takes at most a write, how many in all, and what it does then.
#[derive(Clone, Copy)]
struct Case {
    piece: usize,
    fails: [u32; 5],
    most: usize,
    room: usize,
    when_full: WhenFull,
}

/// What comes of a report of so many bytes, and how many of them are written. With just the room of the report a flush
/// fails, or there is none to fail.
fn end_of(bytes: usize, case: &Case) -> (Result<(), Fault>, usize) {
    if case.fails != [0; 5] {
        (Err(Fault::Input), 0)
    } else if case.room > bytes || (case.room == bytes && case.when_full == WhenFull::TakesNone) {
        (Ok(()), bytes)
    } else {
        (Err(Fault::Output), case.room)
    }
}

/// Whether a query over the sample tables comes to its report, or to just so much of it.
fn is_right(alloc: Global, query: &Query, text: &[u8], case: &Case) -> bool {
    let mut taker = Taker::new(alloc, case.room);
    taker.most = case.most;
    taker.when_full = case.when_full;
    let [customer, supplier, part, date, lineorder] = case.fails;
    let piece = case.piece.max(1);
    let done = eval_texts(
        alloc,
        in_pieces(TABLES.customer, piece).failing_at(customer),
        in_pieces(TABLES.supplier, piece).failing_at(supplier),
        in_pieces(TABLES.part, piece).failing_at(part),
        in_pieces(TABLES.date, piece).failing_at(date),
        in_pieces(TABLES.lineorder, piece).failing_at(lineorder),
        query,
        &mut taker,
    );
    let (end, count) = end_of(text.len(), case);
    done == end && Some(taker.bytes.as_slice()) == text.get(..count)
}

/// The first writer, and the number of bytes after which it fails, with which that is not so.
fn first_wrong_write(alloc: Global, query: &Query, text: &[u8]) -> Option<(usize, usize)> {
    for (place, (most, when_full)) in WRITERS.iter().enumerate() {
        for room in 0..text.len().saturating_add(2) {
            let case = Case {
                piece: usize::MAX,
                fails: [0; 5],
                most: *most,
                room,
                when_full: *when_full,
            };
            if !is_right(alloc, query, text, &case) {
                return Some((place, room));
            }
        }
    }
    None
}

/// The bytes of the five tables.
const LENGTHS: [u32; 5] = [
    TABLES.customer.len() as u32,
    TABLES.supplier.len() as u32,
    TABLES.part.len() as u32,
    TABLES.date.len() as u32,
    TABLES.lineorder.len() as u32,
];

/// The first table, and its read that fails, or none at 0, and that at its end too, with which it is not so.
fn first_wrong_read(alloc: Global, query: &Query, text: &[u8]) -> Option<(usize, u32)> {
    for table in 0..5 {
        for read in 0..LENGTHS[table].saturating_add(2) {
            let mut case = Case {
                piece: 1,
                fails: [0; 5],
                most: usize::MAX,
                room: usize::MAX,
                when_full: WhenFull::Fails,
            };
            case.fails[table] = read;
            if !is_right(alloc, query, text, &case) {
                return Some((table, read));
            }
        }
    }
    None
}

#[test]
fn each_read_and_each_write_under_a_report_fails_in_turn(rt: HostRuntime) -> Result<(), Fail> {
    for (number, text) in &REPORTS {
        let query = query_of(rt.alloc(), *number)?;
        let write = first_wrong_write(rt.alloc(), &query, text);
        assert!(rt; write == None, "{}: {write:?}", number.name());
        let read = first_wrong_read(rt.alloc(), &query, text);
        assert!(rt; read == None, "{}: {read:?}", number.name());
    }
    Ok(())
}
