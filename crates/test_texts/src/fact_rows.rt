//! Fact rows and the lines that spell them.
use batch_loader::{Lines, read_batch};
use cube_model::{Fault, Items, LineOrder, Place};
use sample_star::{FACTS, FIRST_FACT, Fact, Pieces, byte_by_byte, in_sevens, line_orders, whole};
use std::alloc::Global;

/// A text in parts, and its rows or why it is refused.
struct Case {
    parts: &'static [&'static [u8]],
    outcome: Result<&'static [Fact<'static>], Fault>,
}

/// The first sample row, without its last bar and line feed.
const ROW: &[u8] = b"1|1|1|1|1|19930105|1-URGENT|0|17|1000|1000|2|980|600|0|19930201|AIR";

/// The same without its ship mode.
const FRONT: &[u8] = b"1|1|1|1|1|19930105|1-URGENT|0|17|1000|1000|2|980|600|0|19930201|";

/// What comes in front of its quantity, and a digit of that with what comes after it: 67 bytes of a line.
const QUANTITY_FRONT: &[u8] = b"1|1|1|1|1|19930105|1-URGENT|0|";

const QUANTITY_BACK: &[u8] = b"5|1000|1000|2|980|600|0|19930201|AIR|\n";

/// As many bytes as a text may have.
const LONGEST_TEXT: &[u8] = &[b'y'; 255];

/// Digits that change no number.
const ZEROS: &[u8] = &[b'0'; 8_125];

const EIGHT_DIGITS: Fact<'static> = Fact {
    orderkey: 12_345_678,
    custkey: 99_999_999,
    partkey: 10_000_000,
    suppkey: 87_654_321,
    extendedprice: 123_456_789,
    revenue: 1_234_567,
    supplycost: 100_200,
    ..FIRST_FACT
};

const GREATEST: Fact<'static> = Fact {
    orderkey: 9_223_372_036_854_775_807,
    linenumber: 4_294_967_295,
    orderdate: 4_294_967_295,
    quantity: 255,
    ordtotalprice: 9_223_372_036_854_775_807,
    tax: 255,
    ..FIRST_FACT
};

const SHORTEST: Fact<'static> = Fact {
    orderkey: 0,
    linenumber: 1,
    custkey: 2,
    partkey: 3,
    suppkey: 4,
    orderdate: 5,
    orderpriority: "",
    shippriority: "",
    quantity: 6,
    extendedprice: 7,
    ordtotalprice: 8,
    discount: 9,
    revenue: 10,
    supplycost: 11,
    tax: 12,
    commitdate: "",
    shipmode: "",
};

/// As many characters as a text may have.
const LONGEST: &str = "\
yyyyyyyyyyyyyyyyyyyyyyyyyyyyyyyyyyyyyyyyyyyyyyyyyyy\
yyyyyyyyyyyyyyyyyyyyyyyyyyyyyyyyyyyyyyyyyyyyyyyyyyy\
yyyyyyyyyyyyyyyyyyyyyyyyyyyyyyyyyyyyyyyyyyyyyyyyyyy\
yyyyyyyyyyyyyyyyyyyyyyyyyyyyyyyyyyyyyyyyyyyyyyyyyyy\
yyyyyyyyyyyyyyyyyyyyyyyyyyyyyyyyyyyyyyyyyyyyyyyyyyy";

static CASES: [Case; 22] = [
    Case {
        parts: &[],
        outcome: Ok(&[]),
    },
    Case {
        parts: &[ROW, b"|\n"],
        outcome: Ok(&[FIRST_FACT]),
    },
    Case {
        parts: &[ROW, b"\n"],
        outcome: Ok(&[FIRST_FACT]),
    },
    Case {
        parts: &[ROW, b"|\r\n"],
        outcome: Ok(&[FIRST_FACT]),
    },
    Case {
        parts: &[ROW, b"\r\n"],
        outcome: Ok(&[FIRST_FACT]),
    },
    Case {
        parts: &[ROW, b"|"],
        outcome: Ok(&[FIRST_FACT]),
    },
    Case {
        parts: &[ROW],
        outcome: Ok(&[FIRST_FACT]),
    },
    Case {
        parts: &[FRONT, b"\n"],
        outcome: Ok(&[Fact {
            shipmode: "",
            ..FIRST_FACT
        }]),
    },
    Case {
        parts: &[FRONT, LONGEST_TEXT, b"|\n"],
        outcome: Ok(&[Fact {
            shipmode: LONGEST,
            ..FIRST_FACT
        }]),
    },
    Case {
        parts: &[FRONT, b"SHIP \r|\n"],
        outcome: Ok(&[Fact {
            shipmode: "SHIP \r",
            ..FIRST_FACT
        }]),
    },
    Case {
        parts: &[
            b"12345678|1|99999999|10000000|87654321|19930105|1-URGENT|0|17|",
            b"123456789|1000|2|1234567|100200|00000000|19930201|AIR|\n",
        ],
        outcome: Ok(&[EIGHT_DIGITS]),
    },
    Case {
        parts: &[
            b"9223372036854775807|4294967295|1|1|1|4294967295|1-URGENT|0|255|",
            b"1000|9223372036854775807|2|980|600|255|19930201|AIR|\n",
        ],
        outcome: Ok(&[GREATEST]),
    },
    Case {
        parts: &[b"0|1|2|3|4|5|||6|7|8|9|10|11|12||\n"],
        outcome: Ok(&[SHORTEST]),
    },
    Case {
        parts: &[
            ROW,
            b"|\n2|1|2|2|2|19971202|5-LOW|0|24|2000|2000|3|1940|2000|0|19980101|RAIL|\n",
            b"3|1|1|2|1|19971202|5-LOW|0|25|500|500|1|495|100|0|19980101|AIR|\n",
        ],
        outcome: Ok(&FACTS),
    },
    // A line of 8,192 bytes, and one of 8,193.
    Case {
        parts: &[QUANTITY_FRONT, ZEROS, QUANTITY_BACK],
        outcome: Ok(&[Fact {
            quantity: 5,
            ..FIRST_FACT
        }]),
    },
    Case {
        parts: &[QUANTITY_FRONT, b"0", ZEROS, QUANTITY_BACK],
        outcome: Err(Fault::FieldTooLong {
            place: Place::Line(1),
            field: 0,
        }),
    },
    Case {
        parts: &[FRONT, LONGEST_TEXT, b"y|\n"],
        outcome: Err(Fault::FieldTooLong {
            place: Place::Line(1),
            field: 17,
        }),
    },
    Case {
        parts: &[QUANTITY_FRONT, b"25", QUANTITY_BACK],
        outcome: Ok(&[Fact {
            quantity: 255,
            ..FIRST_FACT
        }]),
    },
    Case {
        parts: &[ROW, b"|\n", QUANTITY_FRONT, b"+", QUANTITY_BACK],
        outcome: Err(Fault::BadNumber { line: 2, field: 9 }),
    },
    Case {
        parts: &[b"9223372036854775808|4294967296|1|1|1|1|||1|1|1|1|1|1|1|||\n"],
        outcome: Err(Fault::BadNumber { line: 1, field: 1 }),
    },
    Case {
        parts: &[ROW, b"||\n"],
        outcome: Err(Fault::FieldCount { line: 1 }),
    },
    Case {
        parts: &[ROW, b"\n1|\n", ROW],
        outcome: Err(Fault::FieldCount { line: 2 }),
    },
];

/// Parts put one after the other.
fn joined(alloc: Global, parts: &[&[u8]]) -> Result<Vec<u8>, Fault> {
    let mut text = Vec::new(alloc);
    for part in parts {
        text.extend_from_slice(part)?;
    }
    Ok(text)
}

/// All fact rows of what a reader gives.
fn rows_in(alloc: Global, reader: Pieces<'_>) -> Result<Items<LineOrder>, Fault> {
    let mut lines = Lines::new(alloc, reader)?;
    read_batch(alloc, &mut lines, 100)
}

/// The rows of facts.
fn rows_of(alloc: Global, facts: Result<&[Fact<'_>], Fault>) -> Result<Items<LineOrder>, Fault> {
    Ok(Items::from_vec(line_orders(alloc, facts?)?))
}

/// Whether a text comes to this, read whole, byte by byte and in pieces of seven.
fn comes_to(alloc: Global, text: &[u8], want: &Result<Items<LineOrder>, Fault>) -> bool {
    for reader in [whole(text), byte_by_byte(text), in_sevens(text)] {
        if rows_in(alloc, reader) != *want {
            return false;
        }
    }
    true
}

/// Whether a case comes out so.
fn is_read(alloc: Global, case: &Case) -> Result<bool, Fault> {
    let text = joined(alloc, case.parts)?;
    let want = rows_of(alloc, case.outcome);
    Ok(comes_to(alloc, text.as_slice(), &want))
}

#[test]
fn lines_spell_rows(rt: HostRuntime) {
    for (place, case) in CASES.iter().enumerate() {
        assert!(rt; is_read(rt.alloc(), case) == Ok(true), "text {place}");
    }
}
