//! A query, and an answer to it that was made by hand.
use cube_model::{Agg, Answer, Attr, Fault, Fraction, Items, Kind, Line, Measure, Member, Value};
use mode_queries::ModeQuery;
use report_formats::{Asked, Format, Layout, write_formatted};
use sample_star::{EVERY_ROW, query};
use std::alloc::Global;

/// A line of the answer: its members, and what its rows come to.
pub struct Row {
    pub members: [&'static [u8]; 2],
    /// Which of them are ALL.
    pub all: [bool; 2],
    pub count: i64,
    pub revenue: i64,
    /// The revenue by the count, in lowest terms.
    pub average: (i64, u64),
    pub profit: i64,
}

/// The lines of the answer.
pub static ROWS: [Row; 6] = [
    Row {
        members: [b"EUROPE", b"1993"],
        all: [false, false],
        count: 4,
        revenue: 10,
        average: (5, 2),
        profit: -7,
    },
    Row {
        members: [b"a,b", b"say \"hi\""],
        all: [false, false],
        count: 3,
        revenue: 2,
        average: (2, 3),
        profit: 0,
    },
    Row {
        members: [b"", b"tab\tline\nreturn\rback\\"],
        all: [false, false],
        count: 1,
        revenue: -1,
        average: (-1, 1),
        profit: 9223372036854775807,
    },
    Row {
        members: [b"", b"caf\xc3\xa9 \x01\x1f"],
        all: [true, false],
        count: 8,
        revenue: -5,
        average: (-5, 8),
        profit: -9223372036854775808,
    },
    Row {
        members: [b"\xff\xc3\xa9", b""],
        all: [false, true],
        count: 16,
        revenue: 1,
        average: (1, 16),
        profit: 5,
    },
    Row {
        members: [b"", b""],
        all: [true, true],
        count: 200,
        revenue: -1,
        average: (-1, 200),
        profit: 6,
    },
];

/// The query: two columns, and three aggregates of which the second is an average.
const QUERY: sample_star::Asked<'static> = sample_star::Asked {
    kind: Kind::Cube,
    columns: &[Attr::CustomerRegion, Attr::DateYear],
    aggregates: &[
        Agg::Count,
        Agg::Avg(Measure::Revenue),
        Agg::Sum(Measure::Profit),
    ],
    ..EVERY_ROW
};

fn member(alloc: Global, text: &[u8], is_all: bool) -> Result<Member, Fault> {
    if is_all {
        return Ok(Member::All);
    }
    let text = Vec::from_slice(alloc, text)?;
    Ok(Member::Text(Items::from_vec(text)))
}

// The value of an aggregate.
fn value(row: &Row, agg: Agg) -> Value {
    match agg {
        Agg::Count => Value::Whole(row.count),
        Agg::Sum(Measure::Profit) => Value::Whole(row.profit),
        Agg::Avg(_) => Value::Ratio(Fraction {
            numerator: row.average.0,
            denominator: row.average.1,
        }),
        _ => Value::Whole(row.revenue),
    }
}

fn line(alloc: Global, row: &Row, aggregates: &[Agg]) -> Result<Line, Fault> {
    let [first, second] = row.members;
    let mut key = Items::new(alloc);
    key.push(member(alloc, first, row.all[0])?)?;
    key.push(member(alloc, second, row.all[1])?)?;
    let mut values = Items::new(alloc);
    for agg in aggregates {
        values.push(value(row, *agg))?;
    }
    Ok(Line { key, values })
}

// The answer to the query that has some aggregates.
fn answer(alloc: Global, aggregates: &[Agg]) -> Result<Answer, Fault> {
    let mut lines = Items::new(alloc);
    for row in &ROWS {
        lines.push(line(alloc, row, aggregates)?)?;
    }
    Ok(Answer { lines })
}

/// The report in a format, with so many digits after the point.
pub fn report(alloc: Global, format: Format, decimals: Option<u32>) -> Result<Vec<u8>, Fault> {
    let query = query(alloc, &QUERY)?;
    let query = ModeQuery::without_modes(alloc, query);
    let asked = Asked::new(alloc, Layout { format, decimals }, query)?;
    let answer = answer(alloc, asked.query.query.aggregates.as_slice())?;
    let mut out = Vec::new(alloc);
    write_formatted(alloc, &asked, &answer, &mut out)?;
    Ok(out)
}
