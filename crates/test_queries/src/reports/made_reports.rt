//! Reports of answers that are made by hand, handed to a writer that is interrupted.
use cube_model::{Agg, Answer, Attr, Fault, Fraction, Items, Kind, Line, Measure, Member, Value};
use sample_star::{Asked, query, text};
use ssb_reports::write_report;
use std::alloc::Global;
use std::io::{self, ErrorKind, Write};

/// A line of an answer: its members, `None` for ALL, and its values.
type Row = (&'static [Option<&'static str>], &'static [Value]);

const REGIONS: Asked<'static> = Asked {
    kind: Kind::Cube,
    columns: &[Attr::CustomerRegion, Attr::DateYear],
    conditions: &[],
    aggregates: &[
        Agg::Count,
        Agg::Sum(Measure::Revenue),
        Agg::Avg(Measure::Revenue),
    ],
    order: None,
};

const ALL_NAMES: Asked<'static> = Asked {
    kind: Kind::Plain,
    columns: &[Attr::PartBrand1],
    conditions: &[],
    aggregates: &[
        Agg::Min(Measure::ExtendedPrice),
        Agg::Max(Measure::SupplyCost),
        Agg::Avg(Measure::Profit),
        Agg::Sum(Measure::Discounted),
        Agg::Avg(Measure::Quantity),
    ],
    order: None,
};

const GRAND: Asked<'static> = Asked {
    kind: Kind::Plain,
    columns: &[],
    conditions: &[],
    aggregates: &[Agg::Sum(Measure::Discounted)],
    order: None,
};

static CASES: [(Asked<'static>, &[Row], &str); 4] = [
    (
        REGIONS,
        &[
            (
                &[Some("AMERICA"), Some("1997")],
                &[
                    Value::Whole(1),
                    Value::Whole(1940),
                    Value::Ratio(Fraction {
                        numerator: 1940,
                        denominator: 1,
                    }),
                ],
            ),
            (
                &[Some("EUROPE"), None],
                &[
                    Value::Whole(2),
                    Value::Whole(1475),
                    Value::Ratio(Fraction {
                        numerator: 1475,
                        denominator: 2,
                    }),
                ],
            ),
            (
                &[None, None],
                &[
                    Value::Whole(3),
                    Value::Whole(3415),
                    Value::Ratio(Fraction {
                        numerator: 3415,
                        denominator: 3,
                    }),
                ],
            ),
        ],
        "c_region|d_year|count|sum(revenue)|avg(revenue)\nAMERICA|1997|1|1940|1940/1\nEUROPE|ALL|2|1475|1475/2\nALL|ALL|3|3415|3415/3\nrows 3\n",
    ),
    (
        ALL_NAMES,
        &[(
            &[Some("")],
            &[
                Value::Whole(i64::MIN),
                Value::Whole(i64::MAX),
                Value::Ratio(Fraction {
                    numerator: -60,
                    denominator: 7,
                }),
                Value::Whole(0),
                Value::Ratio(Fraction {
                    numerator: 0,
                    denominator: 1,
                }),
            ],
        )],
        "p_brand1|min(extendedprice)|max(supplycost)|avg(profit)|sum(discounted)|avg(quantity)\n|-9223372036854775808|9223372036854775807|-60/7|0|0/1\nrows 1\n",
    ),
    (
        GRAND,
        &[(&[], &[Value::Whole(2000)])],
        "sum(discounted)\n2000\nrows 1\n",
    ),
    (GRAND, &[], "sum(discounted)\nrows 0\n"),
];

fn members(alloc: Global, key: &[Option<&str>]) -> Result<Items<Member>, Fault> {
    let mut members = Items::new(alloc);
    for member in key {
        let member = match member {
            None => Member::All,
            Some(one) => Member::Text(text(alloc, one)?),
        };
        members.push(member)?;
    }
    Ok(members)
}

fn answer(alloc: Global, rows: &[Row]) -> Result<Answer, Fault> {
    let mut lines = Items::new(alloc);
    for (key, values) in rows {
        let key = members(alloc, key)?;
        let values = Items::from_vec(Vec::from_slice(alloc, values)?);
        lines.push(Line { key, values })?;
    }
    Ok(Answer { lines })
}

/// A writer that is interrupted at every other write, and takes two bytes at the others.
#[derive(Drop)]
struct Interrupted {
    bytes: Vec<u8>,
    next: bool,
}

impl Write for Interrupted {
    fn write(&mut self, buf: &[u8]) -> io::Result<usize> {
        self.next = !self.next;
        if self.next {
            return Err(ErrorKind::Interrupted.into());
        }
        let count = buf.len().min(2);
        self.bytes.extend_from_slice(&buf[..count])?;
        Ok(count)
    }

    fn flush(&mut self) -> io::Result<()> {
        Ok(())
    }
}

// Whether this is the report that such a writer gets of an answer to a query.
fn is_reported(alloc: Global, asked: &Asked<'_>, rows: &[Row], want: &str) -> Result<bool, Fault> {
    let query = query(alloc, asked)?;
    let answer = answer(alloc, rows)?;
    let mut out = Interrupted {
        bytes: Vec::new(alloc),
        next: false,
    };
    write_report(&query, &answer, &mut out)?;
    Ok(out.bytes.as_slice() == want.as_bytes())
}

#[test]
fn reports_are_as_written_by_hand(rt: HostRuntime) {
    for (place, (asked, rows, want)) in CASES.iter().enumerate() {
        assert!(rt;
            is_reported(rt.alloc(), asked, rows, want) == Ok(true),
            "report {place}"
        );
    }
}
