//! The thirteen queries of the benchmark, each written out whole from the benchmark's text.
use cube_model::{Agg, Attr, Fault, Kind, Measure, Order};
use sample_star::{Asked, Condition, query};
use ssb_reports::{QNumber, query_of};
use std::alloc::Global;

static TABLE: [(QNumber, &str, Asked<'static>); 13] = [
    (
        QNumber::Q11,
        "1.1",
        Asked {
            kind: Kind::Plain,
            columns: &[],
            conditions: &[
                Condition::OneOf(Attr::DateYear, &["1993"]),
                Condition::Discount(1, 3),
                Condition::Quantity(0, 24),
            ],
            aggregates: &[Agg::Sum(Measure::Discounted)],
            order: None,
        },
    ),
    (
        QNumber::Q12,
        "1.2",
        Asked {
            kind: Kind::Plain,
            columns: &[],
            conditions: &[
                Condition::OneOf(Attr::DateYearmonthnum, &["199401"]),
                Condition::Discount(4, 6),
                Condition::Quantity(26, 35),
            ],
            aggregates: &[Agg::Sum(Measure::Discounted)],
            order: None,
        },
    ),
    (
        QNumber::Q13,
        "1.3",
        Asked {
            kind: Kind::Plain,
            columns: &[],
            conditions: &[
                Condition::OneOf(Attr::DateWeeknuminyear, &["6"]),
                Condition::OneOf(Attr::DateYear, &["1994"]),
                Condition::Discount(5, 7),
                Condition::Quantity(26, 35),
            ],
            aggregates: &[Agg::Sum(Measure::Discounted)],
            order: None,
        },
    ),
    (
        QNumber::Q21,
        "2.1",
        Asked {
            kind: Kind::Plain,
            columns: &[Attr::DateYear, Attr::PartBrand1],
            conditions: &[
                Condition::OneOf(Attr::PartCategory, &["MFGR#12"]),
                Condition::OneOf(Attr::SupplierRegion, &["AMERICA"]),
            ],
            aggregates: &[Agg::Sum(Measure::Revenue)],
            order: None,
        },
    ),
    (
        QNumber::Q22,
        "2.2",
        Asked {
            kind: Kind::Plain,
            columns: &[Attr::DateYear, Attr::PartBrand1],
            conditions: &[
                Condition::Between(Attr::PartBrand1, "MFGR#2221", "MFGR#2228"),
                Condition::OneOf(Attr::SupplierRegion, &["ASIA"]),
            ],
            aggregates: &[Agg::Sum(Measure::Revenue)],
            order: None,
        },
    ),
    (
        QNumber::Q23,
        "2.3",
        Asked {
            kind: Kind::Plain,
            columns: &[Attr::DateYear, Attr::PartBrand1],
            conditions: &[
                Condition::OneOf(Attr::PartBrand1, &["MFGR#2239"]),
                Condition::OneOf(Attr::SupplierRegion, &["EUROPE"]),
            ],
            aggregates: &[Agg::Sum(Measure::Revenue)],
            order: None,
        },
    ),
    (
        QNumber::Q31,
        "3.1",
        Asked {
            kind: Kind::Plain,
            columns: &[Attr::CustomerNation, Attr::SupplierNation, Attr::DateYear],
            conditions: &[
                Condition::OneOf(Attr::CustomerRegion, &["ASIA"]),
                Condition::OneOf(Attr::SupplierRegion, &["ASIA"]),
                Condition::Between(Attr::DateYear, "1992", "1997"),
            ],
            aggregates: &[Agg::Sum(Measure::Revenue)],
            order: Some(Order {
                column: 2,
                aggregate: 0,
            }),
        },
    ),
    (
        QNumber::Q32,
        "3.2",
        Asked {
            kind: Kind::Plain,
            columns: &[Attr::CustomerCity, Attr::SupplierCity, Attr::DateYear],
            conditions: &[
                Condition::OneOf(Attr::CustomerNation, &["UNITED STATES"]),
                Condition::OneOf(Attr::SupplierNation, &["UNITED STATES"]),
                Condition::Between(Attr::DateYear, "1992", "1997"),
            ],
            aggregates: &[Agg::Sum(Measure::Revenue)],
            order: Some(Order {
                column: 2,
                aggregate: 0,
            }),
        },
    ),
    (
        QNumber::Q33,
        "3.3",
        Asked {
            kind: Kind::Plain,
            columns: &[Attr::CustomerCity, Attr::SupplierCity, Attr::DateYear],
            conditions: &[
                Condition::OneOf(Attr::CustomerCity, &["UNITED KI1", "UNITED KI5"]),
                Condition::OneOf(Attr::SupplierCity, &["UNITED KI1", "UNITED KI5"]),
                Condition::Between(Attr::DateYear, "1992", "1997"),
            ],
            aggregates: &[Agg::Sum(Measure::Revenue)],
            order: Some(Order {
                column: 2,
                aggregate: 0,
            }),
        },
    ),
    (
        QNumber::Q34,
        "3.4",
        Asked {
            kind: Kind::Plain,
            columns: &[Attr::CustomerCity, Attr::SupplierCity, Attr::DateYear],
            conditions: &[
                Condition::OneOf(Attr::CustomerCity, &["UNITED KI1", "UNITED KI5"]),
                Condition::OneOf(Attr::SupplierCity, &["UNITED KI1", "UNITED KI5"]),
                Condition::OneOf(Attr::DateYearmonth, &["Dec1997"]),
            ],
            aggregates: &[Agg::Sum(Measure::Revenue)],
            order: Some(Order {
                column: 2,
                aggregate: 0,
            }),
        },
    ),
    (
        QNumber::Q41,
        "4.1",
        Asked {
            kind: Kind::Plain,
            columns: &[Attr::DateYear, Attr::CustomerNation],
            conditions: &[
                Condition::OneOf(Attr::CustomerRegion, &["AMERICA"]),
                Condition::OneOf(Attr::SupplierRegion, &["AMERICA"]),
                Condition::OneOf(Attr::PartMfgr, &["MFGR#1", "MFGR#2"]),
            ],
            aggregates: &[Agg::Sum(Measure::Profit)],
            order: None,
        },
    ),
    (
        QNumber::Q42,
        "4.2",
        Asked {
            kind: Kind::Plain,
            columns: &[Attr::DateYear, Attr::SupplierNation, Attr::PartCategory],
            conditions: &[
                Condition::OneOf(Attr::CustomerRegion, &["AMERICA"]),
                Condition::OneOf(Attr::SupplierRegion, &["AMERICA"]),
                Condition::OneOf(Attr::PartMfgr, &["MFGR#1", "MFGR#2"]),
                Condition::OneOf(Attr::DateYear, &["1997", "1998"]),
            ],
            aggregates: &[Agg::Sum(Measure::Profit)],
            order: None,
        },
    ),
    (
        QNumber::Q43,
        "4.3",
        Asked {
            kind: Kind::Plain,
            columns: &[Attr::DateYear, Attr::SupplierCity, Attr::PartBrand1],
            conditions: &[
                Condition::OneOf(Attr::CustomerRegion, &["AMERICA"]),
                Condition::OneOf(Attr::SupplierNation, &["UNITED STATES"]),
                Condition::OneOf(Attr::DateYear, &["1997", "1998"]),
                Condition::OneOf(Attr::PartCategory, &["MFGR#14"]),
            ],
            aggregates: &[Agg::Sum(Measure::Profit)],
            order: None,
        },
    ),
];

// Whether a query of the benchmark has this name, and is what is asked.
fn is_named(alloc: Global, number: QNumber, name: &str, asked: &Asked<'_>) -> Result<bool, Fault> {
    let want = query(alloc, asked)?;
    let found = query_of(alloc, number)?;
    Ok(found == want && number.name() == name)
}

#[test]
fn thirteen_queries_are_the_benchmarks(rt: HostRuntime) {
    for (number, name, asked) in &TABLE {
        assert!(rt;
            is_named(rt.alloc(), *number, name, asked) == Ok(true),
            "query {name}"
        );
    }
}
