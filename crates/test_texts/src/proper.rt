//! Which queries are proper: each limit from both sides.
use cube_model::{Agg, Attr, Fault, Kind, Measure, Order};
use sample_star::{Asked, Condition, EVERY_ROW, query};
use std::alloc::Global;
use std::process::Abort;

const REVENUE: Agg = Agg::Sum(Measure::Revenue);

const SIX_COLUMNS: [Attr; 6] = [
    Attr::CustomerCity,
    Attr::CustomerNation,
    Attr::CustomerRegion,
    Attr::SupplierCity,
    Attr::SupplierNation,
    Attr::SupplierRegion,
];

const SEVEN_COLUMNS: [Attr; 7] = [
    Attr::CustomerCity,
    Attr::CustomerNation,
    Attr::CustomerRegion,
    Attr::SupplierCity,
    Attr::SupplierNation,
    Attr::SupplierRegion,
    Attr::PartBrand1,
];

const SMALL: Condition<'static> = Condition::Quantity(0, 24);

/// Queries with as many parts as there may be, and with one too many, and what they are answered.
static PARTS: [(Asked<'static>, Result<(), Fault>); 11] = [
    (EVERY_ROW, Ok(())),
    (
        Asked {
            columns: &SIX_COLUMNS,
            conditions: &[SMALL; 16],
            aggregates: &[REVENUE; 9],
            ..EVERY_ROW
        },
        Ok(()),
    ),
    (
        Asked {
            columns: &SEVEN_COLUMNS,
            ..EVERY_ROW
        },
        Err(Fault::BadQuery),
    ),
    (
        Asked {
            columns: &[Attr::DateYear, Attr::PartBrand1, Attr::DateYear],
            ..EVERY_ROW
        },
        Err(Fault::BadQuery),
    ),
    (
        Asked {
            conditions: &[SMALL; 17],
            ..EVERY_ROW
        },
        Err(Fault::BadQuery),
    ),
    (
        Asked {
            aggregates: &[],
            ..EVERY_ROW
        },
        Err(Fault::BadQuery),
    ),
    (
        Asked {
            aggregates: &[REVENUE; 10],
            ..EVERY_ROW
        },
        Err(Fault::BadQuery),
    ),
    (
        Asked {
            conditions: &[Condition::OneOf(Attr::DateYear, &[])],
            ..EVERY_ROW
        },
        Err(Fault::BadQuery),
    ),
    (
        Asked {
            conditions: &[Condition::OneOf(Attr::DateYear, &["1993"])],
            ..EVERY_ROW
        },
        Ok(()),
    ),
    (
        Asked {
            conditions: &[Condition::OneOf(Attr::DateYear, &["1993"; 64])],
            ..EVERY_ROW
        },
        Ok(()),
    ),
    (
        Asked {
            conditions: &[Condition::OneOf(Attr::DateYear, &["1993"; 65])],
            ..EVERY_ROW
        },
        Err(Fault::BadQuery),
    ),
];

/// A query with two columns, a sum and an average, sorted by the second column and the sum.
const SORTED: Asked<'static> = Asked {
    columns: &[Attr::CustomerCity, Attr::DateYear],
    aggregates: &[REVENUE, Agg::Avg(Measure::Revenue)],
    order: Some(Order {
        column: 1,
        aggregate: 0,
    }),
    ..EVERY_ROW
};

/// Kinds and orders of such a query, and what they are answered.
static ORDERS: [(Asked<'static>, Result<(), Fault>); 6] = [
    (SORTED, Ok(())),
    (
        Asked {
            order: Some(Order {
                column: 2,
                aggregate: 0,
            }),
            ..SORTED
        },
        Err(Fault::BadQuery),
    ),
    (
        Asked {
            order: Some(Order {
                column: 0,
                aggregate: 1,
            }),
            ..SORTED
        },
        Err(Fault::BadQuery),
    ),
    (
        Asked {
            order: Some(Order {
                column: 0,
                aggregate: 2,
            }),
            ..SORTED
        },
        Err(Fault::BadQuery),
    ),
    (
        Asked {
            kind: Kind::Rollup,
            ..SORTED
        },
        Err(Fault::BadQuery),
    ),
    (
        Asked {
            kind: Kind::Cube,
            ..SORTED
        },
        Err(Fault::BadQuery),
    ),
];

/// Whether a query is answered so.
fn is_answered(alloc: Global, asked: &Asked<'_>, want: Result<(), Fault>) -> Result<bool, Fault> {
    let query = query(alloc, asked)?;
    match query.check() {
        Ok(proper) => Ok(want == Ok(()) && proper.get() == &query),
        Err(fault) => Ok(want == Err(fault)),
    }
}

fn are_answered(rt: &impl Abort, alloc: Global, cases: &[(Asked<'_>, Result<(), Fault>)]) {
    for (place, (asked, want)) in cases.iter().enumerate() {
        assert!(rt;
            is_answered(alloc, asked, *want) == Ok(true),
            "query {place}"
        );
    }
}

#[test]
fn a_proper_query_keeps_its_limits(rt: HostRuntime) {
    are_answered(&rt, rt.alloc(), &PARTS)
}

#[test]
fn an_order_names_a_column_and_no_average(rt: HostRuntime) {
    are_answered(&rt, rt.alloc(), &ORDERS)
}
