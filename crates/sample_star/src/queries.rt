//! Queries, as constants can hold them.

use cube_model::{Agg, Attr, Cond, Fault, Items, Kind, Measure, Order, Query, Text};
use std::alloc::Global;

/// Each attribute.
pub const ATTRIBUTES: [Attr; 14] = [
    Attr::CustomerCity,
    Attr::CustomerNation,
    Attr::CustomerRegion,
    Attr::SupplierCity,
    Attr::SupplierNation,
    Attr::SupplierRegion,
    Attr::PartBrand1,
    Attr::PartCategory,
    Attr::PartMfgr,
    Attr::DateKey,
    Attr::DateYearmonthnum,
    Attr::DateYear,
    Attr::DateYearmonth,
    Attr::DateWeeknuminyear,
];

/// A condition on a fact row.
#[derive(Clone, Copy)]
pub enum Condition<'a> {
    OneOf(Attr, &'a [&'a str]),
    Between(Attr, &'a str, &'a str),
    Quantity(u8, u8),
    Discount(u8, u8),
}

/// A query.
#[derive(Clone, Copy)]
pub struct Asked<'a> {
    pub kind: Kind,
    pub columns: &'a [Attr],
    pub conditions: &'a [Condition<'a>],
    pub aggregates: &'a [Agg],
    pub order: Option<Order>,
}

/// How many rows there are.
pub const EVERY_ROW: Asked<'static> = Asked {
    kind: Kind::Plain,
    columns: &[],
    conditions: &[],
    aggregates: &[Agg::Count],
    order: None,
};

/// How many rows the customers of each city have. Of the sample rows there are two of one city, and one of another.
pub const BY_CITY: Asked<'static> = Asked {
    columns: &[Attr::CustomerCity],
    ..EVERY_ROW
};

/// The discounted sum of 1993, at discounts 1 to 3 and quantities 0 to 24. Of the sample rows it is 2000.
pub const DISCOUNTED: Asked<'static> = Asked {
    conditions: &[
        Condition::OneOf(Attr::DateYear, &["1993"]),
        Condition::Discount(1, 3),
        Condition::Quantity(0, 24),
    ],
    aggregates: &[Agg::Sum(Measure::Discounted)],
    ..EVERY_ROW
};

/// The revenue between two cities in December 1997. Of the sample rows it has one line, of 495.
pub const CITIES: Asked<'static> = Asked {
    columns: &[Attr::CustomerCity, Attr::SupplierCity, Attr::DateYear],
    conditions: &[
        Condition::OneOf(Attr::CustomerCity, &["UNITED KI1", "UNITED KI5"]),
        Condition::OneOf(Attr::SupplierCity, &["UNITED KI1", "UNITED KI5"]),
        Condition::OneOf(Attr::DateYearmonth, &["Dec1997"]),
    ],
    aggregates: &[Agg::Sum(Measure::Revenue)],
    ..EVERY_ROW
};

/// The profit of a category's brands with the suppliers of a nation. Of the sample rows it has one line, of -60.
pub const PROFIT: Asked<'static> = Asked {
    columns: &[Attr::DateYear, Attr::SupplierCity, Attr::PartBrand1],
    conditions: &[
        Condition::OneOf(Attr::CustomerRegion, &["AMERICA"]),
        Condition::OneOf(Attr::SupplierNation, &["UNITED STATES"]),
        Condition::OneOf(Attr::DateYear, &["1997", "1998"]),
        Condition::OneOf(Attr::PartCategory, &["MFGR#14"]),
    ],
    aggregates: &[Agg::Sum(Measure::Profit)],
    ..EVERY_ROW
};

/// A cube by region and year. Over the sample rows it has eight lines.
pub const CUBE: Asked<'static> = Asked {
    kind: Kind::Cube,
    columns: &[Attr::CustomerRegion, Attr::DateYear],
    aggregates: &[
        Agg::Count,
        Agg::Sum(Measure::Revenue),
        Agg::Avg(Measure::Revenue),
    ],
    ..EVERY_ROW
};

/// A rollup from years to months. Over the sample rows it has five lines.
pub const ROLLUP: Asked<'static> = Asked {
    kind: Kind::Rollup,
    columns: &[Attr::DateYear, Attr::DateYearmonthnum],
    aggregates: &[Agg::Sum(Measure::Revenue)],
    ..EVERY_ROW
};

/// Two averages over all rows. Of the sample rows they are 22/1 and 715/3.
pub const AVERAGES: Asked<'static> = Asked {
    aggregates: &[Agg::Avg(Measure::Quantity), Agg::Avg(Measure::Profit)],
    ..EVERY_ROW
};

fn text(alloc: Global, text: &str) -> Result<Text, Fault> {
    Ok(Items::from_vec(Vec::from_slice(alloc, text.as_bytes())?))
}

fn texts(alloc: Global, given: &[&str]) -> Result<Items<Text>, Fault> {
    let mut texts = Items::new(alloc);
    for one in given {
        texts.push(text(alloc, one)?)?;
    }
    Ok(texts)
}

fn as_condition(alloc: Global, given: &Condition<'_>) -> Result<Cond, Fault> {
    match given {
        Condition::OneOf(attr, list) => Ok(Cond::OneOf(*attr, texts(alloc, list)?)),
        Condition::Between(attr, low, high) => {
            let low = text(alloc, low)?;
            Ok(Cond::Between(*attr, low, text(alloc, high)?))
        }
        Condition::Quantity(low, high) => Ok(Cond::Quantity(*low, *high)),
        Condition::Discount(low, high) => Ok(Cond::Discount(*low, *high)),
    }
}

fn conditions(alloc: Global, given: &[Condition<'_>]) -> Result<Items<Cond>, Fault> {
    let mut conditions = Items::new(alloc);
    for one in given {
        conditions.push(as_condition(alloc, one)?)?;
    }
    Ok(conditions)
}

/// A query as a value. Only memory can fail.
pub fn query(alloc: Global, asked: &Asked<'_>) -> Result<Query, Fault> {
    let columns = Items::from_vec(Vec::from_slice(alloc, asked.columns)?);
    let conditions = conditions(alloc, asked.conditions)?;
    let aggregates = Items::from_vec(Vec::from_slice(alloc, asked.aggregates)?);
    Ok(Query {
        kind: asked.kind,
        columns,
        conditions,
        aggregates,
        order: asked.order,
    })
}
