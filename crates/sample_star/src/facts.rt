//! Fact rows, as constants can hold them.
ghost use Rattle.std.specs.Prelude.{◌≡◌, IfOk, map};
ghost use Rattle.sample_star.specs.Facts.{line_order_of, money_of};

use cube_model::{Amount, Fault, LineOrder, RowText};
use std::alloc::Global;

/// A fact row. A number of money is at most 9,223,372,036,854,775,807; a greater one counts as that.
#[derive(Clone, Copy)]
pub struct Fact<'a> {
    pub orderkey: u64,
    pub linenumber: u32,
    pub custkey: u32,
    pub partkey: u32,
    pub suppkey: u32,
    pub orderdate: u32,
    pub orderpriority: &'a str,
    pub shippriority: &'a str,
    pub quantity: u8,
    pub extendedprice: u64,
    pub ordtotalprice: u64,
    pub discount: u8,
    pub revenue: u64,
    pub supplycost: u64,
    pub tax: u8,
    pub commitdate: &'a str,
    pub shipmode: &'a str,
}

/// The first sample row: 17 pieces in 1993.
pub const FIRST_FACT: Fact<'static> = Fact {
    orderkey: 1,
    linenumber: 1,
    custkey: 1,
    partkey: 1,
    suppkey: 1,
    orderdate: 19930105,
    orderpriority: "1-URGENT",
    shippriority: "0",
    quantity: 17,
    extendedprice: 1000,
    ordtotalprice: 1000,
    discount: 2,
    revenue: 980,
    supplycost: 600,
    tax: 0,
    commitdate: "19930201",
    shipmode: "AIR",
};

/// The second: a loss of 60 in 1997.
pub const SECOND_FACT: Fact<'static> = Fact {
    orderkey: 2,
    linenumber: 1,
    custkey: 2,
    partkey: 2,
    suppkey: 2,
    orderdate: 19971202,
    orderpriority: "5-LOW",
    shippriority: "0",
    quantity: 24,
    extendedprice: 2000,
    ordtotalprice: 2000,
    discount: 3,
    revenue: 1940,
    supplycost: 2000,
    tax: 0,
    commitdate: "19980101",
    shipmode: "RAIL",
};

/// The third: the customer of the first on the day of the second.
pub const THIRD_FACT: Fact<'static> = Fact {
    orderkey: 3,
    linenumber: 1,
    custkey: 1,
    partkey: 2,
    suppkey: 1,
    orderdate: 19971202,
    orderpriority: "5-LOW",
    shippriority: "0",
    quantity: 25,
    extendedprice: 500,
    ordtotalprice: 500,
    discount: 1,
    revenue: 495,
    supplycost: 100,
    tax: 0,
    commitdate: "19980101",
    shipmode: "AIR",
};

/// The second, of a third customer.
pub const STRANGER: Fact<'static> = Fact {
    custkey: 3,
    ..SECOND_FACT
};

/// The three sample rows, those of the text.
pub const FACTS: [Fact<'static>; 3] = [FIRST_FACT, SECOND_FACT, THIRD_FACT];

fn amount(number: u64) -> Amount
    ensures { result ≡ money_of number }
{
    Amount::new(number.min(9_223_372_036_854_775_807))
}

fn row_text(alloc: Global, text: &str) -> Result<RowText, Fault>
    ensures { IfOk result (λ kept. kept ≡ text.now) }
{
    Ok(RowText::from_slice(alloc, text.as_bytes())?)
}

/// A fact row as a value. Only memory can fail.
pub fn line_order(alloc: Global, fact: &Fact<'_>) -> Result<LineOrder, Fault>
    ensures { IfOk result (λ row. row ≡ line_order_of fact.now) }
{
    let orderpriority = row_text(alloc, fact.orderpriority)?;
    let shippriority = row_text(alloc, fact.shippriority)?;
    let commitdate = row_text(alloc, fact.commitdate)?;
    let shipmode = row_text(alloc, fact.shipmode)?;
    Ok(LineOrder {
        orderkey: amount(fact.orderkey),
        linenumber: fact.linenumber,
        custkey: fact.custkey,
        partkey: fact.partkey,
        suppkey: fact.suppkey,
        orderdate: fact.orderdate,
        orderpriority,
        shippriority,
        quantity: fact.quantity,
        extendedprice: amount(fact.extendedprice),
        ordtotalprice: amount(fact.ordtotalprice),
        discount: fact.discount,
        revenue: amount(fact.revenue),
        supplycost: amount(fact.supplycost),
        tax: fact.tax,
        commitdate,
        shipmode,
    })
}

/// Fact rows as values, in their order. Only memory can fail.
pub fn line_orders(alloc: Global, facts: &[Fact<'_>]) -> Result<Vec<LineOrder>, Fault>
    ensures { IfOk result (λ rows. rows.items ≡ map line_order_of facts.now) }
{
    let mut rows = Vec::new(alloc);
    for fact in facts {
        rows.push(line_order(alloc, fact)?)?;
    }
    Ok(rows)
}
