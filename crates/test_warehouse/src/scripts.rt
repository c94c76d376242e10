//! Runs of commands, these and those of other modules: batches that are taken or refused, queries over the first
//! batches, and the numbers of the warehouse.
use crate::additions::{A_ROW_OF_EACH, ONE_CUSTOMER_MORE};
use crate::upkeep::scripts::{
    CHOICES, CUBOIDS_OVER_ADDITIONS, KEPT, LIFE, MOVES, NO_MOVE, SLOTS, STEPS, STEPS_AFTER_CELLS,
    STEPS_OVER_ADDITIONS,
};
use cube_model::{Agg, Fault, Measure};
use sample_sessions::{Expected, Given, Script, first_other_reply};
use sample_star::{Asked, DISCOUNTED, EVERY_ROW, FACTS, FIRST_FACT, Fact, STRANGER, THIRD_FACT};

/// A row without any money.
const NO_MONEY: Fact<'static> = Fact {
    extendedprice: 0,
    revenue: 0,
    supplycost: 0,
    ..FIRST_FACT
};

/// The greatest revenue, a cost, and a gain and a loss that are together as great.
const RICH: Fact<'static> = Fact {
    revenue: 9_223_372_036_854_775_807,
    ..NO_MONEY
};

const COST: Fact<'static> = Fact {
    supplycost: 1,
    ..NO_MONEY
};

const GAIN: Fact<'static> = Fact {
    revenue: 4_611_686_018_427_387_904,
    ..NO_MONEY
};

const LOSS: Fact<'static> = Fact {
    supplycost: 4_611_686_018_427_387_903,
    ..NO_MONEY
};

/// A loss as great as the gain.
const GREATER_LOSS: Fact<'static> = Fact {
    supplycost: 4_611_686_018_427_387_904,
    ..NO_MONEY
};

const PROFIT: Asked<'static> = Asked {
    aggregates: &[Agg::Sum(Measure::Profit)],
    ..EVERY_ROW
};

const NO_AGGREGATE: Asked<'static> = Asked {
    aggregates: &[],
    ..EVERY_ROW
};

const PROFIT_RANGE: Expected = Expected::Refused(Fault::SumRange {
    measure: Measure::Profit,
});

/// Batches and queries in turn. A refused batch leaves its number to the next.
static RUN: [(Given, Expected); 22] = [
    (Given::Status, Expected::Plain(0, 0)),
    (
        Given::Submit(1, &[FIRST_FACT, STRANGER]),
        Expected::Refused(Fault::UnknownCustomer { row: 2 }),
    ),
    (Given::Status, Expected::Plain(0, 0)),
    (Given::Submit(1, &FACTS), Expected::Done),
    (Given::Status, Expected::Plain(1, 3)),
    (Given::Submit(1, &FACTS), Expected::Refused(Fault::Repeated)),
    (Given::Submit(0, &FACTS), Expected::Refused(Fault::Repeated)),
    (Given::Submit(3, &FACTS), Expected::Refused(Fault::Gap)),
    (
        Given::Submit(4_294_967_295, &[STRANGER]),
        Expected::Refused(Fault::Gap),
    ),
    (
        Given::Query(2, DISCOUNTED),
        Expected::Refused(Fault::NoSuchPrefix),
    ),
    (Given::Submit(2, &FACTS), Expected::Done),
    (Given::Query(0, DISCOUNTED), Expected::Answer(&[])),
    (
        Given::Query(1, DISCOUNTED),
        Expected::Answer(&[(&[], 2000)]),
    ),
    (
        Given::Query(2, DISCOUNTED),
        Expected::Answer(&[(&[], 4000)]),
    ),
    (
        Given::Query(4_294_967_295, DISCOUNTED),
        Expected::Refused(Fault::NoSuchPrefix),
    ),
    (
        Given::Query(3, NO_AGGREGATE),
        Expected::Refused(Fault::BadQuery),
    ),
    (Given::Submit(3, &[]), Expected::Done),
    (Given::Submit(4, &[THIRD_FACT]), Expected::Done),
    (Given::Query(4, EVERY_ROW), Expected::Answer(&[(&[], 7)])),
    (Given::Status, Expected::Plain(4, 7)),
    (Given::Audit, Expected::Audited(true)),
    (Given::Upkeep, Expected::Done),
];

/// The sum of the profits is at its limit, and one past it.
static AT_THE_LIMIT: [(Given, Expected); 4] = [
    (Given::Submit(1, &[RICH]), Expected::Done),
    (Given::Submit(2, &[COST]), PROFIT_RANGE),
    (Given::Submit(2, &[NO_MONEY]), Expected::Done),
    (Given::Status, Expected::Plain(2, 2)),
];

/// Absolute values are added up, and not the profits themselves.
static ABSOLUTE: [(Given, Expected); 4] = [
    (Given::Submit(1, &[GAIN, GREATER_LOSS]), PROFIT_RANGE),
    (Given::Submit(1, &[GAIN, LOSS]), Expected::Done),
    (Given::Query(1, PROFIT), Expected::Answer(&[(&[], 1)])),
    (Given::Status, Expected::Plain(1, 2)),
];

#[test]
fn the_replies_are_as_worked_by_hand(rt: HostRuntime) {
    let scripts: [(u32, Script); 15] = [
        (64, &RUN),
        (64, &AT_THE_LIMIT),
        (64, &ABSOLUTE),
        (64, &ONE_CUSTOMER_MORE),
        (64, &A_ROW_OF_EACH),
        (64, &CHOICES),
        (64, &KEPT),
        (256, &LIFE),
        (64, &STEPS),
        (64, &STEPS_AFTER_CELLS),
        (64, &SLOTS),
        (64, &STEPS_OVER_ADDITIONS),
        (64, &CUBOIDS_OVER_ADDITIONS),
        (64, &MOVES),
        (64, &NO_MOVE),
    ];
    for (place, (sectors, script)) in scripts.iter().enumerate() {
        let other = first_other_reply(rt.alloc(), *sectors, script);
        assert!(rt; other == Ok(None), "script {place}: {other:?}");
    }
}
