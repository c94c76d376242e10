//! Runs of commands: choices of cuboids, their upkeep and audits, queries that run step by step, additions to the
//! dimensions between all these, and moves to the second layout.
use cube_model::{Agg, Attr, Fault, Measure, MemberPlace};
use sample_sessions::{Expected, Given, Lines, Numbers, THREE, TWO_CELLS};
use sample_star::{
    Asked, BY_CITY, CITIES, DISCOUNTED, Day, EVERY_ROW, FACTS, FIRST_CUSTOMER, FIRST_DAY,
    FIRST_FACT, Fact, Location, NO_ROWS, ONE_CUSTOMER, STRANGER, Star, THIRD_FACT,
};
use warehouse::StoredCuboid;

/// A cuboid that holds no batch.
const EMPTY: StoredCuboid = StoredCuboid {
    view: 59,
    runs: 0,
    mark: 0,
    cells: 0,
};

/// The three cuboids that are chosen, without a batch.
const UNFILLED: [StoredCuboid; 3] = [
    EMPTY,
    StoredCuboid { view: 203, ..EMPTY },
    StoredCuboid { view: 248, ..EMPTY },
];

/// One that holds two batches, in two runs.
const OF_TWO: StoredCuboid = StoredCuboid {
    view: 59,
    runs: 2,
    mark: 2,
    cells: 3,
};

/// The three cuboids, each as that.
const THREE_OF_TWO: [StoredCuboid; 3] = [
    OF_TWO,
    StoredCuboid {
        view: 203,
        ..OF_TWO
    },
    StoredCuboid {
        view: 248,
        ..OF_TWO
    },
];

/// How many views are asked for, and the greedy list with the benefits. At the fourth place views 243 and 251 have
/// the same benefit.
pub(crate) static CHOICES: [(Given, Expected); 9] = [
    (Given::Submit(1, &FACTS), Expected::Done),
    (Given::Choose(0), Expected::Chosen(&[])),
    (Given::Choose(1), Expected::Chosen(&[(59, 8)])),
    (
        Given::Choose(4),
        Expected::Chosen(&[(59, 8), (203, 6), (248, 6), (243, 2)]),
    ),
    (
        Given::Choose(16),
        Expected::Chosen(&[(59, 8), (203, 6), (248, 6), (243, 2), (251, 2)]),
    ),
    (Given::Choose(17), Expected::Refused(Fault::BadQuery)),
    (
        Given::Choose(3),
        Expected::Chosen(&[(59, 8), (203, 6), (248, 6)]),
    ),
    // They hold no batch.
    (
        Given::Status,
        Expected::Numbers(Numbers {
            batches: 1,
            rows: 3,
            additions: 0,
            target: 0,
            generation: 7,
            cuboids: &UNFILLED,
        }),
    ),
    (Given::Audit, Expected::Audited(true)),
];

/// The numbers of one batch that three cuboids hold.
const FILLED: Numbers = Numbers {
    batches: 1,
    rows: 3,
    additions: 0,
    target: 1,
    generation: 7,
    cuboids: &THREE,
};

/// An upkeep fills three cuboids, a second one writes nothing, and a choice keeps the cells of what it chooses again.
pub(crate) static KEPT: [(Given, Expected); 14] = [
    (Given::Submit(1, &FACTS), Expected::Done),
    (
        Given::Choose(3),
        Expected::Chosen(&[(59, 8), (203, 6), (248, 6)]),
    ),
    (Given::Upkeep, Expected::Done),
    (Given::Status, Expected::Numbers(FILLED)),
    (Given::Upkeep, Expected::Done),
    (Given::Choose(17), Expected::Refused(Fault::BadQuery)),
    (Given::Status, Expected::Numbers(FILLED)),
    (Given::Audit, Expected::Audited(true)),
    (Given::Choose(1), Expected::Chosen(&[(59, 8)])),
    (
        Given::Status,
        Expected::Numbers(Numbers {
            target: 0,
            generation: 8,
            cuboids: &[TWO_CELLS],
            ..FILLED
        }),
    ),
    (Given::Audit, Expected::Audited(true)),
    (Given::Choose(0), Expected::Chosen(&[])),
    (
        Given::Status,
        Expected::Numbers(Numbers {
            target: 0,
            generation: 9,
            cuboids: &[],
            ..FILLED
        }),
    ),
    (Given::Audit, Expected::Audited(true)),
];

/// A whole life: batches, a choice, upkeeps and reports.
pub(crate) static LIFE: [(Given, Expected); 12] = [
    (Given::Submit(1, &FACTS), Expected::Done),
    (
        Given::Choose(3),
        Expected::Chosen(&[(59, 8), (203, 6), (248, 6)]),
    ),
    (Given::Upkeep, Expected::Done),
    (Given::Submit(2, &[THIRD_FACT]), Expected::Done),
    (Given::Upkeep, Expected::Done),
    (Given::Audit, Expected::Audited(true)),
    (Given::Submit(3, &[]), Expected::Done),
    (Given::Audit, Expected::Audited(true)),
    (
        Given::Status,
        Expected::Numbers(Numbers {
            batches: 3,
            rows: 4,
            additions: 0,
            target: 2,
            generation: 13,
            cuboids: &THREE_OF_TWO,
        }),
    ),
    (
        Given::Query(3, DISCOUNTED),
        Expected::Answer(&[(&[], 2000)]),
    ),
    (
        Given::Query(3, CITIES),
        Expected::Answer(&[(&["UNITED KI1", "UNITED KI5", "1997"], 990)]),
    ),
    (
        Given::Query(1, CITIES),
        Expected::Answer(&[(&["UNITED KI1", "UNITED KI5", "1997"], 495)]),
    ),
];

const BY_YEAR: Asked<'static> = Asked {
    columns: &[Attr::DateYear],
    aggregates: &[Agg::Sum(Measure::Revenue)],
    ..EVERY_ROW
};

const NO_AGGREGATE: Asked<'static> = Asked {
    aggregates: &[],
    ..EVERY_ROW
};

/// The revenue by years of the three sample rows, and with the third row once more.
const YEARS_OF_ONE: Lines = &[(&["1993"], 980), (&["1997"], 2435)];

const YEARS_OF_TWO: Lines = &[(&["1993"], 980), (&["1997"], 2930)];

/// Two queries on their way over the one batch that there was.
pub(crate) static STEPS: [(Given, Expected); 14] = [
    (Given::Submit(1, &FACTS), Expected::Done),
    (Given::Start(0, 1, BY_YEAR), Expected::Done),
    (Given::Start(15, 1, BY_YEAR), Expected::Done),
    (Given::Step(0), Expected::More),
    (Given::Submit(2, &[THIRD_FACT]), Expected::Done),
    (Given::Step(15), Expected::More),
    (Given::Step(0), Expected::Answer(YEARS_OF_ONE)),
    (Given::Step(0), Expected::Refused(Fault::NotRunning)),
    (Given::Step(15), Expected::Answer(YEARS_OF_ONE)),
    (Given::Start(15, 2, BY_YEAR), Expected::Done),
    (Given::Step(15), Expected::More),
    (Given::Step(15), Expected::More),
    (Given::Step(15), Expected::Answer(YEARS_OF_TWO)),
    (Given::Step(15), Expected::Refused(Fault::NotRunning)),
];

/// The cells hold the first batch. Later choices and batches change nothing of the answer.
pub(crate) static STEPS_AFTER_CELLS: [(Given, Expected); 12] = [
    (Given::Submit(1, &FACTS), Expected::Done),
    (
        Given::Choose(3),
        Expected::Chosen(&[(59, 8), (203, 6), (248, 6)]),
    ),
    (Given::Upkeep, Expected::Done),
    (Given::Submit(2, &[THIRD_FACT]), Expected::Done),
    (Given::Start(3, 2, BY_YEAR), Expected::Done),
    (Given::Start(4, 1, BY_YEAR), Expected::Done),
    (Given::Step(3), Expected::More),
    (Given::Choose(0), Expected::Chosen(&[])),
    (Given::Submit(3, &FACTS), Expected::Done),
    (Given::Step(3), Expected::Answer(YEARS_OF_TWO)),
    (Given::Step(3), Expected::Refused(Fault::NotRunning)),
    (Given::Step(4), Expected::Answer(YEARS_OF_ONE)),
];

/// Slots that there are not, or that are empty. A refused start leaves its slot, and another one takes the place of
/// what ran there.
pub(crate) static SLOTS: [(Given, Expected); 16] = [
    (Given::Submit(1, &FACTS), Expected::Done),
    (Given::Step(0), Expected::Refused(Fault::NotRunning)),
    (Given::Step(16), Expected::Refused(Fault::NotRunning)),
    (Given::Step(255), Expected::Refused(Fault::NotRunning)),
    (
        Given::Start(16, 1, BY_YEAR),
        Expected::Refused(Fault::NotRunning),
    ),
    (
        Given::Start(255, 2, NO_AGGREGATE),
        Expected::Refused(Fault::NotRunning),
    ),
    (Given::Start(7, 1, BY_YEAR), Expected::Done),
    (
        Given::Start(7, 2, BY_YEAR),
        Expected::Refused(Fault::NoSuchPrefix),
    ),
    (
        Given::Start(7, 2, NO_AGGREGATE),
        Expected::Refused(Fault::BadQuery),
    ),
    (Given::Step(7), Expected::More),
    (Given::Step(7), Expected::Answer(YEARS_OF_ONE)),
    (Given::Start(7, 1, BY_YEAR), Expected::Done),
    (Given::Step(7), Expected::More),
    (Given::Start(7, 0, BY_YEAR), Expected::Done),
    (Given::Step(7), Expected::Answer(&[])),
    (Given::Step(7), Expected::Refused(Fault::NotRunning)),
];

/// How many rows each city has in a batch of the three sample rows, and in that and one of the third customer.
const CITIES_OF_ONE: Lines = &[(&["UNITED KI1"], 2), (&["UNITED ST3"], 1)];

const CITIES_OF_TWO: Lines = &[
    (&["UNITED KI1"], 2),
    (&["UNITED ST1"], 1),
    (&["UNITED ST3"], 1),
];

/// A customer of a city and a day that are each before those that there were.
const EARLIER: Star<'static> = Star {
    customers: &[Location {
        key: 4,
        city: "UNITED KI0",
        ..FIRST_CUSTOMER
    }],
    dates: &[Day {
        key: 19930101,
        ..FIRST_DAY
    }],
    ..NO_ROWS
};

/// Queries that were started before an addition answer as they would have.
pub(crate) static STEPS_OVER_ADDITIONS: [(Given, Expected); 15] = [
    (Given::Submit(1, &FACTS), Expected::Done),
    (Given::Start(0, 1, BY_CITY), Expected::Done),
    (Given::Start(15, 1, BY_CITY), Expected::Done),
    (Given::Step(0), Expected::More),
    (Given::Add(1, ONE_CUSTOMER), Expected::Done),
    (Given::Step(15), Expected::More),
    (Given::Step(0), Expected::Answer(CITIES_OF_ONE)),
    (Given::Submit(2, &[STRANGER]), Expected::Done),
    (Given::Start(0, 2, BY_CITY), Expected::Done),
    (Given::Step(0), Expected::More),
    (Given::Add(2, EARLIER), Expected::Done),
    (Given::Step(15), Expected::Answer(CITIES_OF_ONE)),
    (Given::Step(0), Expected::More),
    (Given::Step(0), Expected::Answer(CITIES_OF_TWO)),
    (Given::Step(0), Expected::Refused(Fault::NotRunning)),
];

/// Cuboids that hold a batch hold it after additions, and are brought to a batch of a new customer.
pub(crate) static CUBOIDS_OVER_ADDITIONS: [(Given, Expected); 24] = [
    (Given::Submit(1, &FACTS), Expected::Done),
    (
        Given::Choose(3),
        Expected::Chosen(&[(59, 8), (203, 6), (248, 6)]),
    ),
    (Given::Upkeep, Expected::Done),
    (Given::Start(2, 1, BY_CITY), Expected::Done),
    (Given::Add(1, ONE_CUSTOMER), Expected::Done),
    (
        Given::Status,
        Expected::Numbers(Numbers {
            additions: 1,
            generation: 8,
            ..FILLED
        }),
    ),
    (Given::Audit, Expected::Audited(true)),
    (Given::Query(1, BY_CITY), Expected::Answer(CITIES_OF_ONE)),
    (Given::Step(2), Expected::Answer(CITIES_OF_ONE)),
    (Given::Submit(2, &[STRANGER]), Expected::Done),
    (Given::Query(2, BY_CITY), Expected::Answer(CITIES_OF_TWO)),
    (Given::Start(3, 2, BY_CITY), Expected::Done),
    (Given::Add(2, EARLIER), Expected::Done),
    (Given::Step(3), Expected::More),
    (Given::Step(3), Expected::Answer(CITIES_OF_TWO)),
    (Given::Query(1, BY_YEAR), Expected::Answer(YEARS_OF_ONE)),
    (Given::Upkeep, Expected::Done),
    (Given::Audit, Expected::Audited(true)),
    (
        Given::Status,
        Expected::Numbers(Numbers {
            batches: 2,
            rows: 4,
            additions: 2,
            target: 2,
            generation: 14,
            cuboids: &THREE_OF_TWO,
        }),
    ),
    (Given::Query(2, BY_CITY), Expected::Answer(CITIES_OF_TWO)),
    (
        Given::Query(2, BY_YEAR),
        Expected::Answer(&[(&["1993"], 980), (&["1997"], 4375)]),
    ),
    // The number of additions is there.
    (Given::Add(2, EARLIER), Expected::Refused(Fault::Repeated)),
    (Given::Upkeep, Expected::Done),
    (Given::Audit, Expected::Audited(true)),
];

/// A row whose ship mode is the text that means all of them.
const RESERVED: Fact<'static> = Fact {
    shipmode: "ALL",
    ..FIRST_FACT
};

/// A move to the second layout keeps batches and cuboids, and may be asked for again. No ship mode is the text that
/// means all of them then.
pub(crate) static MOVES: [(Given, Expected); 12] = [
    (Given::Submit(1, &FACTS), Expected::Done),
    (
        Given::Choose(3),
        Expected::Chosen(&[(59, 8), (203, 6), (248, 6)]),
    ),
    (Given::Upkeep, Expected::Done),
    (Given::Start(0, 1, BY_YEAR), Expected::Done),
    (Given::Migrate, Expected::Done),
    (Given::Migrate, Expected::Done),
    (Given::Audit, Expected::Audited(true)),
    (Given::Step(0), Expected::Answer(YEARS_OF_ONE)),
    (Given::Query(1, BY_YEAR), Expected::Answer(YEARS_OF_ONE)),
    (
        Given::Submit(2, &[FIRST_FACT, RESERVED]),
        Expected::Refused(Fault::ReservedMember {
            place: MemberPlace::InBatch { row: 2 },
        }),
    ),
    (Given::Submit(2, &[THIRD_FACT]), Expected::Done),
    (Given::Query(2, BY_YEAR), Expected::Answer(YEARS_OF_TWO)),
];

/// A ship mode that is this text leaves the first layout. The first such row is named.
pub(crate) static NO_MOVE: [(Given, Expected); 5] = [
    (Given::Submit(1, &FACTS), Expected::Done),
    (Given::Submit(2, &[FIRST_FACT, RESERVED]), Expected::Done),
    (Given::Submit(3, &[RESERVED, RESERVED]), Expected::Done),
    (
        Given::Migrate,
        Expected::Refused(Fault::ReservedMember {
            place: MemberPlace::InStoredBatch { batch: 2, row: 2 },
        }),
    ),
    (Given::Status, Expected::Plain(3, 7)),
];
