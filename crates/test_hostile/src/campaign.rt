//! A campaign over a whole life of a warehouse: creation, batches, a choice, upkeeps, an addition to the dimensions, a
//! move to the second layout, a cuboid by ship mode, a batch with a new ship mode and reports, some by ship mode, of
//! which each device call fails in turn, once and from then on, with a crash after it, and of which each opening after
//! such a crash is cut off in turn.
use crate::replaced::lives::Question::Benchmark;
use crate::replaced::lives::Step::{Add, Ask, Choose, Migrate, Submit, Upkeep, Views};
use crate::replaced::lives::{CREATED, Life, Question, State, Way, first_wrong};
use sample_sessions::{Lines, THREE};
use sample_star::{FACTS, FIRST_FACT, Fact, STRANGER};
use ssb_reports::QNumber;
use warehouse::{Layout, StoredCuboid};

/// The cuboids of the choice are brought to the first batch, and to the second, which has a row of the customer that is
/// added between the two. After the move to the second layout a cuboid by ship mode is stored and brought to these
/// batches, and the third batch has a ship mode more.
static LIFE: Life = Life {
    sectors: 256,
    steps: &[
        Submit(1, &FACTS),
        Choose,
        Upkeep,
        Add,
        Submit(2, &[STRANGER]),
        Upkeep,
        Migrate,
        Views(&[59, 203, 248, 507]),
        Upkeep,
        Submit(3, &[BY_SHIP]),
        Ask,
    ],
    states: &[
        CREATED,
        State {
            target: 0,
            cuboids: &[],
            ..KEPT
        },
        State {
            target: 0,
            cuboids: &[
                NO_CELLS,
                StoredCuboid {
                    view: 203,
                    ..NO_CELLS
                },
                StoredCuboid {
                    view: 248,
                    ..NO_CELLS
                },
            ],
            ..KEPT
        },
        KEPT,
        State {
            additions: 1,
            ..KEPT
        },
        State {
            batches: 2,
            rows: 4,
            additions: 1,
            ..KEPT
        },
        State {
            layout: Layout::First,
            ..MOVED
        },
        MOVED,
        State {
            target: 0,
            cuboids: &[
                CITIES,
                BRANCHES,
                DAYS,
                StoredCuboid {
                    view: 507,
                    ..NO_CELLS
                },
            ],
            ..MOVED
        },
        State {
            batches: 2,
            rows: 4,
            ..LAST
        },
        LAST,
        LAST,
    ],
    questions: QUESTIONS,
    modes: [
        &[],
        &[("AIR", 1475), ("RAIL", 1940)],
        &[("AIR", 1475), ("RAIL", 3880)],
        &[("AIR", 1475), ("RAIL", 3880), ("SHIP", 980)],
    ],
    // 11 of the creation, 5 of each batch and of the addition, 4 of the choice and of the views with one by ship mode,
    // 22 of each upkeep of three cuboids, 11 of that of one over two batches, 21 of the move, which reads eight parts
    // of each of two batches, and at least one of the questions.
    calls: 116,
};

/// The row of the third batch, by the first ship mode that no row before it has.
const BY_SHIP: Fact<'static> = Fact {
    shipmode: "SHIP",
    ..FIRST_FACT
};

/// After the first upkeep.
const KEPT: State = State {
    batches: 1,
    rows: 3,
    target: 1,
    cuboids: &THREE,
    ..CREATED
};

/// After the move to the second layout.
const MOVED: State = State {
    layout: Layout::Second,
    batches: 2,
    rows: 4,
    additions: 1,
    target: 2,
    cuboids: &[CITIES, BRANCHES, DAYS],
};

/// At the end.
const LAST: State = State {
    batches: 3,
    rows: 5,
    cuboids: &[CITIES, BRANCHES, DAYS, BY_MODE],
    ..MOVED
};

const NO_CELLS: StoredCuboid = StoredCuboid {
    view: 59,
    runs: 0,
    mark: 0,
    cells: 0,
};

/// The cuboids of the choice with both batches.
const CITIES: StoredCuboid = StoredCuboid {
    view: 59,
    runs: 2,
    mark: 2,
    cells: 3,
};

const BRANCHES: StoredCuboid = StoredCuboid {
    view: 203,
    ..CITIES
};

const DAYS: StoredCuboid = StoredCuboid {
    view: 248,
    ..CITIES
};

/// The cuboid by manufacturer and ship mode.
const BY_MODE: StoredCuboid = StoredCuboid {
    view: 507,
    runs: 1,
    mark: 2,
    cells: 2,
};

/// What the queries of the benchmark answer over the first batches, worked out by hand.
const QUESTIONS: &[(Question, [Lines; 4])] = &[
    (
        Benchmark(QNumber::Q11),
        [&[], &[(&[], 2000)], &[(&[], 2000)], &[(&[], 4000)]],
    ),
    (Benchmark(QNumber::Q12), NO_LINES),
    (Benchmark(QNumber::Q13), NO_LINES),
    (Benchmark(QNumber::Q21), NO_LINES),
    (Benchmark(QNumber::Q22), NO_LINES),
    (Benchmark(QNumber::Q23), NO_LINES),
    (Benchmark(QNumber::Q31), NO_LINES),
    (
        Benchmark(QNumber::Q32),
        [
            &[],
            &[(&["UNITED ST3", "UNITED ST0", "1997"], 1940)],
            TWO_CITIES,
            TWO_CITIES,
        ],
    ),
    (
        Benchmark(QNumber::Q33),
        [
            &[],
            TWO_YEARS,
            TWO_YEARS,
            &[
                (&["UNITED KI1", "UNITED KI5", "1993"], 1960),
                (&["UNITED KI1", "UNITED KI5", "1997"], 495),
            ],
        ],
    ),
    (Benchmark(QNumber::Q34), [&[], DECEMBER, DECEMBER, DECEMBER]),
    (
        Benchmark(QNumber::Q41),
        [
            &[],
            &[(&["1997", "UNITED STATES"], -60)],
            &[(&["1997", "UNITED STATES"], -120)],
            &[(&["1997", "UNITED STATES"], -120)],
        ],
    ),
    (
        Benchmark(QNumber::Q42),
        [
            &[],
            &[(&["1997", "UNITED STATES", "MFGR#14"], -60)],
            &[(&["1997", "UNITED STATES", "MFGR#14"], -120)],
            &[(&["1997", "UNITED STATES", "MFGR#14"], -120)],
        ],
    ),
    (
        Benchmark(QNumber::Q43),
        [
            &[],
            &[(&["1997", "UNITED ST0", "MFGR#142"], -60)],
            &[(&["1997", "UNITED ST0", "MFGR#142"], -120)],
            &[(&["1997", "UNITED ST0", "MFGR#142"], -120)],
        ],
    ),
];

const NO_LINES: [Lines; 4] = [&[], &[], &[], &[]];

const TWO_CITIES: Lines = &[
    (&["UNITED ST1", "UNITED ST0", "1997"], 1940),
    (&["UNITED ST3", "UNITED ST0", "1997"], 1940),
];

const TWO_YEARS: Lines = &[
    (&["UNITED KI1", "UNITED KI5", "1993"], 980),
    (&["UNITED KI1", "UNITED KI5", "1997"], 495),
];

const DECEMBER: Lines = &[(&["UNITED KI1", "UNITED KI5", "1997"], 495)];

/// Each way in which a life is cut off: one call fails, or each from one on; and the disk is taken further as it is, or
/// a crash leaves the oldest bytes of each sector, the newest, or both in turn.
static WAYS: [Way; 8] = [
    ONE,
    Way {
        reaches: true,
        ..ONE
    },
    Way {
        reaches: true,
        picks: Some(&[0, 1, 0, 1, 0, 1, 0, 1]),
        ..ONE
    },
    Way {
        picks: Some(&[0; 8]),
        ..ALL
    },
    Way {
        picks: Some(&[1; 8]),
        ..ALL
    },
    Way {
        picks: Some(&[0, 1, 0, 1, 0, 1, 0, 1]),
        ..ALL
    },
    ALL,
    Way {
        reaches: true,
        ..ALL
    },
];

const ONE: Way = Way {
    all: false,
    reaches: false,
    picks: None,
    opening: 0,
};

const ALL: Way = Way {
    all: true,
    picks: Some(&[1, 0, 1, 0, 1, 0, 1, 0]),
    ..ONE
};

#[test]
fn a_life_that_is_cut_off_goes_on(rt: HostRuntime) {
    for way in &WAYS {
        let wrong = first_wrong(rt.alloc(), &LIFE, way);
        assert!(rt; wrong == Ok(None), "{way:?}: {wrong:?}");
    }
}

/// The opening crashes too, at each of its calls.
static OPENING: Way = Way {
    opening: 100,
    ..ALL
};

#[test]
fn an_opening_that_is_cut_off_goes_on(rt: HostRuntime) {
    let wrong = first_wrong(rt.alloc(), &LIFE, &OPENING);
    assert!(rt; wrong == Ok(None), "{wrong:?}");
}
