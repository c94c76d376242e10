//! A life in which a later commit drops what an earlier one put, cut off at each device call, with a crash after it.
pub(crate) mod lives;

use crate::replaced::lives::Step::{Submit, Upkeep, Views};
use crate::replaced::lives::{CREATED, Life, Question, State, Way, first_wrong};
use cube_model::{Agg, Attr, Measure};
use sample_sessions::Lines;
use sample_star::{Asked, EVERY_ROW, FACTS};
use warehouse::StoredCuboid;

/// The cuboid of manufacturers and days, and then that of cities, which drops both runs of the first.
static LIFE: Life = Life {
    sectors: 64,
    steps: &[
        Submit(1, &FACTS),
        Views(&[248]),
        Upkeep,
        Submit(2, &FACTS),
        Upkeep,
        Views(&[59]),
        Upkeep,
        Submit(3, &FACTS),
    ],
    states: &[
        CREATED,
        ONE_BATCH,
        State {
            cuboids: &[NO_CELLS],
            ..ONE_BATCH
        },
        State {
            target: 1,
            cuboids: &[DAYS],
            ..ONE_BATCH
        },
        State {
            target: 1,
            cuboids: &[DAYS],
            ..TWO_BATCHES
        },
        State {
            target: 2,
            cuboids: &[TWO_RUNS],
            ..TWO_BATCHES
        },
        State {
            cuboids: &[NO_CITIES],
            ..TWO_BATCHES
        },
        State {
            target: 2,
            cuboids: &[CITIES],
            ..TWO_BATCHES
        },
        State {
            batches: 3,
            rows: 9,
            target: 2,
            cuboids: &[CITIES],
            ..TWO_BATCHES
        },
    ],
    questions: &[
        (Question::Query(BY_YEAR), YEARS),
        (Question::Query(BY_REGION), REGIONS),
    ],
    modes: [
        &[],
        &[("AIR", 1475), ("RAIL", 1940)],
        &[("AIR", 2950), ("RAIL", 3880)],
        &[("AIR", 4425), ("RAIL", 5820)],
    ],
    // 11 of the creation, 5 of each batch, 4 of each choice, and 10, 10 and 11 of the upkeeps.
    calls: 65,
};

const ONE_BATCH: State = State {
    batches: 1,
    rows: 3,
    ..CREATED
};

const TWO_BATCHES: State = State {
    batches: 2,
    rows: 6,
    ..CREATED
};

const DAYS: StoredCuboid = StoredCuboid {
    view: 248,
    runs: 1,
    mark: 1,
    cells: 2,
};

const TWO_RUNS: StoredCuboid = StoredCuboid {
    runs: 2,
    mark: 2,
    cells: 4,
    ..DAYS
};

const NO_CELLS: StoredCuboid = StoredCuboid {
    runs: 0,
    mark: 0,
    cells: 0,
    ..DAYS
};

const NO_CITIES: StoredCuboid = StoredCuboid {
    view: 59,
    ..NO_CELLS
};

const CITIES: StoredCuboid = StoredCuboid {
    runs: 1,
    mark: 2,
    cells: 2,
    ..NO_CITIES
};

/// Revenues by year and by region. The first cuboid has the years, the second the regions.
const BY_YEAR: Asked<'static> = Asked {
    columns: &[Attr::DateYear],
    aggregates: &[Agg::Sum(Measure::Revenue)],
    ..EVERY_ROW
};

const BY_REGION: Asked<'static> = Asked {
    columns: &[Attr::CustomerRegion],
    ..BY_YEAR
};

const YEARS: [Lines; 4] = [
    &[],
    &[(&["1993"], 980), (&["1997"], 2435)],
    &[(&["1993"], 1960), (&["1997"], 4870)],
    &[(&["1993"], 2940), (&["1997"], 7305)],
];

const REGIONS: [Lines; 4] = [
    &[],
    &[(&["AMERICA"], 1940), (&["EUROPE"], 1475)],
    &[(&["AMERICA"], 3880), (&["EUROPE"], 2950)],
    &[(&["AMERICA"], 5820), (&["EUROPE"], 4425)],
];

/// The device fails, and a crash leaves the oldest bytes and the newest in turn.
static WAYS: [Way; 2] = [
    Way {
        all: true,
        reaches: false,
        picks: Some(&[0, 1, 0, 1, 0, 1, 0, 1]),
        opening: 0,
    },
    Way {
        all: true,
        reaches: false,
        picks: Some(&[1, 0, 1, 0, 1, 0, 1, 0]),
        opening: 0,
    },
];

#[test]
fn a_life_that_drops_objects_goes_on(rt: HostRuntime) {
    for way in &WAYS {
        let wrong = first_wrong(rt.alloc(), &LIFE, way);
        assert!(rt; wrong == Ok(None), "{way:?}: {wrong:?}");
    }
}
