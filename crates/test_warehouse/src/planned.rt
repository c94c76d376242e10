//! Plans over stored cuboids, answers by them, and how many sectors these and the steps of a query read.
use crate::steps::{Step, after};
use cube_model::{Agg, Answer, Attr, Fault, Items, Measure, Query};
use mode_queries::{ModeCond, ModeQuery};
use sample_sessions::{Lines, answer};
use sample_star::{Asked, EVERY_ROW, FACTS, THIRD_FACT, query, text};
use sector_device::MemDisk;
use std::alloc::Global;
use warehouse::{Plan, Priced, Running, Session, Stepped};

const BY_YEAR: Asked<'static> = Asked {
    columns: &[Attr::DateYear],
    aggregates: &[Agg::Sum(Measure::Revenue)],
    ..EVERY_ROW
};

const BY_WEEK: Asked<'static> = Asked {
    columns: &[Attr::DateWeeknuminyear],
    ..BY_YEAR
};

/// One batch of the three sample rows, and three cuboids that hold it, of which that of days and manufacturers serves a
/// query by dates alone.
const THREE: &[Step] = &[
    Step::Batch(&FACTS),
    Step::Views(&[59, 203, 248]),
    Step::Upkeep,
];

/// And a second batch of the third row, which they do not hold.
const WITH_TAIL: &[Step] = &[
    Step::Batch(&FACTS),
    Step::Views(&[59, 203, 248]),
    Step::Upkeep,
    Step::Batch(&[THIRD_FACT]),
];

/// The same, once they hold it.
const KEPT_UP: &[Step] = &[
    Step::Batch(&FACTS),
    Step::Views(&[59, 203, 248]),
    Step::Upkeep,
    Step::Batch(&[THIRD_FACT]),
    Step::Upkeep,
];

/// Ten batches of the sample rows, which they hold since one upkeep.
const TEN: &[Step] = &[
    Step::Views(&[59, 203, 248]),
    Step::Batch(&FACTS),
    Step::Batch(&FACTS),
    Step::Batch(&FACTS),
    Step::Batch(&FACTS),
    Step::Batch(&FACTS),
    Step::Batch(&FACTS),
    Step::Batch(&FACTS),
    Step::Batch(&FACTS),
    Step::Batch(&FACTS),
    Step::Batch(&FACTS),
    Step::Upkeep,
];

/// The view's number and the mark of a plan's cuboid, or nothing of a scan, and what the plan reads.
type Read = (Option<(u16, u32)>, u64);

fn read_of(priced: &Priced) -> Read {
    match priced.plan {
        Plan::Scan => (None, priced.cost),
        Plan::Cells { view, mark } => (Some((view.index(), mark)), priced.cost),
    }
}

/// A query over the first batches of a warehouse.
struct Case {
    steps: &'static [Step],
    as_of: u32,
    asked: Asked<'static>,
    /// Every plan that answers it, the one that is taken first.
    plans: &'static [Read],
    lines: Lines,
    /// How many sectors the answer reads at most.
    sectors: u64,
}

const OF_ONE: Lines = &[(&["1993"], 980), (&["1997"], 2435)];

const OF_TWO: Lines = &[(&["1993"], 980), (&["1997"], 2930)];

static CASES: [Case; 7] = [
    Case {
        steps: THREE,
        as_of: 1,
        asked: BY_YEAR,
        plans: &[(Some((248, 1)), 2), (None, 3)],
        lines: OF_ONE,
        sectors: 1,
    },
    Case {
        steps: WITH_TAIL,
        as_of: 1,
        asked: BY_YEAR,
        plans: &[(Some((248, 1)), 2), (None, 3)],
        lines: OF_ONE,
        sectors: 1,
    },
    // The cells, and the one row of the second batch.
    Case {
        steps: WITH_TAIL,
        as_of: 2,
        asked: BY_YEAR,
        plans: &[(Some((248, 1)), 3), (None, 4)],
        lines: OF_TWO,
        sectors: 2,
    },
    // The cells hold the second batch, which is not asked.
    Case {
        steps: KEPT_UP,
        as_of: 1,
        asked: BY_YEAR,
        plans: &[(None, 3)],
        lines: OF_ONE,
        sectors: 1,
    },
    Case {
        steps: KEPT_UP,
        as_of: 2,
        asked: BY_YEAR,
        plans: &[(Some((248, 2)), 3), (None, 4)],
        lines: OF_TWO,
        sectors: 2,
    },
    // Ten batches in one run of two cells.
    Case {
        steps: TEN,
        as_of: 10,
        asked: BY_YEAR,
        plans: &[(Some((248, 10)), 2), (None, 30)],
        lines: &[(&["1993"], 9800), (&["1997"], 24350)],
        sectors: 1,
    },
    // A day has one week.
    Case {
        steps: TEN,
        as_of: 10,
        asked: BY_WEEK,
        plans: &[(Some((248, 10)), 2), (None, 30)],
        lines: &[(&["1"], 9800), (&["49"], 24350)],
        sectors: 1,
    },
];

/// What a query over the first batches is answered, and how many sectors that reads.
fn asked_of(
    alloc: Global,
    session: &mut Session<MemDisk>,
    as_of: u32,
    query: &Query,
) -> Result<(Answer, u64), Fault> {
    let before = session.device().reads();
    let answer = session.query(alloc, as_of, query)?;
    Ok((answer, session.device().reads().saturating_sub(before)))
}

/// Whether just the plans of a case are listed, the answer is as wanted, and it reads few sectors.
fn is_answered(alloc: Global, case: &Case) -> Result<bool, Fault> {
    let mut session = after(alloc, case.steps)?;
    let query = query(alloc, &case.asked)?;
    let plans = session.plans(alloc, case.as_of, &query)?;
    let (found, reads) = asked_of(alloc, &mut session, case.as_of, &query)?;
    Ok(
        plans.iter().map(read_of).eq(case.plans.iter().copied())
            && found == answer(alloc, case.lines, 1)?
            && reads <= case.sectors,
    )
}

#[test]
fn queries_are_answered_by_the_plan_that_reads_least(rt: HostRuntime) {
    for (place, case) in CASES.iter().enumerate() {
        assert!(rt; is_answered(rt.alloc(), case) == Ok(true), "case {place}");
    }
}

/// Two batches, of which the second has the third row alone, and no cuboids.
const TWO: &[Step] = &[Step::Batch(&FACTS), Step::Batch(&[THIRD_FACT])];

/// Over how many of them the revenue by years is asked, and how many sectors each step reads.
static READS: [(u32, &[u64]); 3] = [(0, &[0]), (1, &[1, 0]), (2, &[1, 1, 0])];

/// How many sectors each step of a running query reads.
fn reads_of_steps(
    alloc: Global,
    session: &mut Session<MemDisk>,
    mut running: Running,
) -> Result<Vec<u64>, Fault> {
    let mut reads = Vec::new(alloc);
    for _ in 0..9 {
        let before = session.device().reads();
        let stepped = session.step(alloc, running);
        reads.push(session.device().reads().saturating_sub(before))?;
        match stepped {
            Stepped::More(next) => running = next,
            Stepped::Done(_) => return Ok(reads),
            Stepped::Refused(_, fault) => return Err(fault),
        }
    }
    Err(Fault::NotRunning)
}

/// Whether the start of the query reads nothing, and its steps read so many sectors.
fn are_read(alloc: Global, as_of: u32, wanted: &[u64]) -> Result<bool, Fault> {
    let mut session = after(alloc, TWO)?;
    let query = query(alloc, &BY_YEAR)?;
    let before = session.device().reads();
    let running = session.start(alloc, as_of, &query)?;
    let at_start = session.device().reads().saturating_sub(before);
    let reads = reads_of_steps(alloc, &mut session, running)?;
    Ok(at_start == 0 && reads.as_slice() == wanted)
}

#[test]
fn a_step_reads_one_batch(rt: HostRuntime) {
    for (as_of, reads) in &READS {
        assert!(rt;
            are_read(rt.alloc(), *as_of, reads) == Ok(true),
            "as of {as_of}"
        );
    }
}

/// A query that may look at ship modes, over one batch of the three sample rows in the second layout.
#[derive(Clone, Copy)]
struct ByModes {
    /// The steps that make the warehouse.
    steps: &'static [Step],
    asked: Asked<'static>,
    /// The place of the ship mode among the columns, if it is one of them.
    place: Option<usize>,
    /// The ship modes that are asked for, from one to another, if not all are.
    between: Option<(&'static str, &'static str)>,
    /// Every plan that answers it, the one that is taken first.
    plans: &'static [Read],
}

/// View 507 has a cell for each of two ship modes. Views 59 and 251 do not group by ship mode.
const BY_MODE: ByModes = ByModes {
    steps: &[
        Step::Batch(&FACTS),
        Step::Migrate,
        Step::Views(&[59, 251, 507]),
        Step::Upkeep,
    ],
    asked: EVERY_ROW,
    place: Some(0),
    between: None,
    plans: &[(Some((507, 1)), 2), (None, 3)],
};

static BY_MODES: [ByModes; 6] = [
    BY_MODE,
    // A condition on ship modes needs them too.
    ByModes {
        place: None,
        between: Some(("AIR", "MAIL")),
        ..BY_MODE
    },
    ByModes {
        steps: &[
            Step::Batch(&FACTS),
            Step::Migrate,
            Step::Views(&[59, 251]),
            Step::Upkeep,
        ],
        plans: &[(None, 3)],
        ..BY_MODE
    },
    // Years are in no cell of view 507.
    ByModes {
        asked: BY_YEAR,
        plans: &[(None, 3)],
        ..BY_MODE
    },
    // View 504 has a cell for each row: the scan is taken at a tie.
    ByModes {
        steps: &[
            Step::Batch(&FACTS),
            Step::Migrate,
            Step::Views(&[504, 507]),
            Step::Upkeep,
        ],
        asked: BY_YEAR,
        plans: &[(None, 3), (Some((504, 1)), 3)],
        ..BY_MODE
    },
    // Where ship modes are not looked at, each of the three views serves.
    ByModes {
        place: None,
        plans: &[
            (Some((251, 1)), 1),
            (Some((59, 1)), 2),
            (None, 3),
            (Some((507, 1)), 2),
        ],
        ..BY_MODE
    },
];

fn moded_query(alloc: Global, case: &ByModes) -> Result<ModeQuery, Fault> {
    let mut conditions = Items::new(alloc);
    if let Some((low, high)) = case.between {
        let low = text(alloc, low)?;
        let high = text(alloc, high)?;
        conditions.push(ModeCond::Between(low, high))?;
    }
    Ok(ModeQuery {
        query: query(alloc, &case.asked)?,
        place: case.place,
        conditions,
    })
}

/// Whether just the plans of a case are listed.
fn are_moded_plans(alloc: Global, case: &ByModes) -> Result<bool, Fault> {
    let session = after(alloc, case.steps)?;
    let asked = moded_query(alloc, case)?;
    let plans = session.moded_plans(alloc, 1, &asked)?;
    Ok(plans.iter().map(read_of).eq(case.plans.iter().copied()))
}

#[test]
fn cuboids_by_ship_mode_serve_queries_that_look_at_them(rt: HostRuntime) {
    for (place, case) in BY_MODES.iter().enumerate() {
        assert!(rt;
            are_moded_plans(rt.alloc(), case) == Ok(true),
            "case {place}"
        );
    }
}
