//! A cuboid of as many runs as there may be, and one more.
use crate::steps::{Step, after, take};
use cube_model::{Agg, Attr, Fault, Measure};
use sample_sessions::{Lines, answer, ask, status, with_cuboids};
use sample_star::{Asked, EVERY_ROW, FACTS};
use sector_device::MemDisk;
use std::alloc::Global;
use warehouse::{Session, Status, StoredCuboid};

const BY_YEAR: Asked<'static> = Asked {
    columns: &[Attr::DateYear],
    aggregates: &[Agg::Sum(Measure::Revenue)],
    ..EVERY_ROW
};

/// The revenues by year of one batch of the sample rows.
const REVENUES: Lines = &[(&["1993"], 980), (&["1997"], 2435)];

const SAMPLE: Step = Step::Batch(&FACTS);

/// How many runs the cuboid of days and manufacturers has once it was brought to each of so many batches in turn: nine
/// are merged.
static RUNS: [(u32, u16); 9] = [
    (1, 1),
    (2, 2),
    (3, 3),
    (4, 4),
    (5, 5),
    (6, 6),
    (7, 7),
    (8, 8),
    (9, 1),
];

/// The status then. Each run has two cells, and each batch took three commits: its own, that of the target, and that of
/// its run.
fn wanted(batches: u32, runs: u16) -> Status {
    let cuboid = StoredCuboid {
        view: 248,
        runs,
        mark: batches,
        cells: u32::from(runs) * 2,
    };
    let plain = Status {
        target: batches,
        generation: 3 * u64::from(batches) + 2,
        ..status(batches, 3 * u64::from(batches))
    };
    with_cuboids(plain, &[cuboid])
}

/// Brings the cuboid to one more batch. Whether all is as it should be then.
fn is_right(
    alloc: Global,
    session: &mut Session<MemDisk>,
    batches: u32,
    runs: u16,
) -> Result<bool, Fault> {
    take(alloc, session, &SAMPLE)?;
    session.upkeep(alloc)?;
    let revenues = ask(alloc, session, batches, &BY_YEAR)?;
    Ok(
        session.status()? == wanted(batches, runs)
            && session.audit(alloc)?
            && revenues == answer(alloc, REVENUES, batches)?,
    )
}

/// The number of batches with which something else is found, if any.
fn first_wrong(alloc: Global) -> Result<Option<u32>, Fault> {
    let mut session = after(alloc, &[Step::Views(&[248])])?;
    for (batches, runs) in &RUNS {
        if !is_right(alloc, &mut session, *batches, *runs)? {
            return Ok(Some(*batches));
        }
    }
    Ok(None)
}

#[test]
fn a_ninth_run_merges_all(rt: HostRuntime) {
    assert_eq!(rt; first_wrong(rt.alloc()), Ok(None));
}
