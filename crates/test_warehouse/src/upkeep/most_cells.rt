//! A batch of as many rows and a cuboid of as many cells as there may be, and one more.
use cube_model::Fault;
use dimensions::Dims;
use sample_sessions::{created_over, status, store_views, with_cuboids};
use sample_star::{pairs, rows_of_pairs};
use sector_device::MemDisk;
use std::alloc::Global;
use warehouse::{Session, Status, StoredCuboid};

/// A warehouse of more pairs of a city and a brand than a cuboid may have cells, which stores their cuboid.
fn created(alloc: Global) -> Result<Session<MemDisk>, Fault> {
    let rows = rows_of_pairs(alloc)?;
    let dims = Dims::build(alloc, &rows)?;
    let mut session = created_over(alloc, MemDisk::new(alloc, 262_144)?, dims)?;
    store_views(alloc, &mut session, &[51])?;
    Ok(session)
}

/// A batch: its number, its first pair of city and brand, and how many rows it has, each of the next pair.
type Batch = (u32, u32, u32);

fn submit(alloc: Global, session: &mut Session<MemDisk>, batch: Batch) -> Result<(), Fault> {
    let (number, first, count) = batch;
    let rows = pairs(alloc, first, count)?;
    session.submit(alloc, number, rows.as_slice())
}

/// Batches that are submitted, how the upkeep after them is refused, if it is, and the status then: how many batches
/// and rows there are, the generation, and the mark of the cuboid, which has all its cells in one run.
struct Stage {
    batches: &'static [Batch],
    refused: Option<Fault>,
    status: (u32, u64, u64, u32),
}

/// Four batches of 65,536 rows, each row another pair: as many pairs as a cuboid may have cells. Then a row of a pair
/// that is there, and one of a new pair.
static STAGES: [Stage; 3] = [
    Stage {
        batches: &[
            (1, 0, 65_536),
            (2, 65_536, 65_536),
            (3, 131_072, 65_536),
            (4, 196_608, 65_536),
        ],
        refused: None,
        status: (4, 262_144, 8, 4),
    },
    Stage {
        batches: &[(5, 262_143, 1)],
        refused: None,
        status: (5, 262_145, 11, 5),
    },
    Stage {
        batches: &[(6, 262_144, 1)],
        refused: Some(Fault::TooManyCells { view: 51 }),
        status: (6, 262_146, 13, 5),
    },
];

fn wanted(stage: &Stage) -> Status {
    let (batches, rows, generation, mark) = stage.status;
    let plain = Status {
        target: batches,
        generation,
        ..status(batches, rows)
    };
    let cuboid = StoredCuboid {
        view: 51,
        runs: 1,
        mark,
        cells: 262_144,
    };
    with_cuboids(plain, &[cuboid])
}

/// Whether a session comes to a stage.
fn comes_to(alloc: Global, session: &mut Session<MemDisk>, stage: &Stage) -> Result<bool, Fault> {
    for batch in stage.batches {
        submit(alloc, session, *batch)?;
    }
    let refused = session.upkeep(alloc).err();
    Ok(refused == stage.refused && session.status()? == wanted(stage))
}

/// How a batch of a row too many is refused, if it is, and the first stage to which the session does not come then, if
/// there is one.
fn outcome(alloc: Global) -> Result<(Option<Fault>, Option<usize>), Fault> {
    let mut session = created(alloc)?;
    let refused = submit(alloc, &mut session, (1, 0, 65_537)).err();
    for (place, stage) in STAGES.iter().enumerate() {
        if !comes_to(alloc, &mut session, stage)? {
            return Ok((refused, Some(place)));
        }
    }
    Ok((refused, None))
}

#[test]
fn a_batch_and_a_cuboid_have_their_greatest_sizes(rt: HostRuntime) {
    assert_eq!(rt; outcome(rt.alloc()), Ok((Some(Fault::TooManyRows), None)));
}
