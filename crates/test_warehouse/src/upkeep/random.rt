//! Random calls of a session, and its numbers by plain counting.
use crate::upkeep::plain::{Row, SEVERAL, draw_row, groups};
use cube_model::Fault;
use dimensions::Dims;
use sample_sessions::{ask, created_over, status, store_views};
use sample_star::{AVERAGES, Asked, CUBE, Draw, PROFIT, ROLLUP, dim_rows, line_order};
use sector_device::MemDisk;
use std::alloc::Global;
use warehouse::{MOST_CUBOIDS, Session, Status, StoredCuboid};

/// A session, what its status is to be, the rows of its batches, and whether each audit answered yes.
struct Run {
    draw: Draw,
    session: Session<MemDisk>,
    status: Status,
    rows: Vec<Row>,
    is_audited: bool,
}

// Written out, so that a proof has one call to follow where one is let go.
impl Drop for Run {
    fn drop(self) {
        let Run {
            draw: _,
            session: _,
            status: _,
            rows: _,
            is_audited: _,
        } = self;
    }
}

/// A run over a warehouse without batches on 2,048 sectors.
fn begun(alloc: Global, seed: u64) -> Result<Run, Fault> {
    let rows = dim_rows(alloc, &SEVERAL)?;
    let dims = Dims::build(alloc, &rows)?;
    let session = created_over(alloc, MemDisk::new(alloc, 2_048)?, dims)?;
    Ok(Run {
        draw: Draw::new(seed),
        session,
        status: status(0, 0),
        rows: Vec::new(alloc),
        is_audited: true,
    })
}

/// Submits a batch of up to four random rows.
fn load(alloc: Global, run: &mut Run) -> Result<(), Fault> {
    let number = run.status.batches.saturating_add(1);
    let mut facts = Vec::new(alloc);
    for _ in 0..run.draw.up_to(4) {
        let row = draw_row(&mut run.draw, number);
        facts.push(line_order(alloc, &row.fact())?)?;
        run.rows.push(row)?;
    }
    run.session.submit(alloc, number, facts.as_slice())?;
    run.status.batches = number;
    run.status.rows = run.rows.len() as u64;
    run.status.generation = run.status.generation.saturating_add(1);
    Ok(())
}

/// The cuboid of a view as it is stored, or one that holds no batch.
fn stored_or_new(status: &Status, view: u16) -> StoredCuboid {
    for place in &status.cuboids {
        match place {
            Some(cuboid) if cuboid.view == view => return *cuboid,
            _ => {}
        }
    }
    StoredCuboid {
        view,
        runs: 0,
        mark: 0,
        cells: 0,
    }
}

/// The status once the cuboids of some views are stored, and no others.
fn with_views(status: &Status, numbers: &[u16]) -> Status {
    let mut cuboids = [None; MOST_CUBOIDS];
    let mut places = cuboids.iter_mut();
    for number in 0..256 {
        if numbers.contains(&number) {
            if let Some(place) = places.next() {
                *place = Some(stored_or_new(status, number));
            }
        }
    }
    Status {
        target: 0,
        generation: status.generation.saturating_add(1),
        cuboids,
        ..*status
    }
}

/// Stores up to four random views.
fn store(alloc: Global, run: &mut Run) -> Result<(), Fault> {
    let mut numbers = Vec::new(alloc);
    for _ in 0..run.draw.up_to(4) {
        numbers.push(run.draw.below(256) as u16)?;
    }
    store_views(alloc, &mut run.session, numbers.as_slice())?;
    run.status = with_views(&run.status, numbers.as_slice());
    Ok(())
}

/// A cuboid once it holds the first batches, so many of them: a run more with the groups of what it did not hold, or
/// one run with all groups where there are eight.
fn brought_to(
    alloc: Global,
    rows: &[Row],
    cuboid: StoredCuboid,
    mark: u32,
) -> Result<StoredCuboid, Fault> {
    let StoredCuboid { view, runs, .. } = cuboid;
    if runs == 8 {
        return Ok(StoredCuboid {
            view,
            runs: 1,
            mark,
            cells: groups(alloc, rows, view, 0)?,
        });
    }
    let more = groups(alloc, rows, view, cuboid.mark)?;
    Ok(StoredCuboid {
        view,
        runs: runs.saturating_add(1),
        mark,
        cells: cuboid.cells.saturating_add(more),
    })
}

/// The cuboids once they hold that many batches, and how many were brought to them.
fn brought_on(
    alloc: Global,
    rows: &[Row],
    status: &Status,
) -> Result<([Option<StoredCuboid>; MOST_CUBOIDS], u64), Fault> {
    let mut cuboids = status.cuboids;
    let mut brought: u64 = 0;
    for place in cuboids.iter_mut() {
        match *place {
            Some(cuboid) if cuboid.mark < status.batches => {
                *place = Some(brought_to(alloc, rows, cuboid, status.batches)?);
                brought = brought.saturating_add(1);
            }
            _ => {}
        }
    }
    Ok((cuboids, brought))
}

/// Brings each stored cuboid to all batches: one commit sets the target, and one more is made for each cuboid. An audit
/// then answers yes.
fn keep_up(alloc: Global, run: &mut Run) -> Result<(), Fault> {
    run.session.upkeep(alloc)?;
    let (cuboids, brought) = brought_on(alloc, run.rows.as_slice(), &run.status)?;
    if brought > 0 {
        let Status {
            batches,
            generation,
            ..
        } = run.status;
        run.status.target = batches;
        run.status.cuboids = cuboids;
        run.status.generation = generation.saturating_add(brought).saturating_add(1);
    }
    run.is_audited = run.is_audited && run.session.audit(alloc)?;
    Ok(())
}

static QUERIES: [Asked<'static>; 4] = [CUBE, ROLLUP, AVERAGES, PROFIT];

/// Asks queries of each kind over all batches. Each has an answer.
fn ask_each(alloc: Global, run: &mut Run) -> Result<(), Fault> {
    for asked in &QUERIES {
        let _answer = ask(alloc, &mut run.session, run.status.batches, asked)?;
    }
    Ok(())
}

/// Makes a random call.
fn make_call(alloc: Global, run: &mut Run) -> Result<(), Fault> {
    match run.draw.below(32) {
        0 => store(alloc, run),
        1 => ask_each(alloc, run),
        call if call % 2 == 0 => load(alloc, run),
        _ => keep_up(alloc, run),
    }
}

/// How many calls a run has.
const CALLS: u32 = 80;

/// The first call of a run after which the session is not as wanted, if there is one.
fn first_wrong(alloc: Global, seed: u64) -> Result<Option<u32>, Fault> {
    let mut run = begun(alloc, seed)?;
    store(alloc, &mut run)?;
    for call in 0..CALLS {
        make_call(alloc, &mut run)?;
        if !run.is_audited || run.session.status()? != run.status {
            return Ok(Some(call));
        }
    }
    Ok(None)
}

#[test]
fn random_calls_leave_the_cuboids_that_plain_counting_gives(rt: HostRuntime) {
    for seed in 0..4 {
        let wrong = first_wrong(rt.alloc(), seed);
        assert!(rt; wrong == Ok(None), "{seed}: {wrong:?}");
    }
}
