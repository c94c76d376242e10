//! Openings that finish an upkeep that was cut off.
use cube_model::Fault;
use sample_sessions::{
    Change, OPENING, THREE, as_is, first_other, half_opened, loaded, make_change, opened, refusal,
    status, status_of_three, store_views, submit, with_cuboids,
};
use sample_star::FACTS;
use sector_device::{Fuse, MemDisk};
use ssb_reports::QNumber;
use std::alloc::Global;
use warehouse::{Session, Status, StoredCuboid};

/// The calls of the commit of the target: the catalogue, a sync, the superblock, a sync.
const AIM: u64 = 4;

/// A session of so many batches of the sample rows that stores three cuboids without a batch.
fn with_views(alloc: Global, batches: u32) -> Result<Session<MemDisk>, Fault> {
    let mut session = loaded(alloc, 1)?;
    store_views(alloc, &mut session, &[59, 203, 248])?;
    for number in 2..=batches {
        submit(alloc, &mut session, number, &FACTS)?;
    }
    Ok(session)
}

/// The disk of it after an upkeep that crashed right after the commit of the target. A catalogue has so many sectors
/// more than one.
fn cut_off(alloc: Global, batches: u32, sectors: u64) -> Result<MemDisk, Fault> {
    let disk = with_views(alloc, batches)?.close();
    let calls = sectors.saturating_mul(2).saturating_add(OPENING + AIM);
    let fuse = Fuse::new(disk, calls.saturating_add(1), true, false);
    let mut session = opened(alloc, fuse)?;
    let _refused = session.upkeep(alloc);
    Ok(session.close().close().crash(&[]))
}

/// The three cuboids of which the first hold so many batches, each in one run, and the others none.
fn cuboids(brought: usize, batches: u32) -> [StoredCuboid; 3] {
    let mut cuboids = THREE;
    for (place, cuboid) in cuboids.iter_mut().enumerate() {
        if place < brought {
            cuboid.mark = batches;
        } else {
            *cuboid = StoredCuboid {
                view: cuboid.view,
                runs: 0,
                mark: 0,
                cells: 0,
            };
        }
    }
    cuboids
}

/// An upkeep that was cut off: how many batches there are, how many sectors a catalogue has more than one, and a change
/// of the disk. And what an opening leaves: the generation, and how many cuboids hold the batches.
struct Case {
    batches: u32,
    sectors: u64,
    change: Change,
    generation: u64,
    brought: usize,
}

/// A change that leaves the name as it is.
const NONE: Change = (0, 0, b"SSB");

/// The last generation but one, which is even, in the superblock of the generation that the upkeep reached.
const LAST_BUT_ONE: Change = (0, 16, b"\xfe\xff\xff\xff\xff\xff\xff\xff");

/// How many cuboids find an extent on a full device: first fits by hand, of one sector for each object and three for a
/// catalogue.
static CASES: [Case; 6] = [
    Case {
        batches: 1,
        sectors: 0,
        change: NONE,
        generation: 7,
        brought: 3,
    },
    Case {
        batches: 1,
        sectors: 0,
        change: LAST_BUT_ONE,
        generation: 18_446_744_073_709_551_615,
        brought: 1,
    },
    Case {
        batches: 47,
        sectors: 2,
        change: NONE,
        generation: 53,
        brought: 3,
    },
    Case {
        batches: 48,
        sectors: 2,
        change: NONE,
        generation: 53,
        brought: 2,
    },
    Case {
        batches: 49,
        sectors: 2,
        change: NONE,
        generation: 53,
        brought: 1,
    },
    Case {
        batches: 51,
        sectors: 2,
        change: NONE,
        generation: 54,
        brought: 0,
    },
];

/// The status after an opening, and the first of the benchmark's queries that is answered otherwise then, if one is.
type Seen = (Status, Option<QNumber>);

fn seen(alloc: Global, case: &Case) -> Result<Seen, Fault> {
    let mut disk = cut_off(alloc, case.batches, case.sectors)?;
    make_change(&mut disk, case.change)?;
    let mut session = opened(alloc, disk)?;
    let other = first_other(alloc, &mut session, case.batches)?;
    Ok((session.status()?, other))
}

fn wanted(case: &Case) -> Seen {
    let plain = Status {
        target: case.batches,
        generation: case.generation,
        ..status(case.batches, u64::from(case.batches).saturating_mul(3))
    };
    let cuboids = cuboids(case.brought, case.batches);
    (with_cuboids(plain, &cuboids), None)
}

#[test]
fn an_opening_finishes_an_upkeep_where_it_can(rt: HostRuntime) {
    for (place, case) in CASES.iter().enumerate() {
        assert!(rt; seen(rt.alloc(), case) == Ok(wanted(case)), "case {place}");
    }
}

/// The calls of the opening over one batch. Each cuboid has six: the segment is read, and its commit writes the cells,
/// the catalogue, a sync, the superblock, a sync.
const FINISHING: u64 = OPENING + 18;

/// How that opening is refused that crashes after so many calls, if it is, how many batches are left then, the status
/// after another opening, and what an audit answers.
type Outcome = (Option<Fault>, u32, Status, bool);

fn outcome(alloc: Global, calls: u64, picks: &[u32]) -> Result<Outcome, Fault> {
    let (fault, disk) = half_opened(alloc, cut_off(alloc, 1, 0)?, calls);
    let session = as_is(alloc, disk.crash(picks))?;
    let batches = session.status()?.batches;
    let mut session = opened(alloc, session.close())?;
    let status = session.status()?;
    Ok((fault, batches, status, session.audit(alloc)?))
}

/// After how many calls the opening crashed that first left something else, if any did.
fn first_wrong(alloc: Global, picks: &[u32]) -> Result<Option<u64>, Fault> {
    for calls in 0..=FINISHING {
        let wanted = (refusal(calls, FINISHING), 1, status_of_three(), true);
        if outcome(alloc, calls, picks)? != wanted {
            return Ok(Some(calls));
        }
    }
    Ok(None)
}

/// Which candidates the sectors take: the oldest, the newest, and both in turn.
static PICKS: [&[u32]; 4] = [
    &[0; 8],
    &[1; 8],
    &[0, 1, 0, 1, 0, 1, 0, 1],
    &[1, 0, 1, 0, 1, 0, 1, 0],
];

#[test]
fn a_crashed_opening_is_finished_by_the_next(rt: HostRuntime) {
    for picks in &PICKS {
        let wrong = first_wrong(rt.alloc(), picks);
        assert!(rt; wrong == Ok(None), "{picks:?}: {wrong:?}");
    }
}
