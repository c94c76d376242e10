//! A second submit, an addition, and a move to the second layout, that crash after each of their device calls.
use crate::steps::{Step, take};
use cube_model::Fault;
use sample_sessions::{OPENING, SUBMIT, first_other, loaded, opened, refusal, status};
use sample_star::{FACTS, ONE_CUSTOMER};
use sector_device::{Fuse, MemDisk};
use ssb_reports::QNumber;
use std::alloc::Global;
use warehouse::{Layout, Status};

/// A call on a warehouse of one batch, which has as many writes and syncs as each other: the segment, the customers or
/// the ship modes, the catalogue, a sync, the superblock, a sync.
struct Call {
    step: Step,
    /// How many reads come before its writes: of the first batch that of the header, two of each of the three
    /// dictionaries before the ship modes, and that of the ship modes.
    reads: u64,
    /// What it leaves.
    layout: Layout,
    batches: u32,
    additions: u32,
}

static CALLS: [Call; 3] = [
    Call {
        step: Step::Batch(&FACTS),
        reads: 0,
        layout: Layout::First,
        batches: 2,
        additions: 0,
    },
    Call {
        step: Step::Add(&ONE_CUSTOMER),
        reads: 0,
        layout: Layout::First,
        batches: 1,
        additions: 1,
    },
    Call {
        step: Step::Migrate,
        reads: 8,
        layout: Layout::Second,
        batches: 1,
        additions: 0,
    },
];

/// How many writes and syncs are made, which candidates the sectors take, and whether the call is found done then.
type Crash = (u64, &'static [u32], bool);

/// After one write a sector has two candidates, after two writes two sectors have, and after four calls that of the
/// superblock.
static CRASHES: [Crash; 16] = [
    (0, &[], false),
    (0, &[1, 1], false),
    (1, &[0], false),
    (1, &[1], false),
    (2, &[0, 0], false),
    (2, &[0, 1], false),
    (2, &[1, 0], false),
    (2, &[1, 1], false),
    (3, &[0, 0], false),
    (3, &[1, 1], false),
    (4, &[0], false),
    (4, &[1], true),
    (4, &[0, 1], false),
    (4, &[1, 0], true),
    (5, &[0, 0], true),
    (5, &[1, 1], true),
];

/// How a call is refused that crashes, if it is, and the disk then.
fn crashed(alloc: Global, call: &Call, crash: &Crash) -> Result<(Option<Fault>, MemDisk), Fault> {
    let disk = loaded(alloc, 1)?.close();
    let calls = crash.0.saturating_add(call.reads);
    let fuse = Fuse::new(disk, calls.saturating_add(OPENING + 1), true, false);
    let mut session = opened(alloc, fuse)?;
    let refused = take(alloc, &mut session, &call.step).err();
    Ok((refused, session.close().close().crash(crash.1)))
}

/// How it is refused, the status that it leaves, and the first of the benchmark's queries that is answered otherwise
/// then, if one is.
type Left = (Option<Fault>, Status, Option<QNumber>);

fn left(alloc: Global, call: &Call, crash: &Crash) -> Result<Left, Fault> {
    let (refused, disk) = crashed(alloc, call, crash)?;
    let mut session = opened(alloc, disk)?;
    let status = session.status()?;
    let other = first_other(alloc, &mut session, status.batches)?;
    Ok((refused, status, other))
}

fn wanted(call: &Call, crash: &Crash) -> Left {
    let done = Status {
        layout: call.layout,
        additions: call.additions,
        generation: 3,
        ..status(call.batches, u64::from(call.batches).saturating_mul(3))
    };
    let status = if crash.2 { done } else { status(1, 3) };
    (refusal(crash.0, SUBMIT), status, None)
}

#[test]
fn a_crash_leaves_what_was_or_the_call_done(rt: HostRuntime) {
    for (place, call) in CALLS.iter().enumerate() {
        for crash in &CRASHES {
            assert!(rt;
                left(rt.alloc(), call, crash) == Ok(wanted(call, crash)),
                "call {place}, {crash:?}"
            );
        }
    }
}
