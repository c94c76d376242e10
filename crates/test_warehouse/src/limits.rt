//! Warehouses with as many batches as a small device takes, and as many batches and additions as there may be, and one
//! more.
use crate::steps::{Step, take};
use cube_model::{Answer, Fault};
use sample_sessions::{answer, created, status};
use sample_star::{FACTS, FIRST_CUSTOMER, NO_ROWS, Star};
use sector_device::MemDisk;
use ssb_reports::{QNumber, query_of};
use std::alloc::Global;
use warehouse::{Session, Status, open_and_query};

/// A customer that is there: were there one addition less, it would be refused for its key.
const AGAIN: Star<'static> = Star {
    customers: &[FIRST_CUSTOMER],
    ..NO_ROWS
};

const SAMPLE: Step = Step::Batch(&FACTS);

/// A warehouse of one batch of the sample rows, after a step that was taken so often. One more is refused.
struct Limit {
    sectors: u32,
    count: u32,
    step: Step,
    further: Step,
    refused: Fault,
    /// How many batches there are then, how many of these have the sample rows, and how many additions.
    batches: u32,
    filled: u32,
    additions: u32,
}

/// With a 52nd batch there would be no three free sectors in a row for a catalogue.
static SMALL_DEVICE: Limit = Limit {
    sectors: 64,
    count: 50,
    step: SAMPLE,
    further: SAMPLE,
    refused: Fault::Full,
    batches: 51,
    filled: 51,
    additions: 0,
};

/// A sector for each batch and each dimension, and room for two catalogues of 82,060 bytes: 12 bytes, 16 for each
/// object, 64 and 4 for each batch.
static MOST_BATCHES: Limit = Limit {
    sectors: 8_192,
    count: 4_095,
    step: Step::Batch(&[]),
    further: SAMPLE,
    refused: Fault::TooManyBatches,
    batches: 4_096,
    filled: 1,
    additions: 0,
};

static MOST_ADDITIONS: Limit = Limit {
    sectors: 64,
    count: 4_096,
    step: Step::Add(&NO_ROWS),
    further: Step::Add(&AGAIN),
    refused: Fault::TooManyAdditions,
    batches: 1,
    filled: 1,
    additions: 4_096,
};

fn filled(alloc: Global, limit: &Limit) -> Result<Session<MemDisk>, Fault> {
    let mut session = created(alloc, MemDisk::new(alloc, limit.sectors)?)?;
    take(alloc, &mut session, &SAMPLE)?;
    for _ in 0..limit.count {
        take(alloc, &mut session, &limit.step)?;
    }
    Ok(session)
}

/// How a further step is refused, if it is, before and after a crash and an opening, the status then, and the first
/// query of the benchmark over all batches.
type Found = ([Option<Fault>; 2], Status, Answer);

fn found(alloc: Global, limit: &Limit) -> Result<Found, Fault> {
    let query = query_of(alloc, QNumber::Q11)?;
    let mut session = filled(alloc, limit)?;
    let first = take(alloc, &mut session, &limit.further).err();
    let disk = session.close().crash(&[]);
    let (mut session, answer) = match open_and_query(alloc, disk, limit.batches, &query) {
        Ok(found) => found,
        Err((fault, _)) => return Err(fault),
    };
    let second = take(alloc, &mut session, &limit.further).err();
    Ok(([first, second], session.status()?, answer))
}

fn wanted(alloc: Global, limit: &Limit) -> Result<Found, Fault> {
    let status = Status {
        additions: limit.additions,
        generation: u64::from(limit.batches.saturating_add(limit.additions)) + 1,
        ..status(limit.batches, u64::from(limit.filled).saturating_mul(3))
    };
    let answer = answer(alloc, &[(&[], 2000)], limit.filled)?;
    Ok(([Some(limit.refused); 2], status, answer))
}

#[test]
fn one_batch_too_many_is_refused_on_a_small_device(rt: HostRuntime) {
    assert!(rt; found(rt.alloc(), &SMALL_DEVICE) == wanted(rt.alloc(), &SMALL_DEVICE));
}

#[test]
fn a_warehouse_has_at_most_4096_batches(rt: HostRuntime) {
    assert!(rt; found(rt.alloc(), &MOST_BATCHES) == wanted(rt.alloc(), &MOST_BATCHES));
}

#[test]
fn a_warehouse_counts_at_most_4096_additions(rt: HostRuntime) {
    assert!(rt; found(rt.alloc(), &MOST_ADDITIONS) == wanted(rt.alloc(), &MOST_ADDITIONS));
}
