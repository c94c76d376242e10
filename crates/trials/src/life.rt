//! The life of a warehouse on a disk in memory, of which each call fails from one on.
use crate::sample::{Sample, sample_dims};
use cube_model::{Answer, Fault};
use lattice::View;
use sector_device::{Fuse, MemDisk, Sectors};
use ssb_reports::{QNumber, query_of};
use std::alloc::Global;
use warehouse::{Session, create};

/// How many sectors the disk has.
const SECTORS: u32 = 64;

/// How many views are chosen at most.
const VIEWS: u8 = 3;

/// The queries that are asked in a life: one that no cuboid serves, and one for each cuboid.
static ASKED: [QNumber; 3] = [QNumber::Q11, QNumber::Q21, QNumber::Q31];

/// How far a life came: whether the creation was acknowledged, how many batches were, and whether one more was being
/// added.
#[derive(Clone, Copy)]
pub(crate) struct Reached {
    pub(crate) created: bool,
    pub(crate) batches: u32,
    pub(crate) is_adding: bool,
}

impl Reached {
    /// Whether so many batches may be found: those that were acknowledged, or these and the one that was being added.
    pub(crate) fn allows(self, batches: u32) -> bool {
        batches == self.batches || self.is_adding && batches == self.batches.saturating_add(1)
    }
}

/// A life: why it ended before its end, if it did, how far it came, and the disk then.
#[derive(Drop)]
pub(crate) struct Life {
    pub(crate) fault: Option<Fault>,
    pub(crate) reached: Reached,
    pub(crate) disk: MemDisk,
}

/// The life of a warehouse on a new disk, of which each call fails from this one on. A write that fails may have
/// reached the disk.
pub(crate) fn life_until(alloc: Global, sample: &Sample, call: u64) -> Result<Life, Fault> {
    let disk = MemDisk::new(alloc, SECTORS)?;
    let dims = sample_dims(alloc)?;
    let mut reached = Reached {
        created: false,
        batches: 0,
        is_adding: false,
    };
    match create(alloc, Fuse::new(disk, call, true, true), dims) {
        Ok(mut session) => {
            reached.created = true;
            let fault = live(alloc, sample, &mut session, &mut reached).err();
            let disk = session.close().close();
            Ok(Life {
                fault,
                reached,
                disk,
            })
        }
        Err((fault, fuse)) => Ok(Life {
            fault: Some(fault),
            reached,
            disk: fuse.close(),
        }),
    }
}

// Does all that is done in a life after the creation, and notes how far it comes.
fn live<D: Sectors>(
    alloc: Global,
    sample: &Sample,
    session: &mut Session<D>,
    reached: &mut Reached,
) -> Result<(), Fault> {
    add_next(alloc, sample, session, reached)?;
    choose(alloc, session)?;
    session.upkeep(alloc)?;
    add_next(alloc, sample, session, reached)?;
    session.upkeep(alloc)?;
    add_next(alloc, sample, session, reached)?;
    ask_some(alloc, session, reached.batches)
}

// Chooses views for the thirteen queries.
fn choose<D: Sectors>(alloc: Global, session: &mut Session<D>) -> Result<(), Fault> {
    let mut demanded = Vec::new(alloc);
    for number in QNumber::ALL {
        let query = query_of(alloc, number)?;
        if let Some(view) = View::needed_by(&query) {
            demanded.push(view)?;
        }
    }
    let _chosen = session.choose_for(alloc, VIEWS, demanded.as_slice())?;
    Ok(())
}

// Adds the next batch.
fn add_next<D: Sectors>(
    alloc: Global,
    sample: &Sample,
    session: &mut Session<D>,
    reached: &mut Reached,
) -> Result<(), Fault> {
    let number = reached.batches.saturating_add(1);
    reached.is_adding = true;
    session.submit(alloc, number, sample.rows(number))?;
    reached.is_adding = false;
    reached.batches = number;
    Ok(())
}

// Asks some queries.
fn ask_some<D: Sectors>(
    alloc: Global,
    session: &mut Session<D>,
    batches: u32,
) -> Result<(), Fault> {
    for number in ASKED {
        let _answer = ask(alloc, session, batches, number)?;
    }
    Ok(())
}

/// What a session answers to a query of the benchmark over its first batches.
pub(crate) fn ask<D: Sectors>(
    alloc: Global,
    session: &mut Session<D>,
    batches: u32,
    number: QNumber,
) -> Result<Answer, Fault> {
    let query = query_of(alloc, number)?;
    session.query(alloc, batches, &query)
}
