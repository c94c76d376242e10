//! Calls that commit, as constants can hold them.
use cube_model::Fault;
use sample_sessions::{add, fresh, store_views, submit};
use sample_star::{Fact, Star};
use sector_device::{MemDisk, Sectors};
use std::alloc::Global;
use warehouse::Session;

/// A call that commits. A batch and an addition have the next number.
#[derive(Clone, Copy)]
pub(crate) enum Step {
    Batch(&'static [Fact<'static>]),
    Add(&'static Star<'static>),
    Views(&'static [u16]),
    Choose(u8),
    Upkeep,
    Migrate,
}

/// Makes such a call.
pub(crate) fn take<D: Sectors>(
    alloc: Global,
    session: &mut Session<D>,
    step: &Step,
) -> Result<(), Fault> {
    let status = session.status()?;
    match step {
        Step::Batch(facts) => submit(alloc, session, status.batches.saturating_add(1), facts),
        Step::Add(star) => add(alloc, session, status.additions.saturating_add(1), star),
        Step::Views(views) => store_views(alloc, session, views),
        Step::Choose(k) => match session.choose(alloc, *k) {
            Ok(_) => Ok(()),
            Err(fault) => Err(fault),
        },
        Step::Upkeep => session.upkeep(alloc),
        Step::Migrate => session.migrate(alloc),
    }
}

/// A warehouse on a memory disk of 64 sectors after such calls.
pub(crate) fn after(alloc: Global, steps: &[Step]) -> Result<Session<MemDisk>, Fault> {
    let mut session = fresh(alloc)?;
    for step in steps {
        take(alloc, &mut session, step)?;
    }
    Ok(session)
}
