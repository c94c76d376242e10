//! A life of which one allocation may fail. The call is then made again.
use crate::steps::{Step, take};
use cube_model::Fault;
use sample_sessions::{
    THREE, answer, fresh, has_revenues, opened_again, report, status, with_cuboids,
};
use sample_star::{FACTS, ONE_CUSTOMER};
use sector_device::MemDisk;
use ssb_reports::QNumber;
use std::alloc::Global;
use warehouse::{Layout, Session, Status};

/// Each call that commits.
static STEPS: [Step; 7] = [
    Step::Batch(&FACTS),
    Step::Choose(3),
    Step::Upkeep,
    Step::Add(&ONE_CUSTOMER),
    Step::Batch(&FACTS),
    Step::Migrate,
    Step::Batch(&FACTS),
];

/// A session after a step. One that answers `Memory` is taken again, and after `Device` the disk is opened again: it
/// could not note a write.
fn after_step(
    alloc: Global,
    mut session: Session<MemDisk>,
    step: &Step,
) -> Result<Session<MemDisk>, Fault> {
    let before = session.status()?.generation;
    match take(alloc, &mut session, step) {
        Ok(()) => Ok(session),
        Err(Fault::Memory) => {
            take(alloc, &mut session, step)?;
            Ok(session)
        }
        Err(Fault::Device) => reopened(alloc, session.close(), before, step),
        Err(fault) => Err(fault),
    }
}

/// What is on a disk, with a step that was begun at a generation if it did not arrive. An opening finishes an upkeep.
fn reopened(
    alloc: Global,
    disk: MemDisk,
    before: u64,
    step: &Step,
) -> Result<Session<MemDisk>, Fault> {
    let mut session = opened_again(alloc, disk)?;
    if session.status()?.generation == before {
        take(alloc, &mut session, step)?;
    }
    Ok(session)
}

/// The session at the end of the life, opened again.
fn lived(alloc: Global) -> Result<Session<MemDisk>, Fault> {
    let mut session = match fresh(alloc) {
        Ok(session) => session,
        Err(_) => fresh(alloc)?,
    };
    for step in &STEPS {
        session = after_step(alloc, session, step)?;
    }
    opened_again(alloc, session.close())
}

/// Whether a session answers the first query of the benchmark and one by ship mode as it should, and audits.
fn is_right(alloc: Global, session: &mut Session<MemDisk>) -> Result<bool, Fault> {
    let found = report(alloc, session, 3, QNumber::Q11)?;
    Ok(
        found == answer(alloc, &[(&[], 2000)], 3)?
            && has_revenues(alloc, session, 3, &[("AIR", 4425), ("RAIL", 5820)])?
            && session.audit(alloc)?,
    )
}

/// The status at the end, but for its generation, and whether that is right, at the first or the second try.
fn found_at_last(alloc: Global) -> Result<(Status, bool), Fault> {
    let mut session = lived(alloc)?;
    let status = Status {
        generation: 0,
        ..session.status()?
    };
    match is_right(alloc, &mut session) {
        Ok(right) => Ok((status, right)),
        Err(_) => Ok((status, is_right(alloc, &mut session)?)),
    }
}

#[test]
fn one_want_of_memory_is_made_good(rt: HostRuntime) {
    let plain = Status {
        layout: Layout::Second,
        additions: 1,
        target: 1,
        generation: 0,
        ..status(3, 9)
    };
    let wanted = (with_cuboids(plain, &THREE), true);
    assert!(rt; found_at_last(rt.alloc()) == Ok(wanted));
}
