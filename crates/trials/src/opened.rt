//! What a disk has kept of a warehouse.
use crate::life::{Reached, ask};
use crate::sample::Sample;
use crate::wrong::Wrong;
use cube_model::{Answer, Fault};
use sector_device::{MemDisk, Sectors};
use ssb_reports::QNumber;
use std::alloc::Global;
use warehouse::{Session, open};

/// Opens the warehouse of a disk, and finds the first thing that is wrong with it after a life that came so far, if
/// any. There may be no warehouse where the creation was not acknowledged.
pub(crate) fn first_wrong(
    alloc: Global,
    disk: MemDisk,
    reached: Reached,
    sample: &Sample,
) -> Result<Option<Wrong>, Fault> {
    match open(alloc, disk) {
        Ok(mut session) => wrong_in(alloc, &mut session, reached, sample),
        Err((Fault::NotFormatted, _)) if !reached.created => Ok(None),
        Err((fault, _)) => Err(fault),
    }
}

// The first thing that is wrong with an open warehouse: its batches, what is stored, and its answers.
fn wrong_in<D: Sectors>(
    alloc: Global,
    session: &mut Session<D>,
    reached: Reached,
    sample: &Sample,
) -> Result<Option<Wrong>, Fault> {
    let batches = session.status()?.batches;
    match sample.answers(batches) {
        Some(answers) if reached.allows(batches) => wrong_over(alloc, session, batches, answers),
        _ => Ok(Some(Wrong::Batches {
            found: batches,
            acknowledged: reached.batches,
        })),
    }
}

// The first thing that is wrong with what is stored and with the answers.
fn wrong_over<D: Sectors>(
    alloc: Global,
    session: &mut Session<D>,
    batches: u32,
    answers: &[Answer],
) -> Result<Option<Wrong>, Fault> {
    if let Some(finding) = session.check(alloc)? {
        return Ok(Some(Wrong::Stored(finding)));
    }
    let numbers = QNumber::ALL;
    for (number, answer) in numbers.iter().zip(answers) {
        if ask(alloc, session, batches, *number)? != *answer {
            return Ok(Some(Wrong::Answer(*number)));
        }
    }
    Ok(None)
}
