//! The power failure of the demonstration.
use crate::steps::load;
use crate::telling::say;
use cube_model::Fault;
use sector_device::{Fuse, MemDisk};
use std::alloc::Global;
use std::io::Write;
use warehouse::{Session, open};

/// The call of the disk, counted from its opening, at which the power fails: it is one of the commit of the third
/// batch.
const LAST_CALL: u64 = 70;

/// Which writes of those that were not synced the disk has kept: the first to have been replaced takes the second of
/// its contents, and all others the oldest.
const KEPT: [u32; 1] = [1];

/// Loads the fact table into the warehouse on a disk until the power fails, and gives what the disk has kept.
pub fn load_until_outage<W: Write>(
    alloc: Global,
    disk: MemDisk,
    out: &mut W,
) -> Result<MemDisk, Fault> {
    let mut session = match open(alloc, Fuse::new(disk, LAST_CALL, true, false)) {
        Ok(session) => session,
        Err((fault, _)) => return Err(fault),
    };
    load_on(alloc, &mut session, out)?;
    Ok(session.close().close().crash(&KEPT))
}

// Loads the fact table until the disk fails.
fn load_on<W: Write>(
    alloc: Global,
    session: &mut Session<Fuse<MemDisk>>,
    out: &mut W,
) -> Result<(), Fault> {
    match load(alloc, session, out) {
        Err(Fault::Device) => say(
            out,
            "The power fails while the third batch is written: some of its sectors are on the disk,\nothers are not. What the disk has kept is opened again.",
        ),
        other => other,
    }
}
