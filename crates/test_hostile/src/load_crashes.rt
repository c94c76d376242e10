//! Loads on a device that fails at each of its calls, and is then found as a crash leaves it.
use crate::load_failures::loaded;
use cube_model::Fault;
use sample_sessions::{OPENING, fresh, opened};
use sample_star::{TABLES, in_sevens};
use sector_device::{Fuse, MemDisk};
use std::alloc::Global;
use std::test::Fail;

/// The calls of a load of three batches: for each the segment, the catalogue, a sync, the superblock, a sync.
const LOAD: u64 = 15;

/// Whether a write that fails reaches the disk, and whether a crash then leaves of each sector the oldest bytes (0) or
/// the newest.
static WAYS: [(bool, &[u32]); 8] = [
    (false, &[]),
    (false, &[1; 64]),
    (false, &[0, 1]),
    (false, &[1, 0, 1]),
    (true, &[]),
    (true, &[1; 64]),
    (true, &[0, 1]),
    (true, &[1, 0, 1]),
];

/// How many lines a load of three batches prints whose device fails from a call on, what comes of it, and the disk.
fn cut(
    alloc: Global,
    call: u64,
    reaches: bool,
) -> Result<(usize, Result<bool, Fault>, MemDisk), Fault> {
    let disk = fresh(alloc)?.close();
    let fuse = Fuse::new(disk, OPENING.saturating_add(call), true, reaches);
    let mut session = opened(alloc, fuse)?;
    let mut out = Vec::new(alloc);
    let done = loaded(alloc, &mut session, in_sevens(TABLES.lineorder), &mut out);
    let lines = out.iter().filter(|byte| **byte == b'\n').count();
    Ok((lines, done, session.close().close()))
}

/// Whether, after a crash, such a disk has each batch that was printed, and one more at most.
fn has_what_was_printed(alloc: Global, call: u64, way: &(bool, &[u32])) -> Result<bool, Fault> {
    let (reaches, picks) = *way;
    let (printed, done, disk) = cut(alloc, call, reaches)?;
    let found = opened(alloc, disk.crash(picks))?.status()?.batches as usize;
    Ok(done == Err(Fault::Device) && (found == printed || found == printed.saturating_add(1)))
}

#[test]
fn each_batch_that_was_printed_is_found_after_a_crash(rt: HostRuntime) -> Result<(), Fail> {
    for call in 1..=LOAD {
        for way in &WAYS {
            assert!(rt;
                has_what_was_printed(rt.alloc(), call, way)?,
                "call {call}: {way:?}"
            );
        }
    }
    Ok(())
}
