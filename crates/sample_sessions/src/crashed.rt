//! How many device calls an opening and a submit make, and openings that crash after some of them.
use cube_model::Fault;
use sector_device::{Fuse, MemDisk};
use std::alloc::Global;
use warehouse::open;

/// The calls of an opening: a sync, two slots, one sector of the catalogue, and one of each dimension.
pub const OPENING: u64 = 8;

/// The calls of a submit: the segment, the catalogue, a sync, the superblock, a sync.
pub const SUBMIT: u64 = 5;

/// How calls are refused, if they are, that crash after so many of them.
pub fn refusal(made: u64, calls: u64) -> Option<Fault> {
    if made < calls {
        Some(Fault::Device)
    } else {
        None
    }
}

/// How an opening ends that crashes after so many calls, and the disk then.
pub fn half_opened(alloc: Global, disk: MemDisk, calls: u64) -> (Option<Fault>, MemDisk) {
    let fuse = Fuse::new(disk, calls.saturating_add(1), true, false);
    match open(alloc, fuse) {
        Ok(session) => (None, session.close().close()),
        Err((fault, fuse)) => (Some(fault), fuse.close()),
    }
}
