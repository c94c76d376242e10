// A replacement that crashes after each of its calls.
use crate::steps::{five, made, opened, put};
use cube_model::Fault;
use object_store::Store;
use sector_device::{Fuse, MemDisk};
use std::alloc::Global;

// The calls of `open` on a store of one object: a sync, two slots, and one sector of the catalogue.
const OPENING: u64 = 4;

// The answer of a replacement that crashes after so many calls, and the disk then.
fn crashed(alloc: Global, calls: u64) -> Result<(Result<(), Fault>, MemDisk), Fault> {
    let disk = made(alloc, 64, 1, b"first")?.close();
    let fuse = Fuse::new(
        disk,
        OPENING.saturating_add(calls).saturating_add(1),
        true,
        false,
    );
    let mut store = opened(alloc, fuse)?;
    let answer = put(alloc, &mut store, 1, b"other");
    Ok((answer, store.close().close()))
}

// What a crash leaves of object 1.
fn left(alloc: Global, disk: MemDisk, picks: &[u32]) -> Result<Option<[u8; 5]>, Fault> {
    five(&mut opened(alloc, disk.crash(picks))?)
}

const OLD: Option<[u8; 5]> = Some(*b"first");

const NEW: Option<[u8; 5]> = Some(*b"other");

// How many calls are made, the picks, and what is found then. After two, two sectors have two candidates each; after
// four, the superblock's alone has.
static CRASHES: [(u64, &[u32], Option<[u8; 5]>); 20] = [
    (0, &[], OLD),
    (0, &[1, 1], OLD),
    (1, &[0], OLD),
    (1, &[1], OLD),
    (2, &[0, 0], OLD),
    (2, &[0, 1], OLD),
    (2, &[1, 0], OLD),
    (2, &[1, 1], OLD),
    (3, &[0, 0], OLD),
    (3, &[1, 1], OLD),
    (3, &[0, 1], OLD),
    (3, &[1, 0], OLD),
    (4, &[0], OLD),
    (4, &[1], NEW),
    (4, &[0, 1], OLD),
    (4, &[1, 0], NEW),
    (5, &[0, 0], NEW),
    (5, &[1, 1], NEW),
    (5, &[0, 1], NEW),
    (5, &[1, 0], NEW),
];

// How a replacement is refused that crashes after so many calls, if it is, and what that leaves of object 1.
fn refused_and_left(
    alloc: Global,
    calls: u64,
    picks: &[u32],
) -> Result<(Option<Fault>, Option<[u8; 5]>), Fault> {
    let (answer, disk) = crashed(alloc, calls)?;
    Ok((answer.err(), left(alloc, disk, picks)?))
}

#[test]
fn leaves_the_old_or_the_new_object(rt: HostRuntime) {
    for (place, (calls, picks, object)) in CRASHES.iter().enumerate() {
        let refused = if *calls < 5 {
            Some(Fault::Device)
        } else {
            None
        };
        let found = refused_and_left(rt.alloc(), *calls, picks);
        assert!(rt; found == Ok((refused, *object)), "crash {place}");
    }
}

// A store whose last sync failed.
fn unsynced(alloc: Global) -> Result<Store<Fuse<MemDisk>>, Fault> {
    let disk = made(alloc, 64, 1, b"first")?.close();
    let mut store = opened(alloc, Fuse::new(disk, OPENING + 5, false, false))?;
    match put(alloc, &mut store, 1, b"other") {
        Err(Fault::Device) => Ok(store),
        _ => Err(Fault::BadLayout),
    }
}

// How it refuses a read, what is found of object 1 where its device is opened again, and what a crash leaves of it
// then.
type Found = (Option<Fault>, Option<[u8; 5]>, Option<[u8; 5]>);

fn found_again(alloc: Global) -> Result<Found, Fault> {
    let mut store = unsynced(alloc)?;
    let refused = store.read_at(1, 0, &mut [0; 1]).err();
    let mut store = opened(alloc, store.close())?;
    let found = five(&mut store)?;
    Ok((refused, found, left(alloc, store.close().close(), &[0])?))
}

#[test]
fn opens_what_was_not_synced_and_syncs_it(rt: HostRuntime) {
    assert!(rt; found_again(rt.alloc()) == Ok((Some(Fault::Failed), NEW, NEW)));
}
