// What a cache reads of its device, and what it keeps over writes.
use crate::bytes::{get, put};
use cube_model::Fault;
use sector_cache::Cached;
use sector_device::{Fuse, MemDisk, Sectors};

type After = Cached<Fuse<MemDisk>>;

// A cache of so many sectors before a new disk of 256, of which the n-th call fails.
fn cached(rt: &HostRuntime, room: u32, n: u64, reaches: bool) -> Result<After, Fault> {
    let disk = MemDisk::new(rt.alloc(), 256)?;
    if room == 0 {
        return Err(Fault::DeviceSize);
    }
    match Cached::new(rt.alloc(), Fuse::new(disk, n, false, reaches), room) {
        Ok(cached) => Ok(cached),
        Err((fault, _)) => Err(fault),
    }
}

// How often the disk was read.
fn reads(cached: After) -> u64 {
    cached.close().close().reads()
}

// Room, sectors, rounds over them, and the sectors that the disk reads in all.
static LOOPS: [(u32, u32, u32, u64); 10] = [
    (2, 2, 2, 2),
    (1, 1, 5, 1),
    (1, 3, 2, 6),
    (2, 3, 2, 6),
    (3, 3, 4, 3),
    (64, 64, 2, 64),
    (100, 65, 2, 65),
    (128, 100, 2, 100),
    (99, 100, 2, 200),
    (256, 200, 3, 200),
];

fn read_round(disk: &mut After, sectors: u32) {
    for i in 0..sectors {
        let _ = get(disk, i);
    }
}

fn reads_of_rounds(rt: &HostRuntime, room: u32, sectors: u32, rounds: u32) -> Result<u64, Fault> {
    let mut disk = cached(rt, room, 0, false)?;
    for _ in 0..rounds {
        read_round(&mut disk, sectors);
    }
    Ok(reads(disk))
}

#[test]
fn reads_a_sector_of_the_disk_once_where_there_is_room(rt: HostRuntime) {
    for (place, (room, sectors, rounds, read)) in LOOPS.iter().enumerate() {
        assert!(rt;
            reads_of_rounds(&rt, *room, *sectors, *rounds) == Ok(*read),
            "row {place}"
        );
    }
}

// Whether a write succeeds, what is read twice after it, how often the disk was read, and the failures.
type Written = (bool, [Option<u8>; 2], u64, u64);

// Sector 5 is read, written with sevens by a call that fails or not, and read twice.
fn written(rt: &HostRuntime, n: u64, reaches: bool) -> Result<Written, Fault> {
    let mut disk = cached(rt, 4, n, reaches)?;
    let _ = get(&mut disk, 5);
    let write = put(&mut disk, 5, 7).is_ok();
    let found = [
        get(&mut disk, 5).unwrap_or(None),
        get(&mut disk, 5).unwrap_or(None),
    ];
    let failures = disk.failures();
    Ok((write, found, reads(disk), failures))
}

// Which call fails, whether it reaches the disk, whether the write succeeds, what is read then, and the counts.
static WRITES: [(u64, bool, bool, u8, u64, u64); 3] = [
    (0, false, true, 7, 1, 0),
    (2, true, false, 7, 2, 1),
    (2, false, false, 0, 2, 1),
];

#[test]
fn drops_a_sector_whose_write_failed(rt: HostRuntime) {
    for (place, row) in WRITES.iter().enumerate() {
        let (n, reaches, write, byte, reads, failures) = *row;
        assert!(rt;
            written(&rt, n, reaches) == Ok((write, [Some(byte); 2], reads, failures)),
            "row {place}"
        );
    }
}
