// Where the store puts what.
use crate::steps::{made, put};
use cube_model::Fault;
use object_store::Store;
use sector_device::{DeviceError, MemDisk, Sectors};
use std::alloc::Global;
use superblock::Super;

// A store whose object 1 was replaced so many times.
fn replaced(alloc: Global, times: u8) -> Result<Store<MemDisk>, Fault> {
    let mut store = made(alloc, 64, 1, b"first")?;
    for time in 0..times {
        put(alloc, &mut store, 1, &[b'a' + time % 20; 5])?;
    }
    Ok(store)
}

// What is in a sector.
fn sector(disk: &mut MemDisk, i: u32) -> Result<[u8; 512], DeviceError> {
    let mut bytes = [0; 512];
    if i >= disk.count() {
        return Err(DeviceError);
    }
    disk.read(i, &mut bytes)?;
    Ok(bytes)
}

// A sector of these bytes and zeros.
fn padded(bytes: &[u8]) -> [u8; 512] {
    let mut sector = [0; 512];
    let n = bytes.len().min(512);
    sector[..n].copy_from_slice(&bytes[..n]);
    sector
}

// After so many replacements: the generation, the slot of its superblock, the sectors of the catalogue and of the
// object, and the object.
static PLACES: [(u8, u64, u8, u32, u32, &[u8; 5]); 4] = [
    (0, 1, 1, 3, 2, b"first"),
    (1, 2, 0, 5, 4, b"aaaaa"),
    (2, 3, 1, 3, 2, b"bbbbb"),
    (3, 4, 0, 5, 4, b"ccccc"),
];

// The superblock of a generation, with its catalogue from a sector on.
fn superblock(generation: u64, catalogue: u32) -> Super {
    Super {
        layout: 1,
        sectors: 64,
        generation,
        catalogue,
        bytes: 28,
    }
}

// What is in two sectors of a store whose object 1 was replaced so many times.
fn sectors(
    alloc: Global,
    times: u8,
    first: u32,
    second: u32,
) -> Result<[Result<[u8; 512], DeviceError>; 2], Fault> {
    let mut disk = replaced(alloc, times)?.close();
    Ok([sector(&mut disk, first), sector(&mut disk, second)])
}

#[test]
fn takes_the_first_fits(rt: HostRuntime) {
    for (times, generation, slot, catalogue, object, bytes) in &PLACES {
        let written = superblock::encode(&superblock(*generation, *catalogue));
        let found = sectors(rt.alloc(), *times, u32::from(*slot), *object);
        assert!(rt;
            found == Ok([Ok(written), Ok(padded(*bytes))]),
            "after {times}"
        );
    }
}

// A place, a number of bytes, and whether an object of 1,025 bytes has them, with the sectors that are read.
static RANGES: [(u64, usize, bool, u64); 7] = [
    (511, 2, true, 2),
    (512, 2, true, 1),
    (1024, 1, true, 1),
    (1024, 2, false, 0),
    (1025, 0, true, 0),
    (1026, 0, false, 0),
    (18_446_744_073_709_551_615, 1, false, 0),
];

// A store of that object, as object 3.
fn store_of_three_sectors(alloc: Global) -> Result<Store<MemDisk>, Fault> {
    let mut object = [7u8; 1025];
    object[511] = 1;
    object[1024] = 2;
    made(alloc, 64, 3, &object)
}

// What it answers where bytes from a place on are read, and how many sectors are read for that.
fn read(store: &mut Store<MemDisk>, at: u64, len: usize) -> (Result<bool, Fault>, u64) {
    let before = store.device().reads();
    let mut to = [0u8; 2];
    let answer = store.read_at(3, at, &mut to[..len.min(2)]);
    (answer, store.device().reads().saturating_sub(before))
}

// The first range, its place and its length, that is read otherwise.
fn first_other_range(alloc: Global) -> Result<Option<(u64, usize)>, Fault> {
    let mut store = store_of_three_sectors(alloc)?;
    for (at, len, within, sectors) in &RANGES {
        if read(&mut store, *at, *len) != (Ok(*within), *sectors) {
            return Ok(Some((*at, *len)));
        }
    }
    Ok(None)
}

#[test]
fn reads_the_sectors_of_a_range(rt: HostRuntime) {
    assert!(rt; first_other_range(rt.alloc()) == Ok(None));
}
