// As many objects as there may be.
use crate::steps::opened;
use cube_model::Fault;
use object_store::catalogue::{self, Entry};
use sector_device::{MemDisk, Sectors};
use std::alloc::Global;
use superblock::{Super, encode};

// The sectors of the device, and the first of the catalogue.
const SECTORS: u32 = 70_000;

const CATALOGUE: u32 = 10;

// So many objects of one byte each.
fn objects(alloc: Global, count: u32) -> Result<Vec<Entry>, Fault> {
    let mut list = Vec::new(alloc);
    for id in 0..count {
        list.push(Entry {
            id,
            first: id.saturating_add(3_000),
            bytes: 1,
        })?;
    }
    Ok(list)
}

// Writes bytes from a sector on.
fn write(disk: &mut MemDisk, first: u32, bytes: &[u8]) -> Result<(), Fault> {
    let mut i = u64::from(first);
    for part in bytes.chunks(512) {
        let mut sector = [0; 512];
        let n = part.len().min(512);
        sector[..n].copy_from_slice(&part[..n]);
        if i >= u64::from(disk.count()) || disk.write(i as u32, &sector).is_err() {
            return Err(Fault::Device);
        }
        i = i.saturating_add(1);
    }
    Ok(())
}

// Writes a catalogue of so many objects, and its superblock.
fn plant(alloc: Global, disk: &mut MemDisk, count: u32) -> Result<(), Fault> {
    let objects = objects(alloc, count)?;
    if objects.len() > 1_000_000 {
        return Err(Fault::BadLayout);
    }
    let bytes = catalogue::encode(alloc, &objects, b"root")?;
    let said = Super {
        layout: 1,
        sectors: SECTORS,
        generation: 1,
        catalogue: CATALOGUE,
        bytes: bytes.len().min(2_000_000) as u32,
    };
    write(disk, CATALOGUE, &bytes)?;
    write(disk, 1, &encode(&said))
}

// How many objects a store of so many has, how many sectors its opening reads, and the length of the last object that
// there may be.
fn found(alloc: Global, count: u32) -> Result<(u32, u64, Option<u64>), Fault> {
    let mut disk = MemDisk::new(alloc, SECTORS)?;
    plant(alloc, &mut disk, count)?;
    let store = opened(alloc, disk)?;
    Ok((store.objects(), store.device().reads(), store.size(65_535)))
}

// So many objects, the two slots and the sectors of the catalogue, and whether the last object is there.
static COUNTS: [(u32, u64, Option<u64>); 3] = [
    (31, 3, None),
    (32, 4, None),
    (65_536, 2_051, Some(1)),
];

#[test]
fn opens_as_many_as_there_may_be(rt: HostRuntime) {
    for row in &COUNTS {
        assert!(rt; found(rt.alloc(), row.0) == Ok(*row), "{} objects", row.0);
    }
}
