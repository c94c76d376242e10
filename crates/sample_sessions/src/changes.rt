//! Devices of which some bytes were changed.
use cube_model::Fault;
use sector_device::{MemDisk, Sectors};

/// A sector, a place in it, and the bytes that are there from then on.
pub type Change = (u32, usize, &'static [u8]);

/// The bytes of a sector.
pub fn sector(disk: &mut MemDisk, i: u32) -> Result<[u8; 512], Fault> {
    let mut bytes = [0; 512];
    if i < disk.count() && disk.read(i, &mut bytes).is_ok() {
        Ok(bytes)
    } else {
        Err(Fault::Device)
    }
}

/// A sector with other bytes from a place on.
fn with_bytes(mut old: [u8; 512], at: usize, bytes: &[u8]) -> [u8; 512] {
    for (to, from) in old.iter_mut().skip(at).zip(bytes) {
        *to = *from;
    }
    old
}

/// Writes other bytes into a sector.
pub fn make_change(disk: &mut MemDisk, change: Change) -> Result<(), Fault> {
    let (place, at, bytes) = change;
    let new = with_bytes(sector(disk, place)?, at, bytes);
    if place < disk.count() && disk.write(place, &new).is_ok() {
        Ok(())
    } else {
        Err(Fault::Device)
    }
}
