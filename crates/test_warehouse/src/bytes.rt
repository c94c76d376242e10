//! The bytes of the device, by hand.
use crate::steps::{Step, after};
use cube_model::Fault;
use sample_sessions::sector;
use sample_star::{FACTS, ONE_CUSTOMER};
use std::alloc::Global;

/// The superblock of the first generation: 64 sectors, and a catalogue of 140 bytes in sector 6.
const FIRST_SUPERBLOCK: &[u8] =
    b"SSBCUBE1\x01\x00\x00\x00\x40\x00\x00\x00\x01\x00\x00\x00\x00\x00\x00\x00\
\x06\x00\x00\x00\x8c\x00\x00\x00";

/// That of the second: a catalogue of 160 bytes in sector 8.
const SECOND_SUPERBLOCK: &[u8] =
    b"SSBCUBE1\x01\x00\x00\x00\x40\x00\x00\x00\x02\x00\x00\x00\x00\x00\x00\x00\
\x08\x00\x00\x00\xa0\x00\x00\x00";

/// The first catalogue: four entries, customers, suppliers, parts and days, and a root of 64 bytes, all zero.
const FIRST_CATALOGUE: &[u8] = b"CAT1\x04\x00\x00\x00\x40\x00\x00\x00\
\x01\x00\x00\x00\x02\x00\x00\x00\x6e\x00\x00\x00\x00\x00\x00\x00\
\x02\x00\x00\x00\x03\x00\x00\x00\x6e\x00\x00\x00\x00\x00\x00\x00\
\x03\x00\x00\x00\x04\x00\x00\x00\x56\x00\x00\x00\x00\x00\x00\x00\
\x04\x00\x00\x00\x05\x00\x00\x00\x61\x00\x00\x00\x00\x00\x00\x00";

/// The second: the segment of 285 bytes in sector 7 too, and a root of 68 bytes. One batch; the quantities 66, the
/// prices 3500, the revenues 3415, the costs 2700, the discounted sum 8500, the profits 835; three rows.
const SECOND_CATALOGUE: &[u8] = b"CAT1\x05\x00\x00\x00\x44\x00\x00\x00\
\x01\x00\x00\x00\x02\x00\x00\x00\x6e\x00\x00\x00\x00\x00\x00\x00\
\x02\x00\x00\x00\x03\x00\x00\x00\x6e\x00\x00\x00\x00\x00\x00\x00\
\x03\x00\x00\x00\x04\x00\x00\x00\x56\x00\x00\x00\x00\x00\x00\x00\
\x04\x00\x00\x00\x05\x00\x00\x00\x61\x00\x00\x00\x00\x00\x00\x00\
\x01\x00\x01\x00\x07\x00\x00\x00\x1d\x01\x00\x00\x00\x00\x00\x00\
\x01\x00\x00\x00\x00\x00\x00\x00\x00\x00\x00\x00\x00\x00\x00\x00\
\x42\x00\x00\x00\x00\x00\x00\x00\xac\x0d\x00\x00\x00\x00\x00\x00\
\x57\x0d\x00\x00\x00\x00\x00\x00\x8c\x0a\x00\x00\x00\x00\x00\x00\
\x34\x21\x00\x00\x00\x00\x00\x00\x43\x03\x00\x00\x00\x00\x00\x00\
\x03\x00\x00\x00";

/// The third superblock, of the second layout: a catalogue of 176 bytes in sector 9.
const MOVED_SUPERBLOCK: &[u8] =
    b"SSBCUBE1\x02\x00\x00\x00\x40\x00\x00\x00\x03\x00\x00\x00\x00\x00\x00\x00\
\x09\x00\x00\x00\xb0\x00\x00\x00";

/// The two ship modes, in the order of first use.
const SHIP_MODES: &[u8] = b"SHP2\x02\x00\x00\x00\x03AIR\x04RAIL";

/// The superblock after an addition and no batch: a catalogue of 140 bytes in sector 8.
const ADDED_SUPERBLOCK: &[u8] =
    b"SSBCUBE1\x01\x00\x00\x00\x40\x00\x00\x00\x02\x00\x00\x00\x00\x00\x00\x00\
\x08\x00\x00\x00\x8c\x00\x00\x00";

/// The customers with a third one, 129 bytes: the cities, nations and regions, the nations of the cities, the regions
/// of the nations, the keys, and the cities of the rows.
const THREE_CUSTOMERS: &[u8] = b"DIM1\x00\x00\x00\x00\x03\x00\x00\x00\
\x03\x00\x00\x00\x0aUNITED KI1\
\x0aUNITED ST3\
\x0aUNITED ST1\
\x02\x00\x00\x00\x0eUNITED KINGDOM\x0dUNITED STATES\
\x02\x00\x00\x00\x06EUROPE\x07AMERICA\
\x00\x00\x01\x00\x01\x00\
\x00\x00\x01\x00\
\x01\x00\x00\x00\x02\x00\x00\x00\x03\x00\x00\x00\
\x00\x00\x01\x00\x02\x00";

/// The catalogue then: the customers in sector 7, and a root that counts one addition.
const ADDED_CATALOGUE: &[u8] = b"CAT1\x04\x00\x00\x00\x40\x00\x00\x00\
\x01\x00\x00\x00\x07\x00\x00\x00\x81\x00\x00\x00\x00\x00\x00\x00\
\x02\x00\x00\x00\x03\x00\x00\x00\x6e\x00\x00\x00\x00\x00\x00\x00\
\x03\x00\x00\x00\x04\x00\x00\x00\x56\x00\x00\x00\x00\x00\x00\x00\
\x04\x00\x00\x00\x05\x00\x00\x00\x61\x00\x00\x00\x00\x00\x00\x00\
\x00\x00\x00\x00\x00\x00\x00\x00\x01\x00\x00\x00";

const NO_STEP: &[Step] = &[];

const ONE_BATCH: &[Step] = &[Step::Batch(&FACTS)];

const TWO_BATCHES: &[Step] = &[Step::Batch(&FACTS), Step::Batch(&FACTS)];

const MOVED: &[Step] = &[Step::Batch(&FACTS), Step::Migrate];

const ADDED: &[Step] = &[Step::Add(&ONE_CUSTOMER)];

/// The steps after which a disk is looked at, a sector, the bytes that it begins with, and up to where zeros follow
/// them: to its end, or, of an object, nowhere.
type Stored = (&'static [Step], u32, &'static [u8], usize);

static STORED: [Stored; 23] = [
    (NO_STEP, 0, b"", 512),
    (NO_STEP, 1, FIRST_SUPERBLOCK, 512),
    (NO_STEP, 6, FIRST_CATALOGUE, 512),
    (NO_STEP, 7, b"", 512),
    (ONE_BATCH, 0, SECOND_SUPERBLOCK, 512),
    (ONE_BATCH, 1, FIRST_SUPERBLOCK, 512),
    (ONE_BATCH, 6, FIRST_CATALOGUE, 512),
    (ONE_BATCH, 8, SECOND_CATALOGUE, 512),
    (ONE_BATCH, 9, b"", 512),
    // The dimensions of two rows each, and the segments of three.
    (TWO_BATCHES, 2, b"DIM1\x00\x00\x00\x00\x02\x00\x00\x00", 12),
    (TWO_BATCHES, 3, b"DIM1\x01\x00\x00\x00\x02\x00\x00\x00", 12),
    (TWO_BATCHES, 4, b"DIM1\x02\x00\x00\x00\x02\x00\x00\x00", 12),
    (TWO_BATCHES, 5, b"DIM1\x03\x00\x00\x00\x02\x00\x00\x00", 12),
    (TWO_BATCHES, 6, b"SEG1\x02\x00\x00\x00\x03\x00\x00\x00", 12),
    (TWO_BATCHES, 7, b"SEG1\x01\x00\x00\x00\x03\x00\x00\x00", 12),
    (MOVED, 0, SECOND_SUPERBLOCK, 512),
    (MOVED, 1, MOVED_SUPERBLOCK, 512),
    (MOVED, 6, SHIP_MODES, 512),
    (ADDED, 0, ADDED_SUPERBLOCK, 512),
    (ADDED, 1, FIRST_SUPERBLOCK, 512),
    (ADDED, 6, FIRST_CATALOGUE, 512),
    (ADDED, 7, THREE_CUSTOMERS, 512),
    (ADDED, 8, ADDED_CATALOGUE, 512),
];

/// Whether a sector has some bytes, and zeros after them up to a place.
fn has_bytes(sector: &[u8; 512], bytes: &[u8], end: usize) -> bool {
    for (place, byte) in sector.iter().enumerate().take(end) {
        if *byte != bytes.get(place).copied().unwrap_or(0) {
            return false;
        }
    }
    true
}

fn is_stored(alloc: Global, stored: &Stored) -> Result<bool, Fault> {
    let (steps, place, bytes, end) = stored;
    let mut disk = after(alloc, steps)?.close();
    let found = sector(&mut disk, *place)?;
    Ok(has_bytes(&found, bytes, *end))
}

#[test]
fn sectors_are_as_laid_out_by_hand(rt: HostRuntime) {
    for (row, stored) in STORED.iter().enumerate() {
        assert!(rt; is_stored(rt.alloc(), stored) == Ok(true), "row {row}");
    }
}
