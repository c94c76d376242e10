//! How much room a load needs, about.

/// The bytes of a segment apart from its rows, about.
const SEGMENT_BYTES: u64 = 200;

/// The bytes of a row in a segment: its numbers, and the codes of its texts.
const ROW_BYTES: u64 = 71;

/// The bytes of a date in the dictionary of a segment.
const DATE_BYTES: u64 = 9;

/// How many dates the rows of a batch have between them, at most, about.
const MOST_DATES: u64 = 2_600;

/// The bytes of a catalogue apart from its batches, about.
const CATALOGUE_BYTES: u64 = 140;

/// The bytes of a batch in a catalogue: its entry, and its rows in the root.
const BATCH_BYTES: u64 = 20;

/// The bytes of a sector.
pub(crate) const SECTOR_BYTES: u64 = 512;

/// The bytes of a cell of a cuboid without its ship mode, about.
pub(crate) const CELL_BYTES: u64 = 160;

/// How a load cuts a file into batches: the number of the first, and the rows of each.
#[derive(Clone, Copy, PartialEq, Eq)]
pub struct Cut {
    pub first: u32,
    pub rows: u32,
}

/// The sectors that a load needs, about.
#[derive(Clone, Copy, PartialEq, Eq)]
pub struct Needs {
    /// Those of its next batch.
    pub batch: u64,
    /// Those of all its batches that are not stored yet.
    pub whole: u64,
}

impl Needs {
    /// What a load needs of a file of so many rows, where the warehouse has so many batches. Batches that are stored
    /// are skipped.
    pub fn of(cut: Cut, rows: u64, batches: u32) -> Needs {
        let size = u64::from(cut.rows).max(1);
        let stored = u64::from(batches.saturating_add(1).saturating_sub(cut.first));
        let rows = rows.saturating_sub(stored.saturating_mul(size));
        let count = rows / size;
        let catalogue = catalogue_sectors(count.saturating_add(u64::from(batches)));
        Needs {
            batch: segment_sectors(rows.min(size)),
            whole: count
                .saturating_mul(segment_sectors(size))
                .saturating_add(segment_sectors(rows % size))
                .saturating_add(catalogue.saturating_mul(2)),
        }
    }
}

// The sectors of a batch of so many rows, about.
fn segment_sectors(rows: u64) -> u64 {
    if rows == 0 {
        return 0;
    }
    rows.saturating_mul(ROW_BYTES)
        .saturating_add(DATE_BYTES * rows.min(MOST_DATES) + SEGMENT_BYTES)
        .div_ceil(SECTOR_BYTES)
}

// The sectors of a catalogue of so many batches, about.
fn catalogue_sectors(batches: u64) -> u64 {
    batches
        .saturating_mul(BATCH_BYTES)
        .saturating_add(CATALOGUE_BYTES)
        .div_ceil(SECTOR_BYTES)
}

/// How many rows a file of so many bytes has, about, by the bytes at its beginning.
pub fn row_count(length: u64, beginning: &[u8]) -> u64 {
    let lines = beginning.iter().filter(|byte| **byte == b'\n').count() as u64;
    if beginning.len() as u64 >= length {
        let is_open = match beginning.last() {
            Some(byte) => *byte != b'\n',
            None => false,
        };
        return if is_open {
            lines.saturating_add(1)
        } else {
            lines
        };
    }
    // Up to the end of the last whole line.
    let bytes = match beginning.iter().rposition(|byte| *byte == b'\n') {
        Some(place) => place as u64 + 1,
        None => beginning.len() as u64,
    };
    if bytes == 0 {
        return 0;
    }
    length.saturating_mul(lines.max(1)) / bytes
}
