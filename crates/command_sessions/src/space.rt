//! Whether a warehouse has room for what is to be stored.
use crate::device::{InFile, path_of};
use crate::needs::{CELL_BYTES, Cut, Needs, SECTOR_BYTES, row_count};
use batch_loader::Table;
use clap::ArgMatches;
use command_files::files::{byte_count, open_again};
use command_files::system::System;
use command_files::table_paths::{loaded_paths, table_name};
use cube_model::limits::{MOST_BATCH_ROWS, MOST_BATCHES};
use cube_model::{Attr, Axis, Fault};
use dimensions::Dims;
use sector_device::Sectors;
use std::alloc::Global;
use std::io::Read;
use warehouse::Session;
use warehouse_root::limits::MOST_CELLS;

/// The bytes at the beginning of a file by which its rows are estimated.
const BEGINNING: usize = 4096;

/// The bytes of a row of a dimension table, about: its key, and the code of its finest text.
const DIMENSION_ROW_BYTES: u64 = 8;

/// The bytes of a text of a dimension table, about, and the code of its upper member.
const TEXT_BYTES: u64 = 32;

/// How many cuboids a new warehouse has room for: eight, and one more while it is written anew.
const CUBOIDS: u64 = 9;

/// The fewest sectors of a warehouse.
const FEWEST_SECTORS: u64 = 64;

static AXES: [Axis; 4] = [Axis::Customer, Axis::Supplier, Axis::Part, Axis::Date];

/// The attributes whose texts a warehouse stores.
static TEXTS: [Attr; 13] = [
    Attr::CustomerCity,
    Attr::CustomerNation,
    Attr::CustomerRegion,
    Attr::SupplierCity,
    Attr::SupplierNation,
    Attr::SupplierRegion,
    Attr::PartBrand1,
    Attr::PartCategory,
    Attr::PartMfgr,
    Attr::DateYearmonthnum,
    Attr::DateYear,
    Attr::DateYearmonth,
    Attr::DateWeeknuminyear,
];

/// The sectors of a warehouse.
#[derive(Clone, Copy)]
pub struct Room {
    /// How many there are.
    pub sectors: u64,
    /// How many of them are in use.
    pub taken: u64,
}

impl Room {
    /// The room of an open warehouse.
    pub fn of<D: Sectors>(alloc: Global, session: &Session<D>) -> Result<Room, Fault> {
        Ok(Room {
            sectors: u64::from(session.device().count()),
            taken: session.sectors_taken(alloc)?,
        })
    }

    /// How many are free.
    pub fn free(self) -> u64 {
        self.sectors.saturating_sub(self.taken)
    }

    /// How many more batches of so many rows a warehouse of so many batches may get, about. Where that is no row, of
    /// the most rows.
    pub fn batches_more(self, batches: u32, rows: u32) -> u64 {
        let rows = if rows == 0 {
            MOST_BATCH_ROWS as u32
        } else {
            rows
        };
        let cut = Cut {
            first: batches.saturating_add(1),
            rows,
        };
        let needs = Needs::of(cut, u64::from(rows), batches);
        // What a commit writes apart from the batch.
        let commit = needs.whole.saturating_sub(needs.batch);
        let room = self.free().saturating_sub(commit) / needs.batch.max(1);
        room.min((MOST_BATCHES as u64).saturating_sub(u64::from(batches)))
    }

    /// The sectors of a warehouse that also has room for so many, and for some more, since they are estimated.
    pub fn with(self, needed: u64) -> u64 {
        let sectors = self.taken.saturating_add(needed);
        sectors.saturating_add(sectors / 20).saturating_add(16)
    }
}

/// Says on standard error where the free sectors are too few for the batches of a load of so many rows, about, that are
/// not stored yet. The load goes on; standard output and the status stay as they are, also where standard error takes
/// nothing.
pub fn note_room<D: Sectors + InFile>(
    rt: &System,
    given: &ArgMatches<'_>,
    session: &Session<D>,
    cut: Cut,
    rows: u64,
) {
    let Ok(status) = session.status() else {
        return;
    };
    let Ok(room) = Room::of(rt.alloc(), session) else {
        return;
    };
    let needs = Needs::of(cut, rows, status.batches);
    if needs.whole > room.free() {
        say_lack(rt, given, needs, room);
    }
}

// Says that a load needs more sectors than are free.
fn say_lack(rt: &System, given: &ArgMatches<'_>, needs: Needs, room: Room) {
    let Ok(files) = table_name(rt.alloc(), given, Table::Lineorder) else {
        return;
    };
    let need = match loaded_paths(given).unwrap_or(&[]) {
        [_] => "needs",
        _ => "need",
    };
    let _said = eprintln!(rt;
        "note: {files} {need} about {} sectors; free sectors in {}: {}; all of it would fit with --sectors {}",
        needs.whole,
        path_of(given),
        room.free(),
        room.with(needs.whole)
    );
}

/// How many rows the files of a load have together, about, if each is a regular file.
pub fn rows_in_all(rt: &System, paths: &[&str]) -> Option<u64> {
    let bytes = byte_count(rt, paths)?;
    let mut beginning = [0; BEGINNING];
    for path in paths {
        let mut file = open_again(rt, path)?;
        let count = file.read(&mut beginning).ok()?;
        if count > 0 {
            return Some(row_count(bytes, &beginning[..count]));
        }
    }
    Some(0)
}

/// How many rows a text of so many bytes has, about, by its beginning. Nothing where it cannot be read.
pub fn rows_of<F: Read + Drop>(text: F, length: u64) -> Option<u64> {
    let mut text = text;
    let mut beginning = [0; BEGINNING];
    let count = text.read(&mut beginning).ok()?;
    Some(row_count(length, &beginning[..count]))
}

/// What is known where no run of free sectors was long enough, with what a load needs.
pub fn room_hint(
    alloc: Global,
    given: &ArgMatches<'_>,
    room: Option<Room>,
    needs: Option<Needs>,
) -> Result<Option<String>, Fault> {
    let Some(room) = room else {
        return Ok(None);
    };
    let path = path_of(given);
    let free = room.free();
    let said = match needs {
        Some(needs) => format!(in alloc;
            "{path}: no room for the next batch, which needs about {} sectors in a row; free sectors: {free}; create another warehouse with --sectors {}, and load all files into it",
            needs.batch,
            room.with(needs.whole)
        )?,
        None => format!(in alloc;
            "{path}: no room for this change; free sectors: {free}; create a larger warehouse in another file, and load all files into it"
        )?,
    };
    Ok(Some(said))
}

/// The sectors of a warehouse with these dimensions that has room for so many fact rows in batches of the most rows,
/// about, for eight cuboids, and for the dimensions twice, since rows that are added to one write it anew.
pub fn sectors_for(dims: &Dims, rows: u64) -> u64 {
    let cut = Cut {
        first: 1,
        rows: MOST_BATCH_ROWS as u32,
    };
    let facts = Needs::of(cut, rows, 0).whole;
    let cells = rows.min(u64::from(MOST_CELLS));
    let cuboids = cells
        .saturating_mul(CUBOIDS * CELL_BYTES)
        .div_ceil(SECTOR_BYTES);
    let room = Room {
        sectors: 0,
        taken: dimension_sectors(dims).saturating_mul(2),
    };
    room.with(facts.saturating_add(cuboids)).max(FEWEST_SECTORS)
}

// The sectors of the dimensions, about.
fn dimension_sectors(dims: &Dims) -> u64 {
    let mut bytes = 0u64;
    for axis in AXES {
        let rows = dims.row_count(axis) as u64;
        bytes = bytes.saturating_add(rows.saturating_mul(DIMENSION_ROW_BYTES));
    }
    for attr in TEXTS {
        let texts = dims.members(attr) as u64;
        bytes = bytes.saturating_add(texts.saturating_mul(TEXT_BYTES));
    }
    // A part of a sector for each dimension.
    bytes.div_ceil(SECTOR_BYTES).saturating_add(4)
}
