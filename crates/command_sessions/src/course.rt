//! How far a command has read the file of its warehouse.
use crate::needs::{CELL_BYTES, Cut, Needs, SECTOR_BYTES};
use clap::ArgMatches;
use command_files::progress::{MEGABYTE, rate};
use command_files::screens::Screens;
use command_files::system::System;
use sector_device::Sectors;
use std::cell::Cell;
use std::io::{self, Write};
use std::rt::Clock;
use std::time::Duration;
use warehouse::{Session, Status};
use watched_device::Observer;

/// The milliseconds after which more is said.
const STEP: u64 = 200;

/// The course of a command, where a person watches it.
pub type Watch<'c> = Option<&'c Cell<Course>>;

/// How far a command has read the file of its warehouse, and since when.
#[derive(Clone, Copy)]
pub struct Course {
    began: Duration,
    // The sectors that it is to read, about, and 0 where they are not known.
    whole: u64,
    read: u64,
    // The time from which on more is said.
    next: Duration,
    // Whether a line is shown.
    is_shown: bool,
}

impl Course {
    // Nothing was read yet of so many sectors.
    fn begin(began: Duration, whole: u64) -> Course {
        Course {
            began,
            whole,
            read: 0,
            next: began.saturating_add(Duration::from_millis(STEP)),
            is_shown: false,
        }
    }

    // Says how far it is. What standard error does with it is of no account.
    fn say(&self, rt: &System, now: Duration) {
        let passed = now.saturating_sub(self.began);
        let read = megabytes(self.read);
        let speed = rate(read, passed);
        let _said = if self.read < self.whole {
            let whole = megabytes(self.whole);
            let left = seconds_left(self.read, self.whole, passed);
            eprint!(rt;
                "\r{read} of about {whole} MB read, {speed} MB a second, about {left} seconds left\u{1b}[K"
            )
        } else {
            let seconds = passed.as_secs();
            eprint!(rt; "\r{read} MB read, {speed} MB a second, {seconds} seconds\u{1b}[K")
        };
    }
}

// The megabytes of so many sectors.
fn megabytes(sectors: u64) -> u64 {
    sectors.saturating_mul(SECTOR_BYTES) / MEGABYTE
}

// How many seconds the rest takes, about, where so much of the whole took a time.
fn seconds_left(read: u64, whole: u64, passed: Duration) -> u128 {
    let rest = u128::from(whole.saturating_sub(read));
    passed.as_millis().saturating_mul(rest) / u128::from(read).max(1) / 1000
}

/// The course of a command, where standard error is a terminal and there is a clock.
pub fn course_of(rt: &System, given: &ArgMatches<'_>, screens: Screens) -> Option<Cell<Course>> {
    if !screens.errors || given.get_flag("quiet") {
        return None;
    }
    match rt.monotonic() {
        Ok(now) => Some(Cell::new(Course::begin(now, 0))),
        Err(_) => None,
    }
}

/// Why the batches of a warehouse are read.
#[derive(Clone, Copy)]
pub enum Errand {
    /// All that is stored is checked.
    Check,
    /// The stored cuboids are brought to all batches.
    Upkeep,
    /// The warehouse is copied, and the cuboids of the copy are brought to all batches.
    Copy,
}

impl Errand {
    // How often a batch is read.
    fn readings(self, status: &Status, batch: u32) -> u64 {
        let mut holding = 0u64;
        let mut lacking = 0u64;
        for place in status.cuboids {
            match place {
                Some(cuboid) if batch <= cuboid.mark => holding = holding.saturating_add(1),
                Some(_) => lacking = lacking.saturating_add(1),
                None => {}
            }
        }
        match self {
            Errand::Check => holding.saturating_add(1),
            Errand::Upkeep => lacking,
            Errand::Copy => holding.saturating_add(lacking).saturating_add(1),
        }
    }

    // The sectors of the stored cells that are read, about.
    fn cell_sectors(self, status: &Status) -> u64 {
        match self {
            Errand::Check => stored_cells(status).saturating_mul(CELL_BYTES) / SECTOR_BYTES,
            Errand::Upkeep | Errand::Copy => 0,
        }
    }
}

// How many cells the stored cuboids have together.
fn stored_cells(status: &Status) -> u64 {
    let mut cells = 0u64;
    for place in status.cuboids {
        if let Some(cuboid) = place {
            cells = cells.saturating_add(u64::from(cuboid.cells));
        }
    }
    cells
}

/// Begins the course of an errand, for which the batches of a warehouse are read.
pub fn begin_errand<D: Sectors>(
    rt: &System,
    watch: Watch<'_>,
    session: &Session<D>,
    errand: Errand,
) {
    let Some(course) = watch else {
        return;
    };
    if let (Ok(now), Ok(status)) = (rt.monotonic(), session.status()) {
        course.set(Course::begin(now, sectors_read(session, &status, errand)));
    }
}

// The sectors that are read for an errand, about.
fn sectors_read<D: Sectors>(session: &Session<D>, status: &Status, errand: Errand) -> u64 {
    let mut sectors = errand.cell_sectors(status);
    for before in 0..status.batches {
        let batch = before.saturating_add(1);
        let rows = session.batch_rows(batch).unwrap_or(0);
        let needs = Needs::of(Cut { first: 1, rows }, u64::from(rows), 0);
        let read = needs.batch.saturating_mul(errand.readings(status, batch));
        sectors = sectors.saturating_add(read);
    }
    sectors
}

/// Takes the line of a course back, where one is shown.
pub fn take_back(rt: &System, watch: Watch<'_>) {
    let Some(cell) = watch else {
        return;
    };
    let course = cell.get();
    if course.is_shown {
        let _said = eprint!(rt; "\r\u{1b}[K");
        cell.set(Course {
            is_shown: false,
            ..course
        });
    }
}

/// What sees how much of a file is read, and says it on standard error, where a person watches.
#[derive(Drop)]
pub struct Meter<'r> {
    rt: &'r System,
    watch: Watch<'r>,
}

impl<'r> Meter<'r> {
    /// What keeps a course, where one is watched.
    pub fn new(rt: &'r System, watch: Watch<'r>) -> Meter<'r> {
        Meter { rt, watch }
    }
}

impl Observer for Meter<'_> {
    ghost reads = { λ _ _ _. Unit {0} };

    ghost writes = { λ _ _ _. Unit {0} };

    fn note_read(&mut self, sectors: usize) {
        if let Some(cell) = self.watch {
            advance(self.rt, cell, sectors);
        }
    }

    fn note_written(&mut self, _sectors: usize) {}
}

// Counts sectors that were read, and says how far the command is where it is time.
fn advance(rt: &System, cell: &Cell<Course>, sectors: usize) {
    let mut course = cell.get();
    course.read = course.read.saturating_add(sectors as u64);
    if let Ok(now) = rt.monotonic() {
        if now >= course.next {
            course.next = now.saturating_add(Duration::from_millis(STEP));
            course.is_shown = true;
            course.say(rt, now);
        }
    }
    cell.set(course);
}

/// A writer before whose words the line of a course is taken back.
#[derive(Drop)]
pub struct Cleared<'c, W: Write> {
    rt: &'c System,
    watch: Watch<'c>,
    writer: W,
}

impl<'c, W: Write> Cleared<'c, W> {
    /// A writer, and the course whose line is taken back.
    pub fn new(rt: &'c System, watch: Watch<'c>, writer: W) -> Cleared<'c, W> {
        Cleared { rt, watch, writer }
    }

    /// The writer.
    pub fn writer(&self) -> &W {
        &self.writer
    }
}

impl<W: Write> Write for Cleared<'_, W> {
    ghost contents = { λ cleared. W.contents cleared.writer };

    fn write(&mut self, buf: &[u8]) -> io::Result<usize> {
        take_back(self.rt, self.watch);
        self.writer.write(buf)
    }

    fn flush(&mut self) -> io::Result<()> {
        take_back(self.rt, self.watch);
        self.writer.flush()
    }
}
