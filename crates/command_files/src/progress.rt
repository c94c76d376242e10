//! How far a command has read its file.
use crate::system::System;
use std::cell::Cell;
use std::io::{self, Read};
use std::rt::Clock;
use std::time::Duration;

/// The bytes of a megabyte.
pub const MEGABYTE: u64 = 1_000_000;

/// How many bytes are read before more is said.
const STEP: u64 = 8 * MEGABYTE;

/// A reader that counts what is read, where that is asked for, and says on standard error how far it is, where that is
/// watched. It takes its line back at the end.
pub struct Progress<'r, 't, F: Read + Drop> {
    rt: &'r System,
    reader: F,
    tally: &'t Cell<Tally>,
}

impl<'r, 't, F: Read + Drop> Progress<'r, 't, F> {
    /// A reader of which nothing was read yet, and what counts it.
    pub fn new(rt: &'r System, reader: F, tally: &'t Cell<Tally>) -> Progress<'r, 't, F> {
        Progress { rt, reader, tally }
    }
}

impl<F: Read + Drop> Read for Progress<'_, '_, F> {
    ghost remaining = { λ progress. F.remaining progress.reader };

    fn read(&mut self, buf: &mut [u8]) -> io::Result<usize> {
        let count = self.reader.read(buf)?;
        let mut tally = self.tally.get();
        if tally.is_counted {
            tally.pass(self.rt, &buf[..count]);
            self.tally.set(tally);
        }
        Ok(count)
    }
}

impl<F: Read + Drop> Drop for Progress<'_, '_, F> {
    fn drop(self) {
        let Progress {
            rt,
            reader: _,
            tally,
        } = self;
        if tally.get().is_watched {
            let _said = eprint!(rt; "\r\u{1b}[K");
        }
    }
}

/// What a person wants to know of the reading of a file.
#[derive(Clone, Copy)]
pub struct Wanted {
    /// How far it is, while it is read.
    pub progress: bool,
    /// How many rows it had, at the end.
    pub rows: bool,
}

/// How far a file was read, and since when.
#[derive(Clone, Copy)]
pub struct Tally {
    is_watched: bool,
    is_counted: bool,
    began: Duration,
    // The bytes of the whole file, where they are known.
    length: u64,
    read: u64,
    lines: u64,
    // Whether the last line that was read has no end yet.
    is_open: bool,
    // The bytes that are read before something is said.
    next: u64,
}

impl Tally {
    /// Nothing was read yet of so many bytes, 0 where they are not known. Where there is no clock nothing is said or
    /// counted.
    pub fn new(rt: &System, length: u64, wanted: Wanted) -> Tally {
        let (began, has_clock) = match rt.monotonic() {
            Ok(now) => (now, true),
            Err(_) => (Duration::ZERO, false),
        };
        Tally {
            is_watched: has_clock && wanted.progress,
            is_counted: has_clock && (wanted.progress || wanted.rows),
            began,
            length,
            read: 0,
            lines: 0,
            is_open: false,
            next: STEP,
        }
    }

    /// The lines that were read, the last one too where it has no end.
    pub fn rows(&self) -> u64 {
        self.lines.saturating_add(u64::from(self.is_open))
    }

    /// The bytes that were read.
    pub fn bytes(&self) -> u64 {
        self.read
    }

    /// The time since the reading began, where there is a clock.
    pub fn passed(&self, rt: &System) -> Duration {
        match rt.monotonic() {
            Ok(now) => now.saturating_sub(self.began),
            Err(_) => Duration::ZERO,
        }
    }

    // Counts the next bytes, and says so at each step.
    fn pass(&mut self, rt: &System, bytes: &[u8]) {
        let lines = bytes.iter().filter(|byte| **byte == b'\n').count();
        self.lines = self.lines.saturating_add(lines as u64);
        self.read = self.read.saturating_add(bytes.len() as u64);
        if let Some(last) = bytes.last() {
            self.is_open = *last != b'\n';
        }
        if self.is_watched && self.read >= self.next {
            self.next = self.read.saturating_add(STEP);
            self.say(rt);
        }
    }

    // What standard error does with it is of no account.
    fn say(&self, rt: &System) {
        let rows = self.lines;
        let read = self.read / MEGABYTE;
        let length = self.length / MEGABYTE;
        let rate = rate(rows, self.passed(rt));
        let _said = if length == 0 {
            eprint!(rt; "\r{read} MB, {rows} rows, {rate} a second\u{1b}[K")
        } else {
            eprint!(rt; "\r{read} of {length} MB, {rows} rows, {rate} a second\u{1b}[K")
        };
    }
}

/// How many rows were read in a second, where so many were in a time.
pub fn rate(rows: u64, passed: Duration) -> u128 {
    u128::from(rows) * 1000 / passed.as_millis().max(1)
}
