//! Several files as one text.
ghost use Rattle.std.specs.Prelude.{◌≤◌, length};
ghost use Rattle.std.specs.Io.{ReadsAtMost};

use std::cell::Cell;
use std::fs::File;
use std::io::{self, Read};

/// A file, or standard input.
#[derive(Drop)]
pub enum Source<F, S> {
    File(F),
    Input(S),
}

impl<F: Read, S: Read> Read for Source<F, S> {
    fn read(&mut self, buf: &mut [u8]) -> io::Result<usize> {
        match self {
            Source::File(file) => file.read(buf),
            Source::Input(input) => input.read(buf),
        }
    }
}

/// The texts of several readers, one after another. A last line without a line feed at the end of one and the first
/// line of the next stay two lines.
pub struct Joined<'c, F> {
    readers: Vec<F>,
    // How many lines were begun in each of them.
    counts: &'c [Cell<u64>],
    // How many of them were read to their end.
    ended: usize,
    // How many lines ended in the one whose turn it is, and whether the last one that was given has no end yet.
    lines: u64,
    is_open: bool,
}

// Written out, so that a proof has one call to follow where one is let go.
impl<'c, F: Drop> Drop for Joined<'c, F> {
    fn drop(self) {
        let Joined {
            readers: _,
            counts: _,
            ended: _,
            lines: _,
            is_open: _,
        } = self;
    }
}

impl<'c, F> Joined<'c, F> {
    /// Readers in order, of which nothing was read yet, and where the lines of each are counted. There may be fewer
    /// counts than readers.
    pub fn new(readers: Vec<F>, counts: &'c [Cell<u64>]) -> Joined<'c, F> {
        Joined {
            readers,
            counts,
            ended: 0,
            lines: 0,
            is_open: false,
        }
    }

    // Passes on to the next reader. Where there is one, it puts the end of an open line into a buffer, and gives how
    // many bytes that is.
    fn pass_on(&mut self, buf: &mut [u8]) -> usize
        ensures { result ≤ length buf.new }
    {
        self.ended = self.ended.saturating_add(1);
        self.lines = 0;
        if !self.is_open || self.ended >= self.readers.len() {
            return 0;
        }
        let Some(first) = buf.first_mut() else {
            return 0;
        };
        *first = b'\n';
        self.is_open = false;
        1
    }

    // Counts the lines of the next bytes of the reader whose turn it is.
    fn count(&mut self, bytes: &[u8]) {
        if let Some(last) = bytes.last() {
            self.is_open = *last != b'\n';
        }
        if let Some(count) = self.counts.get(self.ended) {
            let ends = bytes.iter().filter(|byte| **byte == b'\n').count();
            self.lines = self.lines.saturating_add(ends as u64);
            count.set(self.lines.saturating_add(u64::from(self.is_open)));
        }
    }
}

impl<F: Read> Joined<'_, F> {
    // Reads from the reader whose turn it is.
    fn read_on(&mut self, buf: &mut [u8]) -> io::Result<usize>
        ensures { ReadsAtMost result buf.new }
    {
        let Some(reader) = self.readers.get_mut(self.ended) else {
            return Ok(0);
        };
        let count = reader.read(buf)?;
        self.count(&buf[..count]);
        Ok(count)
    }
}

impl<F: Read> Read for Joined<'_, F> {
    fn read(&mut self, buf: &mut [u8]) -> io::Result<usize> {
        if buf.is_empty() {
            return Ok(0);
        }
        for _ in self.ended..self.readers.len() {
            let count = self.read_on(buf)?;
            if count > 0 {
                return Ok(count);
            }
            let count = self.pass_on(buf);
            if count > 0 {
                return Ok(count);
            }
        }
        Ok(0)
    }
}
