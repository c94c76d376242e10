//! A writer that keeps why a write failed.
use std::io::{self, Write};

/// A writer, the last failure of a write to it, and how often it was flushed.
#[derive(Drop)]
pub struct Watched<W> {
    writer: W,
    failure: Option<io::Error>,
    flushes: u32,
}

impl<W> Watched<W> {
    /// The writer, which has not failed yet.
    pub fn new(writer: W) -> Watched<W> {
        Watched {
            writer,
            failure: None,
            flushes: 0,
        }
    }

    /// Why a write failed, if one did.
    pub fn failure(&self) -> Option<io::Error> {
        self.failure
    }

    /// How often it was flushed: by a load, once after the line of each batch.
    pub fn flushes(&self) -> u32 {
        self.flushes
    }
}

impl<W: Write> Write for Watched<W> {
    ghost contents = { λ watched. W.contents watched.writer };

    fn write(&mut self, buf: &[u8]) -> io::Result<usize> {
        let done = self.writer.write(buf);
        if let Err(error) = &done {
            self.failure = Some(*error);
        }
        done
    }

    fn flush(&mut self) -> io::Result<()> {
        self.flushes = self.flushes.saturating_add(1);
        let done = self.writer.flush();
        if let Err(error) = &done {
            self.failure = Some(*error);
        }
        done
    }
}
