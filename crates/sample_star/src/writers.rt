//! A writer that takes some bytes, and then fails.
ghost use Rattle.std.specs.Prelude.{◌≡◌, []};

use std::alloc::Global;
use std::io::{self, Write};

/// What a writer does once it has taken all the bytes that it takes.
#[derive(Clone, Copy, PartialEq, Eq)]
pub enum WhenFull {
    /// Each write and each flush fails.
    Fails,
    /// A write takes no byte, and says so.
    TakesNone,
}

/// Takes some bytes, in short writes, and keeps them.
#[derive(Drop)]
pub struct Taker {
    pub bytes: Vec<u8>,
    /// How many bytes it takes from here on.
    pub room: usize,
    /// How many it takes at most a write.
    pub most: usize,
    pub when_full: WhenFull,
}

impl Taker {
    /// Takes so many bytes, at most three a write, and then fails.
    pub fn new(alloc: Global, room: usize) -> Taker
        ensures bytes { result.bytes.items ≡ [] }
        ensures room { result.room ≡ room }
    {
        Taker {
            bytes: Vec::new(alloc),
            room,
            most: 3,
            when_full: WhenFull::Fails,
        }
    }

    fn is_failing(&self) -> bool {
        self.room == 0 && self.when_full == WhenFull::Fails
    }
}

impl Write for Taker {
    ghost use Rattle.std.specs.Prelude.{Some};

    ghost contents = { λ taker. Some taker.bytes.items };

    fn write(&mut self, buf: &[u8]) -> io::Result<usize> {
        if self.is_failing() {
            return Err(io::Error::other("the writer fails here"));
        }
        let count = buf.len().min(self.most).min(self.room);
        self.bytes.extend_from_slice(&buf[..count])?;
        self.room -= count;
        Ok(count)
    }

    fn flush(&mut self) -> io::Result<()> {
        if self.is_failing() {
            return Err(io::Error::other("the writer fails here"));
        }
        Ok(())
    }
}
