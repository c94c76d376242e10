// An open file that no system has.
use std::cell::Cell;
use std::fs::{Metadata, OpenFile};
use std::io;
use std::io::{Error, ErrorKind};
use std::os::unix::fs::FileExt;

/// The calls that a file counts.
#[derive(Clone, Copy)]
pub(crate) struct Calls {
    pub(crate) reads: u64,
    pub(crate) writes: u64,
}

/// A file in which each byte is the number of its sector modulo 251. It gives at most so many bytes in a call, fails
/// a call that begins in a bad sector, stops before one that does not, takes writes and syncs where it says so, and
/// counts its reads and writes.
#[derive(Drop)]
pub(crate) struct Numbered<'a> {
    pub(crate) piece: usize,
    pub(crate) bad: u64,
    pub(crate) writes: bool,
    pub(crate) syncs: bool,
    pub(crate) calls: &'a Cell<Calls>,
}

fn failure() -> Error {
    Error::from(ErrorKind::Other)
}

// What comes of a call that goes well or fails.
fn done(well: bool) -> io::Result<()> {
    if well { Ok(()) } else { Err(failure()) }
}

impl FileExt for Numbered<'_> {
    fn read_at(&self, buf: &mut [u8], offset: u64) -> io::Result<usize> {
        let calls = self.calls.get();
        self.calls.set(Calls {
            reads: calls.reads.wrapping_add(1),
            ..calls
        });
        let mut place = offset;
        let mut read = 0;
        for byte in buf.iter_mut() {
            if place / 512 == self.bad || read == self.piece {
                break;
            }
            *byte = (place / 512 % 251) as u8;
            place = place.wrapping_add(1);
            read = read.wrapping_add(1);
        }
        if read == 0 && !buf.is_empty() {
            return Err(failure());
        }
        Ok(read.min(buf.len()))
    }

    fn write_at(&self, buf: &[u8], _offset: u64) -> io::Result<usize> {
        let calls = self.calls.get();
        self.calls.set(Calls {
            writes: calls.writes.wrapping_add(1),
            ..calls
        });
        done(self.writes)?;
        Ok(buf.len())
    }
}

impl OpenFile for Numbered<'_> {
    fn metadata(&self) -> io::Result<Metadata> {
        Err(failure())
    }

    fn set_len(&self, _size: u64) -> io::Result<()> {
        Err(failure())
    }

    fn sync_all(&self) -> io::Result<()> {
        done(self.syncs)
    }

    fn sync_data(&self) -> io::Result<()> {
        done(self.syncs)
    }
}
