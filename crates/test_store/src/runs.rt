// Neighbouring sectors of a device over a file, which one call of the system reads or writes, and calls that fail.
use crate::bytes::{get, get_each, get_four, put, put_four};
use crate::fake_file::{Calls, Numbered};
use file_device::{FileDisk, Host, Unread};
use sector_device::Sectors;
use std::cell::Cell;
use std::io;
use std::test::Fail;

type Disk<'a> = FileDisk<Host<Numbered<'a>>, Unread>;

// No sector of the tests.
const NONE: u64 = 4_294_967_295;

const NO_CALL: Calls = Calls {
    reads: 0,
    writes: 0,
};

// A device of 1,000 sectors over a file that gives at most so many bytes in a call, and cannot read a sector.
fn disk<'a>(piece: usize, bad: u64, calls: &'a Cell<Calls>) -> Disk<'a> {
    let file = Numbered {
        piece,
        bad,
        writes: true,
        syncs: true,
        calls,
    };
    FileDisk::over(Host::new(file), 1000)
}

// What came of a read of four sectors, the failures, and the calls of the system.
type OfRead = (Option<[Option<u8>; 4]>, u64, u64);

// How many bytes the system gives at most in a call, a sector that it cannot read, the first of four, whether they are
// read at once, what they are, the failures, and the calls of the system.
static READINGS: [(usize, u64, u32, bool, Option<[u8; 4]>, u64, u64); 6] = [
    (usize::MAX, NONE, 5, true, Some([5, 6, 7, 8]), 0, 1),
    (usize::MAX, NONE, 5, false, Some([5, 6, 7, 8]), 0, 4),
    (
        usize::MAX,
        NONE,
        996,
        true,
        Some([243, 244, 245, 246]),
        0,
        1,
    ),
    (100, NONE, 5, true, Some([5, 6, 7, 8]), 0, 21),
    (usize::MAX, 7, 5, true, None, 1, 2),
    (usize::MAX, 7, 5, false, None, 1, 3),
];

fn reading(piece: usize, bad: u64, first: u32, at_once: bool) -> OfRead {
    let calls = Cell::new(NO_CALL);
    let mut disk = disk(piece, bad, &calls);
    let sectors = if at_once {
        get_four(&mut disk, first).ok()
    } else {
        get_each(&mut disk, first).ok()
    };
    (sectors, disk.failures(), calls.get().reads)
}

#[test]
fn reads_a_run_in_one_call(rt: HostRuntime) {
    for (place, row) in READINGS.iter().enumerate() {
        let (piece, bad, first, at_once, bytes, failures, calls) = *row;
        let sectors = bytes.map(|four| four.map(|byte| Some(byte)));
        assert!(rt;
            reading(piece, bad, first, at_once) == (sectors, failures, calls),
            "row {place}"
        );
    }
}

// The calls of the system after a sector was written, after four at once, and after a sync.
fn writes() -> Result<[u64; 3], Fail> {
    let calls = Cell::new(NO_CALL);
    let mut disk = disk(usize::MAX, NONE, &calls);
    put(&mut disk, 5, 1)?;
    let one = calls.get().writes;
    put_four(&mut disk, 6, [1, 2, 3, 4])?;
    let four = calls.get().writes;
    disk.sync()?;
    Ok([one, four, calls.get().writes])
}

#[test]
fn writes_a_run_in_one_call_at_once(rt: HostRuntime) -> Result<(), Fail> {
    assert!(rt; writes()? == [1, 2, 2]);
    Ok(())
}

// Whether a read, a write, a sync, a read and a write succeed where syncs fail, the failures, and what the system
// said of the last.
type Torn = ([bool; 5], u64, Option<io::ErrorKind>);

fn torn(writes: bool) -> Torn {
    let calls = Cell::new(NO_CALL);
    let file = Numbered {
        piece: usize::MAX,
        bad: NONE,
        writes,
        syncs: false,
        calls: &calls,
    };
    let mut disk: Disk<'_> = FileDisk::over(Host::new(file), 64);
    let read = get(&mut disk, 0).is_ok();
    let write = put(&mut disk, 0, 1).is_ok();
    let sync = disk.sync().is_ok();
    let again = get(&mut disk, 0).is_ok();
    let last = put(&mut disk, 0, 1).is_ok();
    let said = disk.file().failure().map(|error| error.kind());
    ([read, write, sync, again, last], disk.failures(), said)
}

#[test]
fn fails_each_call_after_a_failed_write_or_sync(rt: HostRuntime) {
    let other = Some(io::ErrorKind::Other);
    assert!(rt; torn(false) == ([true, false, false, false, false], 4, other));
    assert!(rt; torn(true) == ([true, true, false, false, false], 3, other));
}
