//! Which programs may have a file open at once, and what a device does that is only read.
use crate::bytes::{get, put};
use crate::removal::remove;
use file_device::{Existing, FileDisk, Host, OpenError, Unread};
use sector_device::Sectors;
use std::fs::{self, File};
use std::test::Fail;

type Disk = FileDisk<Host<File>, Unread>;

// What became of a try to open a file.
#[derive(Clone, Copy, PartialEq, Eq)]
enum Outcome {
    Opened,
    System,
    Locked,
    NotRegular,
    Length,
    NotBlank,
}

fn refusal(error: OpenError) -> Outcome {
    match error {
        OpenError::System(_) => Outcome::System,
        OpenError::Locked => Outcome::Locked,
        OpenError::NotRegular => Outcome::NotRegular,
        OpenError::Length => Outcome::Length,
        OpenError::NotBlank => Outcome::NotBlank,
    }
}

fn opening(disk: Result<Disk, OpenError>) -> Outcome {
    match disk {
        Ok(_) => Outcome::Opened,
        Err(error) => refusal(error),
    }
}

// What becomes of a try to make a file of 64 sectors, and whether it was new.
fn making(rt: &HostRuntime, path: &str, existing: Existing) -> (Outcome, bool) {
    match Disk::make(rt, path, 64, existing) {
        Ok(made) => (Outcome::Opened, made.is_new),
        Err(error) => (refusal(error), false),
    }
}

// What becomes of an `open`, an `open_to_read` and a `make`.
fn tries(rt: &HostRuntime, path: &str) -> [Outcome; 3] {
    let opened = opening(Disk::open(rt, path));
    let read = opening(Disk::open_to_read(rt, path));
    [opened, read, making(rt, path, Existing::Any).0]
}

// The tries while a device has a new file open to write, while one has it open to read, and after.
fn excluded(rt: &HostRuntime, path: &str) -> Result<[[Outcome; 3]; 3], OpenError> {
    remove(rt, path);
    let during_a_write = {
        let _held = Disk::make(rt, path, 64, Existing::Blank)?;
        tries(rt, path)
    };
    let during_a_read = {
        let _held = Disk::open_to_read(rt, path)?;
        tries(rt, path)
    };
    Ok([during_a_write, during_a_read, tries(rt, path)])
}

static EXCLUDED: [[Outcome; 3]; 3] = [
    [Outcome::Locked, Outcome::Locked, Outcome::Locked],
    [Outcome::Locked, Outcome::Opened, Outcome::Locked],
    [Outcome::Opened, Outcome::Opened, Outcome::Opened],
];

#[test]
fn has_one_writer_or_some_readers(rt: HostRuntime) -> Result<(), Fail> {
    assert!(rt; excluded(&rt, "locked.disk")? == EXCLUDED);
    remove(&rt, "locked.disk");
    Ok(())
}

// A new file of which one sector is not all zero.
fn marked(rt: &HostRuntime, path: &str, sector: u32) -> Result<(), Fail> {
    remove(rt, path);
    let mut disk = Disk::make(rt, path, 64, Existing::Any)?.disk;
    put(&mut disk, sector, 7)?;
    disk.sync()?;
    Ok(())
}

// What becomes of a `make` of a file marked so, if it may hold nothing and if it may hold anything.
fn over(rt: &HostRuntime, path: &str, sector: u32) -> Result<[(Outcome, bool); 2], Fail> {
    marked(rt, path, sector)?;
    let blank = making(rt, path, Existing::Blank);
    Ok([blank, making(rt, path, Existing::Any)])
}

static OVER: [(u32, Outcome); 3] = [
    (0, Outcome::NotBlank),
    (1, Outcome::NotBlank),
    (2, Outcome::Opened),
];

#[test]
fn makes_over_two_sectors_of_zeros_alone(rt: HostRuntime) -> Result<(), Fail> {
    for (sector, blank) in &OVER {
        assert!(rt;
            over(&rt, "over.disk", *sector)? == [(*blank, false), (Outcome::Opened, false)],
            "sector {sector}"
        );
    }
    remove(&rt, "over.disk");
    assert!(rt; making(&rt, "over.disk", Existing::Blank) == (Outcome::Opened, true));
    remove(&rt, "over.disk");
    Ok(())
}

#[test]
fn opens_regular_files_alone(rt: HostRuntime) {
    for path in [".", "/dev/null"] {
        assert!(rt; tries(&rt, path) == [Outcome::NotRegular; 3], "{path}");
    }
}

// What a device that is only read gives of a sector, whether a sync, a write and a read after it succeed, and the
// failures.
fn read_only(rt: &HostRuntime, path: &str) -> Result<(Option<u8>, [bool; 3], u64), OpenError> {
    let mut disk = Disk::open_to_read(rt, path)?;
    let byte = get(&mut disk, 5).unwrap_or(None);
    let sync = disk.sync().is_ok();
    let write = put(&mut disk, 5, 8).is_ok();
    let read = get(&mut disk, 5).is_ok();
    Ok((byte, [sync, write, read], disk.failures()))
}

// What the sector gives to a device that may be written.
fn kept(rt: &HostRuntime, path: &str) -> Option<u8> {
    let mut disk = Disk::open(rt, path).ok()?;
    get(&mut disk, 5).unwrap_or(None)
}

#[test]
fn refuses_writes_where_it_only_reads(rt: HostRuntime) -> Result<(), Fail> {
    marked(&rt, "read.disk", 5)?;
    let found = read_only(&rt, "read.disk")?;
    let kept = kept(&rt, "read.disk");
    remove(&rt, "read.disk");
    assert!(rt; (found, kept) == ((Some(7), [true, false, false], 2), Some(7)));
    Ok(())
}
