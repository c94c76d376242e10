// A device over a file of the system.
use crate::bytes::{get, put};
use crate::removal::remove;
use cube_model::Fault;
use file_device::{Existing, FileDisk, Host, OpenError, Unread};
use sector_device::Sectors;
use std::fs::{File, OpenOptions};
use std::test::Fail;
use std::{fs, io};

type Disk = FileDisk<Host<File>, Unread>;

// A new file of so many sectors, each filled with its number modulo 200 and one more.
fn filled(rt: &HostRuntime, path: &str, sectors: u32) -> Result<(), Fail> {
    remove(rt, path);
    let mut disk = Disk::make(rt, path, sectors, Existing::Any)?.disk;
    for i in 0..sectors {
        put(&mut disk, i, (i % 200) as u8 + 1)?;
    }
    disk.sync()?;
    Ok(())
}

// Which of some sectors are right, and how many cannot be read.
fn right_in(disk: &mut Disk, first: u32, end: u32) -> (u32, u32) {
    let mut right: u32 = 0;
    let mut missing: u32 = 0;
    for i in first..end {
        match get(disk, i) {
            Ok(byte) if byte == Some((i % 200) as u8 + 1) => right = right.wrapping_add(1),
            Ok(_) => {}
            Err(_) => missing = missing.wrapping_add(1),
        }
    }
    (right, missing)
}

// Gives a file another length, as another program does.
fn cut(rt: &HostRuntime, path: &str, bytes: u64) -> io::Result<()> {
    let file = OpenOptions::new().write(true).open(rt, path)?;
    file.set_len(bytes)
}

// Another program gives a file of 300 sectors another length when the first sectors below a number were read. Which of
// those are right, how many cannot be read, and the same of the others after.
fn around_a_cut(
    rt: &HostRuntime,
    path: &str,
    read: u32,
    bytes: u64,
) -> Result<((u32, u32), (u32, u32)), Fail> {
    filled(rt, path, 300)?;
    let mut disk = Disk::open(rt, path)?;
    let before = right_in(&mut disk, 0, read);
    cut(rt, path, bytes)?;
    let count = disk.count();
    Ok((before, right_in(&mut disk, read, count)))
}

// How many sectors are read, the length then, which the first time is that of before, and which sectors are right.
static CUTS: [(u32, u64, (u32, u32), (u32, u32)); 4] = [
    (0, 153_600, (0, 0), (300, 0)),
    (0, 51_200, (0, 0), (100, 200)),
    (1, 51_200, (1, 0), (99, 200)),
    (100, 51_200, (100, 0), (0, 200)),
];

#[test]
fn reads_what_is_left_of_a_file_that_was_cut(rt: HostRuntime) -> Result<(), Fail> {
    for (read, bytes, before, after) in &CUTS {
        assert!(rt;
            around_a_cut(&rt, "cut.disk", *read, *bytes)? == (*before, *after),
            "{read} sectors read"
        );
    }
    remove(&rt, "cut.disk");
    Ok(())
}

// What a device takes of a file: its sectors, and what the first gives.
fn taken(rt: &HostRuntime, path: &str, sectors: u32) -> Result<(u32, Option<u8>), Fault> {
    let mut disk = Disk::make(rt, path, sectors, Existing::Any)?.disk;
    Ok((disk.count(), get(&mut disk, 0).unwrap_or(None)))
}

// A file that was made before, and one that is not there.
#[test]
fn takes_a_file_of_its_length_as_it_is(rt: HostRuntime) -> Result<(), Fail> {
    filled(&rt, "taken.disk", 64)?;
    let old = taken(&rt, "taken.disk", 64);
    remove(&rt, "taken.disk");
    let new = taken(&rt, "taken.disk", 66);
    remove(&rt, "taken.disk");
    assert!(rt; [old, new] == [Ok((64, Some(1))), Ok((66, Some(0)))]);
    Ok(())
}

fn sectors_or_fault(disk: Result<Disk, OpenError>) -> Result<u32, Fault> {
    Ok(disk?.count())
}

// What `make` says of a file that may hold anything.
fn made(rt: &HostRuntime, path: &str, sectors: u32) -> Result<u32, Fault> {
    Ok(Disk::make(rt, path, sectors, Existing::Any)?.disk.count())
}

// What `open` and `make` with 64 sectors say of a file of so many bytes.
fn of_length(
    rt: &HostRuntime,
    path: &str,
    length: u64,
) -> Result<(Result<u32, Fault>, Result<u32, Fault>), Fail> {
    fs::File::create(rt, path)?.set_len(length)?;
    let opened = sectors_or_fault(Disk::open(rt, path));
    Ok((opened, made(rt, path, 64)))
}

static LENGTHS: [(u64, Result<u32, Fault>, Result<u32, Fault>); 6] = [
    (0, Err(Fault::DeviceSize), Ok(64)),
    (512, Err(Fault::DeviceSize), Err(Fault::DeviceSize)),
    (32_256, Err(Fault::DeviceSize), Err(Fault::DeviceSize)),
    (32_768, Ok(64), Ok(64)),
    (32_769, Err(Fault::DeviceSize), Err(Fault::DeviceSize)),
    (33_280, Ok(65), Err(Fault::DeviceSize)),
];

#[test]
fn refuses_other_lengths(rt: HostRuntime) -> Result<(), Fail> {
    for (length, opened, made) in &LENGTHS {
        assert!(rt;
            of_length(&rt, "length.disk", *length)? == (*opened, *made),
            "{length} bytes"
        );
    }
    remove(&rt, "length.disk");
    Ok(())
}

#[test]
fn refuses_what_cannot_be_opened(rt: HostRuntime) {
    remove(&rt, "absent.disk");
    let found = [
        sectors_or_fault(Disk::open(&rt, "absent.disk")),
        made(&rt, "absent/disk", 64),
        made(&rt, "absent.disk", 63),
    ];
    let device = Err(Fault::Device);
    assert!(rt; found == [device, device, Err(Fault::DeviceSize)]);
    assert!(rt; fs::metadata(&rt, "absent.disk").is_err());
}
