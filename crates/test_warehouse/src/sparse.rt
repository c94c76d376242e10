//! A warehouse in a sparse file of 2 GB.
use cube_model::Fault;
use file_device::{Existing, FileDisk, Host, Unread};
use sample_sessions::{created, finding, found, submit};
use sample_star::FACTS;
use std::fs::{self, File};
use std::test::Fail;

type Disk = FileDisk<Host<File>, Unread>;

/// The sectors of 2 GB.
const SECTORS: u32 = 4_194_304;

/// Makes a warehouse of one batch of the three sample rows in a new file.
fn make(rt: &HostRuntime, path: &str) -> Result<(), Fault> {
    let disk = Disk::make(rt, path, SECTORS, Existing::Blank)?.disk;
    let mut session = created(rt.alloc(), disk)?;
    submit(rt.alloc(), &mut session, 1, &FACTS)
}

/// The file, in the folder in which the tests run.
const PATH: &str = "sparse_warehouse";

#[test]
fn a_warehouse_in_a_file_of_2_gb_is_found_again(rt: HostRuntime) -> Result<(), Fail> {
    let _ = fs::remove_file(&rt, PATH);
    make(&rt, PATH)?;
    let found = found(rt.alloc(), Disk::open(&rt, PATH)?);
    let _ = fs::remove_file(&rt, PATH);
    assert!(rt; found == finding(rt.alloc(), 1));
    Ok(())
}
