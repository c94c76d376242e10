//! The demonstration from its beginning to its end.
use crate::demo_rows::{CUSTOMER, DATE, PART, SUPPLIER};
use crate::outage::load_until_outage;
use crate::steps::{load, report_cube, report_queries, status, store_cuboids};
use crate::telling::{say, show};
use cube_model::Fault;
use dimension_tables::read_dimensions;
use sector_device::{MemDisk, Sectors};
use std::alloc::Global;
use std::io::Write;
use warehouse::{Session, create, open};

/// How many sectors the disk has.
const SECTORS: u32 = 256;

/// Makes a warehouse on a disk in memory from the sample tables, loads it until the power fails within a commit, opens
/// what the disk has kept, loads the rest, stores cuboids, and writes reports. Before the lines of each step it writes
/// the command that does it on a file.
///
/// It fails with `Output` where a write fails, and with `Memory`.
pub fn demonstrate<W: Write>(alloc: Global, out: &mut W) -> Result<(), Fault> {
    let disk = new_disk(alloc, out)?;
    let disk = load_until_outage(alloc, disk, out)?;
    match open(alloc, disk) {
        Ok(mut session) => go_on(alloc, &mut session, out),
        Err((fault, _)) => Err(fault),
    }
}

// A disk with a warehouse of no batch.
fn new_disk<W: Write>(alloc: Global, out: &mut W) -> Result<MemDisk, Fault> {
    say(
        out,
        "A warehouse on a disk in memory, of sample tables that are part of the program. After >\nis the command that does a step on a file.",
    )?;
    show(
        out,
        "create star.dev --sectors 256 --customer customer.tbl --supplier supplier.tbl --part part.tbl --date date.tbl",
    )?;
    let dims = read_dimensions(
        alloc,
        CUSTOMER.as_bytes(),
        SUPPLIER.as_bytes(),
        PART.as_bytes(),
        DATE.as_bytes(),
    )?;
    let disk = MemDisk::new(alloc, SECTORS)?;
    match create(alloc, disk, dims) {
        Ok(session) => {
            say_created(out)?;
            Ok(session.close())
        }
        Err((fault, _)) => Err(fault),
    }
}

fn say_created<W: Write>(out: &mut W) -> Result<(), Fault> {
    match writeln!(out, "created {SECTORS} sectors") {
        Ok(()) => Ok(()),
        Err(_) => Err(Fault::Output),
    }
}

// What is done after the power failure.
fn go_on<D: Sectors, W: Write>(
    alloc: Global,
    session: &mut Session<D>,
    out: &mut W,
) -> Result<(), Fault> {
    status(alloc, session, out)?;
    say(
        out,
        "The batches whose lines were printed are there, the third is not. The same load goes on:\nwhat is there is skipped.",
    )?;
    load(alloc, session, out)?;
    store_cuboids(alloc, session, out)?;
    report_queries(alloc, session, out)?;
    report_cube(alloc, session, out)
}
