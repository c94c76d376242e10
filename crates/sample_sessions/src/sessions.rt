//! Sessions over the sample star.
use cube_model::Fault;
use dimensions::Dims;
use sample_star::{FACTS, Fact, STAR, Star, dim_rows, line_orders};
use sector_device::{MemDisk, Sectors};
use std::alloc::Global;
use warehouse::{Layout, Session, Status, create, open, open_as_is};

/// The dimensions of the sample star.
pub fn sample_dims(alloc: Global) -> Result<Dims, Fault> {
    let rows = dim_rows(alloc, &STAR)?;
    Dims::build(alloc, &rows)
}

/// A session, or why there is none.
fn session_of<D: Sectors + Drop>(
    made: Result<Session<D>, (Fault, D)>,
) -> Result<Session<D>, Fault> {
    match made {
        Ok(session) => Ok(session),
        Err((fault, _)) => Err(fault),
    }
}

/// A warehouse without batches over dimensions on a device.
pub fn created_over<D: Sectors + Drop>(
    alloc: Global,
    device: D,
    dims: Dims,
) -> Result<Session<D>, Fault> {
    session_of(create(alloc, device, dims))
}

/// A warehouse without batches on a device.
pub fn created<D: Sectors + Drop>(alloc: Global, device: D) -> Result<Session<D>, Fault> {
    let dims = sample_dims(alloc)?;
    created_over(alloc, device, dims)
}

/// The warehouse of a device.
pub fn opened<D: Sectors + Drop>(alloc: Global, device: D) -> Result<Session<D>, Fault> {
    session_of(open(alloc, device))
}

/// The warehouse of a device, where the first opening may fail: it is then opened once more.
pub fn opened_again<D: Sectors + Drop>(alloc: Global, device: D) -> Result<Session<D>, Fault> {
    match open(alloc, device) {
        Ok(session) => Ok(session),
        Err((_, device)) => opened(alloc, device),
    }
}

/// The warehouse of a disk as the disk has it, without the end of an upkeep that was cut off.
pub fn as_is(alloc: Global, disk: MemDisk) -> Result<Session<MemDisk>, Fault> {
    session_of(open_as_is(alloc, disk))
}

/// Submits fact rows.
pub fn submit<D: Sectors>(
    alloc: Global,
    session: &mut Session<D>,
    number: u32,
    facts: &[Fact<'_>],
) -> Result<(), Fault> {
    let rows = line_orders(alloc, facts)?;
    session.submit(alloc, number, rows.as_slice())
}

/// Adds rows to the dimensions.
pub fn add<D: Sectors>(
    alloc: Global,
    session: &mut Session<D>,
    number: u32,
    star: &Star<'_>,
) -> Result<(), Fault> {
    let rows = dim_rows(alloc, star)?;
    session.add(alloc, number, &rows)
}

/// A warehouse without batches on a memory disk of 64 sectors.
pub fn fresh(alloc: Global) -> Result<Session<MemDisk>, Fault> {
    let disk = MemDisk::new(alloc, 64)?;
    created(alloc, disk)
}

/// The same with so many batches of the three sample rows.
pub fn loaded(alloc: Global, batches: u32) -> Result<Session<MemDisk>, Fault> {
    let mut session = fresh(alloc)?;
    for number in 1..=batches {
        submit(alloc, &mut session, number, &FACTS)?;
    }
    Ok(session)
}

/// The status of a warehouse of the first layout, of so many batches with so many rows together, which took a commit
/// for each. Nothing was added to its dimensions.
pub fn status(batches: u32, rows: u64) -> Status {
    Status {
        layout: Layout::First,
        batches,
        rows,
        additions: 0,
        target: 0,
        generation: u64::from(batches) + 1,
        cuboids: [None; 16],
    }
}
