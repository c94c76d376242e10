//! Sessions that store cuboids.
use crate::sessions::{loaded, status, submit};
use cube_model::Fault;
use lattice::View;
use sample_star::FACTS;
use sector_device::{MemDisk, Sectors};
use std::alloc::Global;
use warehouse::{MOST_CUBOIDS, Session, Status, StoredCuboid};

/// The first of the three cuboids that are chosen over the three sample rows: two cells in one run, which holds the
/// first batch.
pub const TWO_CELLS: StoredCuboid = StoredCuboid {
    view: 59,
    runs: 1,
    mark: 1,
    cells: 2,
};

/// The three cuboids that are chosen over the three sample rows, brought to the first batch.
pub const THREE: [StoredCuboid; 3] = [
    TWO_CELLS,
    StoredCuboid {
        view: 203,
        ..TWO_CELLS
    },
    StoredCuboid {
        view: 248,
        ..TWO_CELLS
    },
];

/// A status with some cuboids in its places.
pub fn with_cuboids(status: Status, cuboids: &[StoredCuboid]) -> Status {
    let mut places = [None; MOST_CUBOIDS];
    for (to, cuboid) in places.iter_mut().zip(cuboids) {
        *to = Some(*cuboid);
    }
    Status {
        cuboids: places,
        ..status
    }
}

/// The status of a warehouse of one batch of the sample rows whose three cuboids hold it.
pub fn status_of_three() -> Status {
    let plain = Status {
        target: 1,
        generation: 7,
        ..status(1, 3)
    };
    with_cuboids(plain, &THREE)
}

/// A session with so many batches of the three sample rows whose three cuboids hold the first one.
pub fn with_three(alloc: Global, batches: u32) -> Result<Session<MemDisk>, Fault> {
    let mut session = loaded(alloc, 1)?;
    store_views(alloc, &mut session, &[59, 203, 248])?;
    session.upkeep(alloc)?;
    for number in 2..=batches {
        submit(alloc, &mut session, number, &FACTS)?;
    }
    Ok(session)
}

/// The views of some numbers below 512.
fn views(alloc: Global, numbers: &[u16]) -> Result<Vec<View>, Fault> {
    let mut views = Vec::new(alloc);
    for number in numbers {
        match View::new(*number) {
            Some(view) => views.push(view)?,
            None => return Err(Fault::BadQuery),
        }
    }
    Ok(views)
}

/// Has a session store the cuboids of at most 16 views, by their numbers below 512.
pub fn store_views<D: Sectors>(
    alloc: Global,
    session: &mut Session<D>,
    numbers: &[u16],
) -> Result<(), Fault> {
    let views = views(alloc, numbers)?;
    if views.len() > MOST_CUBOIDS {
        return Err(Fault::BadQuery);
    }
    session.set_views(alloc, views.as_slice())
}
