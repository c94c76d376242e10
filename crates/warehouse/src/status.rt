//! What a session says of its warehouse.
ghost use Rattle.std.specs.Prelude.{◌≡◌, ◌<◌, ◌≤◌, ◌↔◌, None, true, length, slice_get, slice_index_or, IfOk, IfErr};
ghost use Rattle.std.specs.Prelude.{IsErrOf, ℕ};
ghost use Rattle.warehouse_root.specs.Limits.{most_cuboids};
ghost use Rattle.std.specs.List.{sum_by};
ghost use Rattle.cube_model.specs.declared.fault.Fault.TheVariants.{Failed};
ghost use Rattle.cube_model.specs.Limits.{most_batches};
ghost use Rattle.warehouse.specs.Session.{ForItsWarehouse, content_of, has_failed};
ghost use Rattle.warehouse.specs.Status.{IsStatus};

use crate::session::Session;
use cube_model::Fault;
use sector_device::Sectors;
use warehouse_root::limits::MOST_CUBOIDS;
use warehouse_root::{Layout, StoredCuboid};

/// The numbers of a warehouse.
#[derive(Clone, Copy, PartialEq, Eq)]
pub struct Status {
    /// The layout of what is on the device.
    pub layout: Layout,
    /// How many batches there are.
    pub batches: u32,
    /// How many rows they have together.
    pub rows: u64,
    /// How often rows were added to the dimensions.
    pub additions: u32,
    /// How many of the first batches each stored cuboid is to hold.
    pub target: u32,
    /// How many commits made what is on the device.
    pub generation: u64,
    /// The stored cuboids, by ascending view. Places after the last one are empty.
    pub cuboids: [Option<StoredCuboid>; MOST_CUBOIDS],
}

impl<D: Sectors> Session<D> {
    /// The numbers of the warehouse. `Failed` where the device failed in an earlier call, and no other refusal. It
    /// takes no memory, and makes no device call.
    pub fn status(&self) -> Result<Status, Fault>
        ensures ok { IfOk result
            (λ status. ForItsWarehouse D.Sectors self.now self.now
            (λ w. IsStatus w (content_of D.Sectors self.now).generation status)) }
        ensures failed { IsErrOf result Failed ↔ (has_failed self.now ≡ true) }
        ensures only { IfErr result (λ fault. fault ≡ Failed) }
    {
        if self.store.is_broken() {
            return Err(Fault::Failed);
        }
        let batches = self.root.batches();
        Ok(Status {
            layout: self.root.layout(),
            batches: batches.len() as u32,
            rows: row_total(batches),
            additions: self.root.additions(),
            target: self.root.target(),
            generation: self.store.generation(),
            cuboids: in_places(self.root.cuboids()),
        })
    }
}

// How many rows batches have together.
pub(crate) fn row_total(batches: &[u32]) -> u64
    requires few { length batches.now ≤ most_batches }
    ensures { result ≡ sum_by (λ rows. rows) batches.now }
{
    let mut total = 0;
    for rows in batches {
        total += u64::from(*rows);
    }
    total
}

// Cuboids in as many places as there can be. Those after the last one are empty.
fn in_places(cuboids: &[StoredCuboid]) -> [Option<StoredCuboid>; MOST_CUBOIDS]
    requires few { length cuboids.now ≤ most_cuboids }
    ensures { (place : ℕ) → place < most_cuboids → slice_index_or result place None ≡ slice_get cuboids.now place }
{
    let mut places = [None; MOST_CUBOIDS];
    for place in 0..cuboids.len() {
        places[place] = Some(cuboids[place]);
    }
    places
}
