//! How much of its device a warehouse takes.
ghost use Rattle.std.specs.Prelude.{◌≡◌, ◌+◌, ◌<◌, ◌^◌, min, IfOk, IsOkUnless};
ghost use Rattle.std.specs.List.{sum_by};
ghost use Rattle.cube_model.specs.declared.fault.Fault.TheVariants.{Memory};
ghost use Rattle.superblock.specs.Superblock.{sectors_of};
ghost use Rattle.object_store.specs.Room.{catalogue_bytes};
ghost use Rattle.object_store.specs.Store as stores;
ghost use Rattle.warehouse.specs.Room.{object_sectors, sectors_of_size, sectors_taken};
ghost use Rattle.warehouse.specs.Session.{ForItsWarehouse, content_of};

use crate::session::Session;
use cube_model::Fault;
use object_store::Store;
use sector_device::Sectors;
use std::alloc::Global;

/// The bytes of a sector.
const SECTOR_BYTES: u64 = 512;

impl<D: Sectors> Session<D> {
    /// How many sectors of the device the warehouse takes: the two superblocks, and the sectors of the catalogue and of
    /// each object. At most the greatest `u64`. It makes no device call, and can only fail with `Memory`.
    pub fn sectors_taken(&self, alloc: Global) -> Result<u64, Fault>
        ensures taken { IfOk result
            (λ taken. ForItsWarehouse D.Sectors self.now self.now
            (λ w. taken ≡ min (sectors_taken (content_of D.Sectors self.now) w) u64.MAX)) }
        ensures memory { IsOkUnless result Memory }
    {
        let ids = self.root.object_ids(alloc)?;
        let objects = sectors_of_objects(&self.store, ids.as_slice());
        let catalogue = catalogue_sectors(self.store.objects(), self.store.root().len() as u64);
        Ok(objects.saturating_add(catalogue).saturating_add(2))
    }
}

// How many sectors objects of a store take together, at most the greatest `u64`.
fn sectors_of_objects<D: Sectors>(store: &Store<D>, ids: &[u32]) -> u64
    ensures { D.keeps_word (stores.device_of store.now)
        → result ≡ min (sum_by (object_sectors (stores.content_of D.Sectors store.now)) ids.now) u64.MAX }
{
    let mut total = 0u64;
    for id in ids {
        total = total.saturating_add(sectors_of_size(store.size(*id)));
    }
    total
}

// How many sectors an object of some bytes takes. What is not there takes none.
fn sectors_of_size(size: Option<u64>) -> u64
    ensures { result ≡ sectors_of_size size }
{
    match size {
        Some(bytes) => bytes.div_ceil(SECTOR_BYTES),
        None => 0,
    }
}

// How many sectors a catalogue of so many objects takes, with a root of so many bytes.
fn catalogue_sectors(objects: u32, root: u64) -> u64
    requires { root + 2 ^ 40 < 2 ^ 64 }
    ensures { result ≡ sectors_of (catalogue_bytes objects root) }
{
    (12 + 16 * u64::from(objects) + root).div_ceil(SECTOR_BYTES)
}
