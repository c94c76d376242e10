//! The fact rows of a stored batch.
ghost use Rattle.std.specs.Prelude.{◌≡◌, ◌≢◌, false, IfErr, IfOk, IsErrOf};
ghost use Rattle.cube_model.specs.declared.fault.Fault.TheVariants.{BadLayout, Device, Memory};
ghost use Rattle.object_store.specs.Store as stores;
ghost use Rattle.warehouse.specs.Comparing.{numbered};
ghost use Rattle.warehouse.specs.Reads.{OnlyReads};
ghost use Rattle.warehouse.specs.Session.{ForItsWarehouse};
ghost use Rattle.warehouse_objects.specs.Reads.{EndsReading, ForHeldOfRoot, ReadsOnly};

use crate::session::Session;
use cube_model::{Fault, Items, LineOrder};
use object_store::Store;
use sector_device::Sectors;
use std::alloc::Global;
use stored_rows::read_rows;
use warehouse_root::Root;

impl<D: Sectors> Session<D> {
    /// The fact rows of the stored batch of a number, in their order, or nothing where there is no such batch, for
    /// which nothing is read. Batches are numbered from 1. All rows of the batch are in memory together: at most
    /// 65,536.
    ///
    /// It can fail when out of memory, and where the device fails.
    pub fn rows_of_batch(
        &mut self,
        alloc: Global,
        number: u32,
    ) -> Result<Option<Items<LineOrder>>, Fault>
        // It only reads: the warehouse stays as it is, at each moment, and after a failure nothing is done.
        ensures reads { OnlyReads D.Sectors (IsErrOf result) self.old self.new }

        // The rows are those of the batch of that number.
        ensures rows { IfOk result
            (λ found. ForItsWarehouse D.Sectors self.old self.new (λ w. found ≡ numbered w.batches number)) }

        // When each error comes.
        ensures refused { IfErr result
            (λ fault. fault ≢ Device → ForItsWarehouse D.Sectors self.old self.new (λ w. fault ≡ Memory)) }
    {
        if self.is_broken() {
            return Err(Fault::Failed);
        }
        match read_numbered(alloc, &mut self.store, &self.root, number) {
            Ok(found) => Ok(found),
            Err(fault) => Err(fault),
        }
    }
}

// The fact rows of the batch of a number in a store, by its root.
fn read_numbered<D: Sectors>(
    alloc: Global,
    store: &mut Store<D>,
    root: &Root,
    number: u32,
) -> Result<Option<Items<LineOrder>>, Fault>
    requires fine { stores.has_failed store.old ≡ false }
    ensures rows { IfOk result
        (λ found. ForHeldOfRoot D.Sectors store.old store.new root.now (λ w. found ≡ numbered w.batches number)) }
    ensures refused { IsErrOf result BadLayout → ForHeldOfRoot D.Sectors store.old store.new root.now (λ w. ⊥) }
    ensures reads { ReadsOnly D.Sectors store.old store.new result }
    ensures causes { IfErr result EndsReading }
{
    match number.checked_sub(1) {
        None => Ok(None),
        Some(before) => read_rows(alloc, store, root, before),
    }
}
