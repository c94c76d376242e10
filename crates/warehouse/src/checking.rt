//! Checking all that is stored of a warehouse.
ghost use Rattle.std.specs.Prelude.{◌≡◌, ◌≢◌, All, IsTrue, None, is_some, IfErr, IfOk, IsErrOf};
ghost use Rattle.cube_model.specs.declared.fault.Fault.TheVariants.{Device, Memory};
ghost use Rattle.warehouse_objects.specs.Warehouse.{Warehouse};
ghost use Rattle.warehouse_objects.specs.Represents.{Represents};
ghost use Rattle.stored_cuboids.specs.Merged.{IsSound};
ghost use Rattle.warehouse_check.specs.Checked.{IsChecked};
ghost use Rattle.warehouse.specs.Reads.{OnlyReads};
ghost use Rattle.warehouse.specs.Session.{ForItsWarehouse, content_of, device_of};
ghost use Rattle.warehouse.specs.Upkeep.{IsLaidAt};

use crate::session::Session;
use cube_model::Fault;
use sector_device::Sectors;
use std::alloc::Global;
use warehouse_check::{Finding, checked};

impl<D: Sectors> Session<D> {
    /// The first thing that is wrong with what is stored, also where it was changed by other means than a session, or
    /// nothing. The objects are compared with those for which the root asks, each batch is read whole and its rows are
    /// checked as those of a submit are, the totals of the root are compared with those of the rows, in the second
    /// layout the ship modes with those of the batches, and each stored cuboid is worked out anew and compared.
    ///
    /// Where nothing is found the content has the batches that its root says; that then the ship modes are theirs, and
    /// that the runs of its cuboids follow each other by the rules, is only tested. It can fail when out of memory, and
    /// because the device does.
    pub fn check(&mut self, alloc: Global) -> Result<Option<Finding>, Fault>
        // It only reads: the warehouse stays as it is, at each moment, and after a failure nothing is done.
        ensures reads { OnlyReads D.Sectors (IsErrOf result) self.old self.new }

        // Nothing is found: then the content has its objects and batches, whatever it is, and where its cuboids are
        // laid out by the rules, each is the grouping of its batches.
        ensures sound { IfOk result (λ found. found ≡ None → D.keeps_word (device_of self.new)
            → IsChecked (content_of D.Sectors self.old)) }
        ensures cuboids { IfOk result (λ found. found ≡ None → (w : Warehouse) → IsLaidAt D.Sectors self.old w
            → D.keeps_word (device_of self.new)
            → All (IsSound w) w.cuboids) }

        // Something is found: then the content represents no warehouse. So nothing is found in a warehouse.
        ensures found { IfOk result (λ found. IsTrue (is_some found) → D.keeps_word (device_of self.new)
            → (w : Warehouse) → Represents (content_of D.Sectors self.old) w → ⊥) }
        ensures none { IfOk result (λ found. ForItsWarehouse D.Sectors self.old self.new (λ w. found ≡ None)) }

        // When each error comes.
        ensures refused { IfErr result
            (λ fault. fault ≢ Device → ForItsWarehouse D.Sectors self.old self.new (λ w. fault ≡ Memory)) }
    {
        if self.is_broken() {
            return Err(Fault::Failed);
        }
        match checked(alloc, &mut self.store, &self.root, &self.dims, &self.modes) {
            Ok(found) => Ok(found),
            Err(fault) => Err(fault),
        }
    }
}
