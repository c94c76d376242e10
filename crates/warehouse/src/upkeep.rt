//! Keeping the stored cuboids of a warehouse up to date, and auditing them.
ghost use Rattle.std.specs.Prelude.{◌≡◌, ◌≢◌, ◌↔◌, All, IsTrue, true, IfErr, IfOk, IsErrOf, OnOk};
ghost use Rattle.cube_model.specs.declared.fault.Fault.TheVariants.{Device, Memory};
ghost use Rattle.warehouse_objects.specs.Warehouse.{Warehouse};
ghost use Rattle.warehouse_objects.specs.Represents.{Represents};
ghost use Rattle.stored_cuboids.specs.Merged.{IsSound};
ghost use Rattle.stored_cuboids.specs.Keeping.{IsKeptUp};
ghost use Rattle.stored_cuboids.specs.Upkeep.{CuboidsAreCurrent};
ghost use Rattle.warehouse.specs.Reads.{OnlyReads};
ghost use Rattle.warehouse.specs.Session.{CallsDevice, ForItsWarehouse, IsAt, MayLeave, device_of};
ghost use Rattle.warehouse.specs.Upkeep.{IsLaidAt, UpkeepRefuses};

use crate::session::Session;
use cube_model::Fault;
use sector_device::Sectors;
use std::alloc::Global;
use stored_cuboids::{audited, keep_up};

impl<D: Sectors> Session<D> {
    /// Brings each stored cuboid to all batches. Where some mark is below their count, one commit sets the target to
    /// it; then each such cuboid, by ascending view, gets its cells and its mark in a commit of its own.
    ///
    /// A cuboid that would have more than 262,144 cells is passed over, and at the end `TooManyCells` names the view of
    /// the first such cuboid. Any other fault ends it, and marks that were reached stay: it can fail when out of memory
    /// or room, at the last generation, and because the device does.
    pub fn upkeep(&mut self, alloc: Global) -> Result<(), Fault>
        // A crash leaves the same rows, batches and views, and no mark lower.
        ensures leaves { MayLeave D.Sectors self.old self.new (λ w c. (v : Warehouse) × IsKeptUp w v × Represents c v) }
        ensures stays { (IsErrOf result Device → ⊥) → (w : Warehouse) → IsAt D.Sectors self.old w
            → (v : Warehouse) × IsKeptUp w v × IsAt D.Sectors self.new v }

        // Then each stored cuboid holds all batches.
        ensures ok { OnOk result ((w : Warehouse) → IsAt D.Sectors self.old w → (v : Warehouse) × IsKeptUp w v
            × IsAt D.Sectors self.new v
            × (D.keeps_word (device_of self.new) → CuboidsAreCurrent v)) }

        // When each error comes.
        ensures refused { IfErr result (λ fault. fault ≢ Device → (w : Warehouse) → IsAt D.Sectors self.old w
            → (v : Warehouse) × IsKeptUp w v × IsAt D.Sectors self.new v
            × (D.keeps_word (device_of self.new) → UpkeepRefuses D.Sectors self.new v fault)) }
        ensures calls { CallsDevice D.Sectors (IsErrOf result) self.old self.new }
    {
        if self.is_broken() {
            return Err(Fault::Failed);
        }
        match keep_up(
            alloc,
            &mut self.store,
            &self.dims,
            &self.modes,
            &mut self.root,
        ) {
            Ok(passed) => match passed {
                None => Ok(()),
                Some(view) => Err(Fault::TooManyCells { view: view.index() }),
            },
            Err(fault) => Err(fault),
        }
    }

    /// Whether each stored cuboid is the grouping of the batches up to its mark, also where the cells were changed by
    /// other means than a session. Each is worked out anew from the fact rows and compared.
    ///
    /// It can fail when out of memory, and because the device does.
    pub fn audit(&mut self, alloc: Global) -> Result<bool, Fault>
        // It only reads: the warehouse stays as it is, at each moment, and after a failure nothing is done.
        ensures reads { OnlyReads D.Sectors (IsErrOf result) self.old self.new }

        // The answer is yes exactly where each is, whatever the cells of the cuboids are. So it is yes of a warehouse.
        ensures answer { IfOk result (λ yes. (w : Warehouse) → IsLaidAt D.Sectors self.old w
            → D.keeps_word (device_of self.new)
            → IsTrue yes ↔ All (IsSound w) w.cuboids) }
        ensures yes { IfOk result (λ yes. ForItsWarehouse D.Sectors self.old self.new (λ w. yes ≡ true)) }

        // When each error comes.
        ensures refused { IfErr result (λ fault. fault ≢ Device → (w : Warehouse) → IsLaidAt D.Sectors self.old w
            → D.keeps_word (device_of self.new) → fault ≡ Memory) }
    {
        if self.is_broken() {
            return Err(Fault::Failed);
        }
        match audited(alloc, &mut self.store, &self.root, &self.dims, &self.modes) {
            Ok(yes) => Ok(yes),
            Err(fault) => Err(fault),
        }
    }
}
