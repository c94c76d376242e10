//! Finishing an upkeep that was cut off.
ghost use Rattle.std.specs.Prelude.{◌≡◌, ◌≢◌, ◌⊎◌, false, IfErr, IsErrOf, IsOk, OnOk};
ghost use Rattle.cube_model.specs.declared.fault.Fault.TheVariants.{BadLayout, Device, Full, Worn};
ghost use Rattle.warehouse_objects.specs.Warehouse.{Warehouse};
ghost use Rattle.warehouse_objects.specs.Represents.{Represents};
ghost use Rattle.warehouse_objects.specs.Reads.{EndsReading};
ghost use Rattle.stored_cuboids.specs.Keeping.{IsCaughtUp};
ghost use Rattle.warehouse.specs.Found.{IsFinished};
ghost use Rattle.warehouse.specs.Session.{Breaks, IsAt, KeptBefore, MayLeave, device_of, has_failed};

use crate::session::Session;
use cube_model::Fault;
use lattice::View;
use sector_device::Sectors;
use std::alloc::Global;
use stored_cuboids::catch_up;

impl<D: Sectors> Session<D> {
    // Brings each stored cuboid to the target, by ascending view and in one commit each. It passes over those that
    // would have too many cells, and ends where a commit has no room, and at the last generation.
    pub(crate) fn finish(&mut self, alloc: Global) -> Result<(), Fault>
        requires fine { has_failed self.old ≡ false }
        ensures leaves { MayLeave D.Sectors self.old self.new
            (λ w c. (v : Warehouse) × IsCaughtUp w v × Represents c v) }
        ensures ok { OnOk result ((w : Warehouse) → IsAt D.Sectors self.old w → (v : Warehouse) × IsCaughtUp w v
            × IsAt D.Sectors self.new v
            × (D.keeps_word (device_of self.new) → IsFinished D.Sectors self.new v)) }
        ensures readable { IsErrOf result BadLayout → D.keeps_word (device_of self.new) → (w : Warehouse)
            → IsAt D.Sectors self.old w → ⊥ }
        ensures causes { IfErr result EndsReading }
        ensures device { IsErrOf result Device → Breaks D.Sectors self.old self.new }
        ensures word { KeptBefore D.Sectors self.old self.new }
    {
        let caught = catch_up(
            alloc,
            &mut self.store,
            &self.dims,
            &self.modes,
            &mut self.root,
        );
        unless_no_room(caught)
    }
}

// Nothing of a refusal for lack of room, nor of one at the last generation.
fn unless_no_room(caught: Result<Option<View>, Fault>) -> Result<(), Fault>
    ensures ok { OnOk result (IsOk caught ⊎ (IsErrOf caught Full ⊎ IsErrOf caught Worn)) }
    ensures err { IfErr result (λ fault. IsErrOf caught fault × (fault ≢ Full) × (fault ≢ Worn)) }
{
    match caught {
        Ok(_) | Err(Fault::Full | Fault::Worn) => Ok(()),
        Err(fault) => Err(fault),
    }
}
