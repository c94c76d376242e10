//! Comparing the ship modes that a store keeps with those of its batches.
ghost use Rattle.std.specs.Prelude.{◌≡◌, ◌⊎◌, false, true, IfErr, IfOk};
ghost use Rattle.cube_model.specs.declared.fault.Fault.TheVariants.{Device, Memory};
ghost use Rattle.object_store.specs.Store.{has_failed};
ghost use Rattle.warehouse_root.specs.declared.layout.Layout.TheVariants.{Second};
ghost use Rattle.warehouse_objects.specs.Reads.{ForHeldOfRoot, ReadsOnly};
ghost use Rattle.stored_rows.specs.Comparing.{ends_reading};

use crate::ship_modes::read_ship_modes;
use cube_model::Fault;
use object_store::Store;
use sector_device::Sectors;
use std::alloc::Global;
use warehouse_objects::read_object;
use warehouse_root::{Layout, MODES_ID, Root};

/// Whether the ship modes that a store keeps are just those of its batches, in the order of first use. In the first
/// layout it keeps none, and nothing is read. One batch is in memory at a time.
///
/// It can fail when out of memory, or because the device does.
pub fn has_own_ship_modes<D: Sectors>(
    alloc: Global,
    store: &mut Store<D>,
    root: &Root,
) -> Result<bool, Fault>
    requires fine { has_failed store.old ≡ false }

    // They are in each warehouse.
    ensures no { IfOk result (λ yes. yes ≡ false → ForHeldOfRoot D.Sectors store.old store.new root.now (λ w. ⊥)) }

    // The content stays, at each moment.
    ensures reads { ReadsOnly D.Sectors store.old store.new result }
    ensures causes { IfErr result (λ fault. (fault ≡ Memory) ⊎ (fault ≡ Device)) }
{
    match root.layout() {
        Layout::First => Ok(true),
        Layout::Second => has_those_of_batches(alloc, store, root),
    }
}

// The same in the second layout.
fn has_those_of_batches<D: Sectors>(
    alloc: Global,
    store: &mut Store<D>,
    root: &Root,
) -> Result<bool, Fault>
    requires fine { has_failed store.old ≡ false }
    requires second { root.now.layout ≡ Second }
    ensures no { IfOk result (λ yes. yes ≡ false → ForHeldOfRoot D.Sectors store.old store.new root.now (λ w. ⊥)) }
    ensures reads { ReadsOnly D.Sectors store.old store.new result }
    ensures causes { IfErr result (λ fault. (fault ≡ Memory) ⊎ (fault ≡ Device)) }
{
    let bytes = match read_object(alloc, store, MODES_ID) {
        Ok(bytes) => bytes,
        Err(fault) if ends_reading(fault) => return Err(fault),
        Err(_) => return Ok(false),
    };
    let modes = match read_ship_modes(alloc, store, root) {
        Ok(modes) => modes,
        Err(fault) if ends_reading(fault) => return Err(fault),
        Err(_) => return Ok(false),
    };
    let own = modes.encode(alloc)?;
    Ok(own.as_slice() == bytes.as_slice())
}

// Whether a fault says nothing of what was read.
fn ends_reading(fault: Fault) -> bool
    ensures { result ≡ ends_reading fault }
{
    match fault {
        Fault::Memory => true,
        Fault::Device => true,
        _ => false,
    }
}
