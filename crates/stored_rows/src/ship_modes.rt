//! Reading the ship modes of the stored batches.
ghost use Rattle.std.specs.Prelude.{◌≡◌, ◌≢◌, ◌⊎◌, None, Some, false, IfErr, IfOk, IsErrOf};
ghost use Rattle.cube_model.specs.declared.fault.Fault.TheVariants.{Device, Failed, Memory};
ghost use Rattle.cube_model.specs.Admission.{all_rows};
ghost use Rattle.object_store.specs.Store.{has_failed};
ghost use Rattle.warehouse_root.specs.declared.layout.Layout.TheVariants.{First, Second};
ghost use Rattle.warehouse_root.specs.Modes.{kept_modes};
ghost use Rattle.warehouse_objects.specs.Migration.{migration_refusal};
ghost use Rattle.warehouse_objects.specs.Reads.{ForHeldOfRoot, ReadsOnly};

use crate::gathering::Gathered;
use crate::text_part::read_mode_column;
use cube_model::Fault;
use object_store::Store;
use sector_device::Sectors;
use std::alloc::Global;
use warehouse_objects::ShipModes;
use warehouse_root::Root;

/// The ship modes of all batches in a store, each once in the order of first use. Of each batch the header, the
/// dictionaries of its texts and the codes of its ship modes are read; the ship modes of one batch are in memory at a
/// time.
///
/// `ReservedMember` where one is the text `ALL`, with the first such row of all batches, or else `TooManyMembers` where
/// there are more than 65,535, with the first row with which there are. It can also fail when out of memory, or because
/// the device does.
pub fn read_ship_modes<D: Sectors>(
    alloc: Global,
    store: &mut Store<D>,
    root: &Root,
) -> Result<ShipModes, Fault>
    requires fine { has_failed store.old ≡ false }
    ensures ok { IfOk result
        (λ modes. ForHeldOfRoot D.Sectors store.old store.new root.now
        (λ w. (migration_refusal First w.batches ≡ None) × (modes ≡ kept_modes Second (all_rows w.batches)))) }
    ensures refused { IfErr result
        (λ fault. fault ≢ Device
        → ForHeldOfRoot D.Sectors store.old store.new root.now
        (λ w. (fault ≡ Memory) ⊎ (migration_refusal First w.batches ≡ Some fault))) }
    ensures failed { IsErrOf result Failed → ⊥ }

    // The content stays, at each moment.
    ensures reads { ReadsOnly D.Sectors store.old store.new result }
{
    let counts = root.batches();
    let mut gathered = Gathered::none(alloc);
    for before in 0..counts.len() as u32 {
        let number = before + 1;
        let column = read_mode_column(alloc, store, number, counts[before as usize])?;
        gathered.add(alloc, &column, number)?;
    }
    match gathered.crowded {
        Some(place) => Err(Fault::TooManyMembers { place }),
        None => Ok(gathered.modes),
    }
}
