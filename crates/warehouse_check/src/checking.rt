//! The check of a store.
ghost use Rattle.std.specs.Prelude.{◌≡◌, None, is_some, false, All, IfErr, IfOk, IsErrOf, IsTrue};
ghost use Rattle.cube_model.specs.declared.fault.Fault.TheVariants.{BadLayout};
ghost use Rattle.object_store.specs.Store.{content_of, device_of, has_failed};
ghost use Rattle.warehouse_objects.specs.Reads.{EndsReading, ForLaidWith, HoldsNoWarehouse, ReadsOnly};
ghost use Rattle.warehouse_objects.specs.Represents.{HasItsObjects};
ghost use Rattle.stored_cuboids.specs.Merged.{IsSound};
ghost use Rattle.warehouse_check.specs.Checked.{HasBatches};

use crate::batches::check_batches;
use crate::cuboids::check_cuboids;
use crate::finding::Finding;
use cube_model::Fault;
use dimensions::Dims;
use object_store::Store;
use sector_device::Sectors;
use std::alloc::Global;
use stored_rows::has_own_ship_modes;
use warehouse_objects::{ShipModes, has_its_objects};
use warehouse_root::Root;

/// The first thing that is wrong with the content of a store, by its root, its dimensions and its ship modes, if
/// anything is: the objects, then each batch and the totals, then in the second layout the ship modes, then each stored
/// cuboid. Each segment is read whole, in the second layout twice, and each run. One batch is in memory at a time, and
/// the cells of one cuboid.
///
/// That the ship modes are those of the batches where nothing is found is only tested.
///
/// `BadLayout` where a batch changed while it was checked, which none does on a device that keeps its word. It can also
/// run out of memory, or fail because the device does.
pub fn checked<D: Sectors>(
    alloc: Global,
    store: &mut Store<D>,
    root: &Root,
    dims: &Dims,
    modes: &ShipModes,
) -> Result<Option<Finding>, Fault>
    requires fine { has_failed store.old ≡ false }

    // Nothing is found: then the objects are those for which the root asks, and the batches are as it says, whatever
    // the content is.
    ensures objects { IfOk result (λ found. found ≡ None → D.keeps_word (device_of store.new)
        → HasItsObjects (content_of D.Sectors store.old) root.now) }
    ensures batches { IfOk result (λ found. found ≡ None → D.keeps_word (device_of store.new)
        → HasBatches (content_of D.Sectors store.old) dims.now root.now) }

    // And where its cuboids are laid out by the rules, each is the grouping of its batches.
    ensures cuboids { IfOk result
        (λ found. found ≡ None
        → ForLaidWith D.Sectors store.old store.new root.now dims.now modes.now (λ w. All (IsSound w) w.cuboids)) }

    // Something is found, or it is refused: then the content represents no warehouse.
    ensures found { IfOk result (λ found. IsTrue (is_some found)
        → HoldsNoWarehouse D.Sectors store.old store.new root.now dims.now modes.now) }
    ensures refused { IsErrOf result BadLayout
        → HoldsNoWarehouse D.Sectors store.old store.new root.now dims.now modes.now }

    // The content stays, at each moment.
    ensures reads { ReadsOnly D.Sectors store.old store.new result }
    ensures causes { IfErr result EndsReading }
{
    if !has_its_objects(alloc, store, root)? {
        return Ok(Some(Finding::Objects));
    }
    if let Some(found) = check_batches(alloc, store, root, dims)? {
        return Ok(Some(found));
    }
    if !has_own_ship_modes(alloc, store, root)? {
        return Ok(Some(Finding::ShipModes));
    }
    check_cuboids(alloc, store, root, dims, modes)
}
