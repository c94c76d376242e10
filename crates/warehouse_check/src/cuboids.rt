//! The stored cuboids of a store, checked one after another.
ghost use Rattle.std.specs.Prelude.{◌≡◌, ◌↔◌, None, false, All, IfErr, IfOk, IsErrOf};
ghost use Rattle.cube_model.specs.declared.fault.Fault.TheVariants.{BadLayout};
ghost use Rattle.object_store.specs.Store.{has_failed};
ghost use Rattle.warehouse_objects.specs.Reads.{EndsReading, ForLaidWith, ReadsOnly};
ghost use Rattle.stored_cuboids.specs.Merged.{IsSound};

use crate::finding::Finding;
use cube_model::Fault;
use dimensions::Dims;
use object_store::Store;
use sector_device::Sectors;
use std::alloc::Global;
use stored_cuboids::is_sound;
use warehouse_objects::ShipModes;
use warehouse_root::Root;

/// The first stored cuboid that is not the grouping of the batches up to its mark, if there is one. Each is worked out
/// anew from the fact rows and compared, one at a time.
///
/// `BadLayout` where a batch is not as the root says. It can also run out of memory, or fail because the device does.
pub(crate) fn check_cuboids<D: Sectors>(
    alloc: Global,
    store: &mut Store<D>,
    root: &Root,
    dims: &Dims,
    modes: &ShipModes,
) -> Result<Option<Finding>, Fault>
    requires fine { has_failed store.old ≡ false }
    ensures answer { IfOk result
        (λ found. ForLaidWith D.Sectors store.old store.new root.now dims.now modes.now
        (λ w. (found ≡ None) ↔ All (IsSound w) w.cuboids)) }
    ensures refused { IsErrOf result BadLayout
        → ForLaidWith D.Sectors store.old store.new root.now dims.now modes.now (λ w. ⊥) }
    ensures reads { ReadsOnly D.Sectors store.old store.new result }
    ensures causes { IfErr result EndsReading }
{
    for cuboid in root.cuboids() {
        let sound = is_sound(alloc, store, root, dims, modes, *cuboid)?;
        if !sound {
            return Ok(Some(Finding::Cuboid { view: cuboid.view }));
        }
    }
    Ok(None)
}
