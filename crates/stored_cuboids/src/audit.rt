//! Whether stored cuboids are what they are to be.
ghost use Rattle.std.specs.Prelude.{◌≡◌, ◌<◌, ◌≤◌, ◌↔◌, Some, false, length, take, All, IfErr, IfOk, IsErrOf};
ghost use Rattle.std.specs.Prelude.{IsTrue};
ghost use Rattle.cube_model.specs.declared.fault.Fault.TheVariants.{BadLayout};
ghost use Rattle.cube_model.specs.Admission.{all_rows};
ghost use Rattle.object_store.specs.Store.{content_of, device_of, has_failed};
ghost use Rattle.cuboid_upkeep.specs.Grouping.{RepresentRows};
ghost use Rattle.warehouse_objects.specs.Warehouse.{Cuboid, Warehouse, cuboid_at, ship_modes_of};
ghost use Rattle.warehouse_objects.specs.Reads.{EndsReading, ForLaidWith, ReadsOnly};
ghost use Rattle.warehouse_objects.specs.Represents.{AreItsMembers, IsLaidOut, root_of, said_of};
ghost use Rattle.warehouse_root.specs.Layouts.{view_count};
ghost use Rattle.lattice.specs.Views.{index_of};
ghost use Rattle.stored_cuboids.specs.Merged.{IsSound};

use crate::batches::cells_of_batches;
use crate::runs::merged_runs;
use cube_model::Fault;
use cuboid_cells::{Cell, Cells, Span};
use dimensions::Dims;
use object_store::Store;
use sector_device::Sectors;
use std::alloc::Global;
use warehouse_objects::ShipModes;
use warehouse_root::{Root, StoredCuboid};

/// Whether each stored cuboid is the grouping of the batches up to its mark. Each is worked out anew from the fact rows
/// and compared, one at a time.
///
/// `BadLayout` where a batch is not as the root says. It can also run out of memory, or fail because the device does.
pub fn audited<D: Sectors>(
    alloc: Global,
    store: &mut Store<D>,
    root: &Root,
    dims: &Dims,
    modes: &ShipModes,
) -> Result<bool, Fault>
    requires fine { has_failed store.old ≡ false }
    ensures answer { IfOk result
        (λ yes. ForLaidWith D.Sectors store.old store.new root.now dims.now modes.now
        (λ w. IsTrue yes ↔ All (IsSound w) w.cuboids)) }
    ensures refused { IsErrOf result BadLayout
        → ForLaidWith D.Sectors store.old store.new root.now dims.now modes.now (λ w. ⊥) }

    // The content stays, at each moment.
    ensures reads { ReadsOnly D.Sectors store.old store.new result }
    ensures causes { IfErr result EndsReading }
{
    for cuboid in root.cuboids() {
        let sound = is_sound(alloc, store, root, dims, modes, *cuboid)?;
        if !sound {
            return Ok(false);
        }
    }
    Ok(true)
}

/// Whether a stored cuboid is the grouping of the batches up to its mark.
///
/// `BadLayout` where a batch is not as the root says. It can also run out of memory, or fail because the device does.
pub fn is_sound<D: Sectors>(
    alloc: Global,
    store: &mut Store<D>,
    root: &Root,
    dims: &Dims,
    modes: &ShipModes,
    cuboid: StoredCuboid,
) -> Result<bool, Fault>
    requires fine { has_failed store.old ≡ false }
    requires within { cuboid.mark ≤ length root.now.batches }
    ensures answer { IfOk result (λ yes. D.keeps_word (device_of store.new) → (w : Warehouse) (stored : Cuboid)
        → IsLaidOut (content_of D.Sectors store.old) w
        → root.now ≡ root_of w → AreItsMembers w dims.now modes.now → cuboid_at cuboid.view w.cuboids ≡ Some stored
        → said_of stored ≡ cuboid → IsTrue yes ↔ IsSound w stored) }
    ensures refused { IsErrOf result BadLayout → D.keeps_word (device_of store.new) → (w : Warehouse) (stored : Cuboid)
        → IsLaidOut (content_of D.Sectors store.old) w
        → root.now ≡ root_of w → AreItsMembers w dims.now modes.now → cuboid_at cuboid.view w.cuboids ≡ Some stored
        → said_of stored ≡ cuboid → ⊥ }
    ensures reads { ReadsOnly D.Sectors store.old store.new result }
    ensures causes { IfErr result EndsReading }
{
    match merged_runs(alloc, store, cuboid) {
        Ok(cells) => are_grouping(alloc, store, root, dims, modes, &cells, cuboid.mark),
        Err(Fault::BadLayout) => Ok(false),
        Err(fault) => Err(fault),
    }
}

// Whether cells are the grouping of so many of the first batches.
fn are_grouping<D: Sectors>(
    alloc: Global,
    store: &mut Store<D>,
    root: &Root,
    dims: &Dims,
    modes: &ShipModes,
    cells: &Cells,
    mark: u32,
) -> Result<bool, Fault>
    requires fine { has_failed store.old ≡ false }
    requires within { mark ≤ length root.now.batches }
    ensures answer { IfOk result
        (λ yes. ForLaidWith D.Sectors store.old store.new root.now dims.now modes.now
        (λ w. index_of cells.now.view < view_count w.layout → IsTrue yes
        ↔ RepresentRows w.rows (ship_modes_of w) (all_rows (take mark w.batches)) cells.now)) }
    ensures refused { IsErrOf result BadLayout
        → ForLaidWith D.Sectors store.old store.new root.now dims.now modes.now
        (λ w. index_of cells.now.view < view_count w.layout → ⊥) }
    ensures reads { ReadsOnly D.Sectors store.old store.new result }
    ensures causes { IfErr result EndsReading }
{
    let span = Span { from: 0, to: mark };
    match cells_of_batches(alloc, store, root, dims, modes, cells.view(), span) {
        Ok(own) => Ok(are_same(own.as_slice(), cells.as_slice())),
        Err(Fault::TooManyCells { .. }) => Ok(false),
        Err(fault) => Err(fault),
    }
}

// Whether cells are the same, one by one.
fn are_same(one: &[Cell], other: &[Cell]) -> bool
    ensures { IsTrue result ↔ (one.now ≡ other.now) }
{
    one == other
}
