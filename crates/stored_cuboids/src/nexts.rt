//! The next run of a stored cuboid.
ghost use Rattle.std.specs.Prelude.{◌≡◌, ◌<◌, ◌≤◌, ◌++◌, ◌^◌, Some, List, false, length, take, IfErr, IfOk};
ghost use Rattle.std.specs.Prelude.{IsErrOf};
ghost use Rattle.cube_model.specs.declared.fault.Fault.TheVariants.{BadLayout, TooManyCells};
ghost use Rattle.cube_model.specs.declared.rows.LineOrder.{LineOrder};
ghost use Rattle.cube_model.specs.Admission.{AreInRange, all_rows};
ghost use Rattle.object_store.specs.Store.{content_of, device_of, has_failed};
ghost use Rattle.lattice.specs.Views.{index_of};
ghost use Rattle.cuboid_upkeep.specs.Grouping.{RepresentRows};
ghost use Rattle.cuboid_upkeep.specs.Steps.{HaveTooMany};
ghost use Rattle.warehouse_root.specs.Root.{IsProperCuboid};
ghost use Rattle.warehouse_objects.specs.Reads.{ReadsOnly};
ghost use Rattle.warehouse_objects.specs.Represents.{AreItsMembers, Represents, rows_in, said_of};
ghost use Rattle.warehouse_objects.specs.Warehouse.{Cuboid, Warehouse, cuboid_at, ship_modes_of};
ghost use Rattle.stored_cuboids.specs.Grouped.{EndsGrouping};
ghost use Rattle.stored_cuboids.specs.Keeping.{IsTooLarge};
ghost use Rattle.stored_cuboids.specs.Nexts.{HasStored, IsNextStep};

use crate::batches::cells_of_batches;
use crate::keeping::Next;
use crate::making::{appended, has_room, replaced};
use crate::runs::merged_runs;
use cube_model::Fault;
use cuboid_cells::{Cells, Span};
use dimensions::Dims;
use lattice::View;
use object_store::Store;
use sector_device::Sectors;
use std::alloc::Global;
use warehouse_objects::ShipModes;
use warehouse_root::{Root, StoredCuboid};

// What brings a cuboid of a view on to the target: the next run of it, with the cells of the batches after its mark.
//
// `TooManyCells` where the first batches, as many as the target says, have more than 262,144 cells in the view.
// `BadLayout` where the content is that of no warehouse. It can also fail when out of memory, or because the device
// does.
pub(crate) fn next_of<D: Sectors>(
    alloc: Global,
    store: &mut Store<D>,
    dims: &Dims,
    modes: &ShipModes,
    root: &Root,
    cuboid: StoredCuboid,
    view: View,
) -> Result<Next, Fault>
    requires fine { has_failed store.old ≡ false }
    requires proper { IsProperCuboid root.now.layout (length root.now.batches) cuboid }
    requires view { index_of view ≡ cuboid.view }
    requires after { cuboid.mark < root.now.target }
    requires within { root.now.target ≤ length root.now.batches }
    ensures ok { IfOk result
        (IsNextStep (λ w. D.keeps_word (device_of store.new) × Represents (content_of D.Sectors store.old) w
        × AreItsMembers w dims.now modes.now)
        root.now cuboid root.now.target) }
    ensures large { IsErrOf result (TooManyCells (index_of view)) → D.keeps_word (device_of store.new)
        → (w : Warehouse) (stored : Cuboid)
        → Represents (content_of D.Sectors store.old) w → HasStored root.now cuboid w stored
        → AreItsMembers w dims.now modes.now → IsTooLarge w view }
    ensures refused { IsErrOf result BadLayout → D.keeps_word (device_of store.new) → (w : Warehouse) (stored : Cuboid)
        → Represents (content_of D.Sectors store.old) w → HasStored root.now cuboid w stored
        → AreItsMembers w dims.now modes.now → ⊥ }

    // The content stays, at each moment.
    ensures reads { ReadsOnly D.Sectors store.old store.new result }
    ensures causes { IfErr result (EndsGrouping (index_of view)) }
{
    let span = Span {
        from: cuboid.mark,
        to: root.target(),
    };
    match cells_of_batches(alloc, store, root, dims, modes, view, span) {
        Ok(tail) => next_run(alloc, store, root, cuboid, &tail, span),
        Err(fault) => Err(fault),
    }
}

// The next run of a cuboid, from the cells of the batches of a span: put after the others, or in the place of all runs,
// merged with them, where there would be more than 8 runs or, before common keys are found, more than 262,144 cells.
fn next_run<D: Sectors>(
    alloc: Global,
    store: &mut Store<D>,
    root: &Root,
    cuboid: StoredCuboid,
    tail: &Cells,
    span: Span,
) -> Result<Next, Fault>
    requires fine { has_failed store.old ≡ false }
    requires proper { IsProperCuboid root.now.layout (length root.now.batches) cuboid }
    requires view { index_of tail.now.view ≡ cuboid.view }
    requires from { span.from ≡ cuboid.mark }
    requires some { span.from < span.to }
    requires to { span.to ≤ length root.now.batches }
    ensures ok { IfOk result
        (IsNextStep (λ w. D.keeps_word (device_of store.new) × Represents (content_of D.Sectors store.old) w
        × RepresentRows w.rows (ship_modes_of w) (rows_in w.batches span) tail.now) root.now cuboid span.to) }
    ensures large { IsErrOf result (TooManyCells (index_of tail.now.view)) → D.keeps_word (device_of store.new)
        → (w : Warehouse) (stored : Cuboid)
        → Represents (content_of D.Sectors store.old) w → HasStored root.now cuboid w stored
        → RepresentRows w.rows (ship_modes_of w) (rows_in w.batches span) tail.now
        → HaveTooMany w.rows (ship_modes_of w) tail.now.view (all_rows (take span.to w.batches)) }
    ensures refused { IsErrOf result BadLayout → D.keeps_word (device_of store.new) → (w : Warehouse) (stored : Cuboid)
        → Represents (content_of D.Sectors store.old) w → HasStored root.now cuboid w stored
        → RepresentRows w.rows (ship_modes_of w) (rows_in w.batches span) tail.now → ⊥ }
    ensures reads { ReadsOnly D.Sectors store.old store.new result }
    ensures causes { IfErr result (EndsGrouping (index_of tail.now.view)) }
{
    if has_room(cuboid, tail.as_slice().len()) {
        return appended(alloc, root, cuboid, tail, span);
    }
    match merged_with(alloc, store, cuboid, tail) {
        Ok(cells) => replaced(alloc, root, cuboid, &cells, span.to),
        Err(fault) => Err(fault),
    }
}

// The cells of a cuboid, merged with further ones of its view.
fn merged_with<D: Sectors>(
    alloc: Global,
    store: &mut Store<D>,
    cuboid: StoredCuboid,
    tail: &Cells,
) -> Result<Cells, Fault>
    requires fine { has_failed store.old ≡ false }
    requires view { index_of tail.now.view ≡ cuboid.view }
    ensures ok { IfOk result (λ cells. D.keeps_word (device_of store.new)
        → (w : Warehouse) (stored : Cuboid) (rows : List LineOrder)
        → Represents (content_of D.Sectors store.old) w → cuboid_at cuboid.view w.cuboids ≡ Some stored
        → said_of stored ≡ cuboid
        → RepresentRows w.rows (ship_modes_of w) rows tail.now
        → RepresentRows w.rows (ship_modes_of w) (all_rows (take cuboid.mark w.batches) ++ rows) cells) }
    ensures view { IfOk result (λ cells. cells.view ≡ tail.now.view) }
    ensures large { IsErrOf result (TooManyCells (index_of tail.now.view)) → D.keeps_word (device_of store.new)
        → (w : Warehouse) (stored : Cuboid) (rows : List LineOrder)
        → Represents (content_of D.Sectors store.old) w → cuboid_at cuboid.view w.cuboids ≡ Some stored
        → said_of stored ≡ cuboid
        → RepresentRows w.rows (ship_modes_of w) rows tail.now
        → HaveTooMany w.rows (ship_modes_of w) tail.now.view (all_rows (take cuboid.mark w.batches) ++ rows) }
    ensures refused { IsErrOf result BadLayout → D.keeps_word (device_of store.new)
        → (w : Warehouse) (stored : Cuboid) (rows : List LineOrder)
        → Represents (content_of D.Sectors store.old) w → cuboid_at cuboid.view w.cuboids ≡ Some stored
        → said_of stored ≡ cuboid
        → RepresentRows w.rows (ship_modes_of w) rows tail.now
        → AreInRange (all_rows (take cuboid.mark w.batches) ++ rows)
        → length (all_rows (take cuboid.mark w.batches) ++ rows) < 2 ^ 63 → ⊥ }
    ensures reads { ReadsOnly D.Sectors store.old store.new result }
    ensures causes { IfErr result (EndsGrouping (index_of tail.now.view)) }
{
    let mut cells = match merged_runs(alloc, store, cuboid) {
        Ok(cells) => cells,
        Err(fault) => return Err(fault),
    };
    match cells.merge(alloc, tail) {
        Ok(()) => Ok(cells),
        Err(fault) => Err(fault),
    }
}
