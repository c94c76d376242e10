//! Grouping the batches of a store by a view.
ghost use Rattle.std.specs.Prelude.{◌≡◌, ◌<◌, ◌≤◌, List, Some, false, length, slice_get, IfErr, IfOk, IsErrOf};
ghost use Rattle.std.specs.Prelude.{OnOk};
ghost use Rattle.cube_model.specs.declared.fault.Fault.TheVariants.{BadLayout, Device, TooManyCells};
ghost use Rattle.cube_model.specs.declared.rows.LineOrder.{LineOrder};
ghost use Rattle.cube_model.specs.Limits.{most_batch_rows, most_batches};
ghost use Rattle.object_store.specs.Store.{content_of, device_of, has_failed};
ghost use Rattle.lattice.specs.Views.{index_of};
ghost use Rattle.cuboid_upkeep.specs.Grouping.{RepresentRows};
ghost use Rattle.cuboid_upkeep.specs.Steps.{HaveTooMany};
ghost use Rattle.warehouse_objects.specs.Warehouse.{Warehouse, ship_modes_of};
ghost use Rattle.warehouse_objects.specs.Reads.{ForLaidWith, ReadsOnly};
ghost use Rattle.warehouse_objects.specs.Represents.{AreItsMembers, IsLaidOut, rows_in};
ghost use Rattle.warehouse_root.specs.Layouts.{view_count};
ghost use Rattle.cuboid_upkeep.specs.Growing.{GrowOver, grown};
ghost use Rattle.stored_cuboids.specs.Grouped.{EndsGrouping, GroupsBatch, GroupsMore, IsAddFaultOf, RepresentSomeRows};

use column_segment::Segment;
use cube_model::Fault;
use cube_query::RowsWithModes;
use cuboid_cells::{Cells, Span};
use cuboid_upkeep::GrowingCells;
use dimensions::Dims;
use lattice::View;
use object_store::Store;
use sector_device::Sectors;
use std::alloc::Global;
use warehouse_objects::{ShipModes, decoded_batch, read_object};
use warehouse_root::{Root, segment_id};

/// The cells of a view for the fact rows of some batches of a store. One batch is in memory at a time, and the cells.
///
/// `TooManyCells` where the rows have more than 262,144 cells. `BadLayout` where a batch has another number than its
/// place, or another count of rows than the root says, and where its rows have no cells. It can also fail when out of
/// memory, or because the device does.
pub fn cells_of_batches<D: Sectors>(
    alloc: Global,
    store: &mut Store<D>,
    root: &Root,
    dims: &Dims,
    modes: &ShipModes,
    view: View,
    span: Span,
) -> Result<Cells, Fault>
    requires fine { has_failed store.old ≡ false }
    requires order { span.from ≤ span.to }
    requires few { span.to ≤ length root.now.batches }

    // Then they represent the rows of these batches, whatever the stored cuboids hold.
    ensures ok { IfOk result (λ cells. D.keeps_word (device_of store.new) → (w : Warehouse)
        → IsLaidOut (content_of D.Sectors store.old) w
        → AreItsMembers w dims.now modes.now → RepresentRows w.rows (ship_modes_of w) (rows_in w.batches span) cells) }
    ensures view { IfOk result (λ cells. cells.view ≡ view) }
    ensures large { IsErrOf result (TooManyCells (index_of view))
        → ForLaidWith D.Sectors store.old store.new root.now dims.now modes.now
        (λ w. index_of view < view_count w.layout
        → HaveTooMany w.rows (ship_modes_of w) view (rows_in w.batches span)) }
    ensures refused { IsErrOf result BadLayout
        → ForLaidWith D.Sectors store.old store.new root.now dims.now modes.now
        (λ w. index_of view < view_count w.layout → ⊥) }

    // The content stays, at each moment.
    ensures reads { ReadsOnly D.Sectors store.old store.new result }
    ensures causes { IfErr result (EndsGrouping (index_of view)) }
{
    let batches = root.batches();
    let mut cells = GrowingCells::new(alloc, dims, view)?;
    for before in span.from..span.to {
        let count = batches[before as usize];
        add_batch(alloc, store, dims, modes, &mut cells, before, count)?;
    }
    cells.finish(alloc)
}

// Groups the rows of the batch after so many others into cells. There are to be so many rows.
fn add_batch<D: Sectors>(
    alloc: Global,
    store: &mut Store<D>,
    dims: &Dims,
    modes: &ShipModes,
    cells: &mut GrowingCells,
    before: u32,
    count: u32,
) -> Result<(), Fault>
    requires fine { has_failed store.old ≡ false }
    requires few { before < most_batches }
    requires some { RepresentSomeRows dims.now modes.now (grown cells.old) }
    requires over { GrowOver dims.now cells.old }
    ensures ok { OnOk result
        (GroupsBatch dims.now modes.now (grown cells.old) (grown cells.new) before (D.keeps_word (device_of store.new))
        (content_of D.Sectors store.old)) }
    ensures over { OnOk result (GrowOver dims.now cells.new) }
    ensures view { (grown cells.new).view ≡ (grown cells.old).view }
    ensures refused { IfErr result (λ fault. (fault ≡ Device → ⊥) → D.keeps_word (device_of store.new) → (w : Warehouse)
        → IsLaidOut (content_of D.Sectors store.old) w → (batch : List LineOrder)
        → slice_get w.batches before ≡ Some batch → count ≡ length batch
        → IsAddFaultOf dims.now modes.now (grown cells.old) batch fault) }
    ensures reads { ReadsOnly D.Sectors store.old store.new result }
    ensures causes { IfErr result (EndsGrouping (index_of (grown cells.old).view)) }
{
    let number = before + 1;
    let bytes = read_object(alloc, store, segment_id(number))?;
    let segment = decoded_batch(alloc, bytes, number, count)?;
    group_in(alloc, dims, modes, cells, &segment)
}

// Groups the rows of a batch into cells.
fn group_in(
    alloc: Global,
    dims: &Dims,
    modes: &ShipModes,
    cells: &mut GrowingCells,
    segment: &Segment,
) -> Result<(), Fault>
    requires over { GrowOver dims.now cells.old }
    requires few { length segment.now.rows ≤ most_batch_rows }
    ensures ok { OnOk result (GroupsMore dims.now modes.now (grown cells.old) segment.now.rows (grown cells.new)) }
    ensures over { OnOk result (GrowOver dims.now cells.new) }
    ensures view { (grown cells.new).view ≡ (grown cells.old).view }
    ensures refused { IfErr result (IsAddFaultOf dims.now modes.now (grown cells.old) segment.now.rows) }
{
    let rows = RowsWithModes::of(segment);
    cells.add_rows(alloc, dims, &rows, Some(modes.dictionary()))
}
