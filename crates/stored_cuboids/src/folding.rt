//! The runs of a stored cuboid, counted into a fold.
ghost use Rattle.std.specs.Prelude.{◌≡◌, [], List, Some, false, take, IfErr, IfOk, IsErrOf, OnOk};
ghost use Rattle.cube_model.specs.declared.fault.Fault.TheVariants.{BadLayout};
ghost use Rattle.cube_model.specs.declared.rows.LineOrder.{LineOrder};
ghost use Rattle.cube_model.specs.Admission.{all_rows};
ghost use Rattle.object_store.specs.Content.{bytes_of};
ghost use Rattle.object_store.specs.Store.{content_of, device_of, has_failed, size_in};
ghost use Rattle.lattice.specs.Determined.{Serves};
ghost use Rattle.lattice.specs.Views.{index_of};
ghost use Rattle.cuboid_cells.specs.Cells.{PlainCells};
ghost use Rattle.cuboid_cells.specs.Pieces.{AreLeft, size_of_run};
ghost use Rattle.cuboid_cells.specs.Steps.{cells_of};
ghost use Rattle.cuboid_cells.specs.declared.cell.Cell.{Cell};
ghost use Rattle.cuboid_upkeep.specs.Grouping.{RepresentRows};
ghost use Rattle.cube_query.specs.CellRuns.{TakesRun};
ghost use Rattle.cube_query.specs.Groups.{CanTake, IsOver, RepresentsRows};
ghost use Rattle.warehouse_objects.specs.Warehouse.{Cuboid, Warehouse, cuboid_at};
ghost use Rattle.warehouse_objects.specs.Reads.{EndsReading, ReadsOnly};
ghost use Rattle.warehouse_objects.specs.Represents.{AreItsMembers, Represents, said_of};
ghost use Rattle.stored_cuboids.specs.Counted.{CountsRun};
ghost use Rattle.stored_cuboids.specs.Steps.{IsNextRun};
ghost use Rattle.stored_cuboids.specs.declared.reading.Progress.{Progress};

use crate::reading::{Progress, open_next};
use cube_model::Fault;
use cube_query::Fold;
use cuboid_cells::RunReader;
use dimensions::Dims;
use lattice::View;
use object_store::Store;
use sector_device::Sectors;
use std::alloc::Global;
use warehouse_objects::ShipModes;
use warehouse_root::{StoredCuboid, run_id};

/// Counts the cells of the stored cuboid of a view into a fold that represents no row yet: its runs, one after another,
/// each piece by piece as it is read. Cells that have no rows that are selected are not all read.
///
/// `BadLayout` where a run is missing or its header is none of this view, where the runs do not follow each other from
/// the first batch to the mark or have another count of cells than the root says, and where a part that is read is none
/// of a run or the fold cannot take its cells. It can also run out of memory, or fail because the device does. After a
/// refusal the fold is to be dropped.
pub fn fold_runs<D: Sectors>(
    alloc: Global,
    store: &mut Store<D>,
    dims: &Dims,
    modes: &ShipModes,
    fold: &mut Fold,
    cuboid: StoredCuboid,
    view: View,
) -> Result<(), Fault>
    requires fine { has_failed store.old ≡ false }
    requires begun { RepresentsRows dims.now fold.old [] }
    requires serves { Serves view fold.old.query }
    requires view { index_of view ≡ cuboid.view }

    // Then it represents the rows of the batches up to the mark.
    ensures ok { OnOk result (D.keeps_word (device_of store.new) → (w : Warehouse) (stored : Cuboid)
        → Represents (content_of D.Sectors store.old) w
        → AreItsMembers w dims.now modes.now → cuboid_at cuboid.view w.cuboids ≡ Some stored → said_of stored ≡ cuboid
        → RepresentsRows dims.now fold.new (all_rows (take cuboid.mark w.batches))) }
    ensures over { IsOver dims.now fold.new }
    ensures query { fold.new.query ≡ fold.old.query }
    ensures refused { IsErrOf result BadLayout → D.keeps_word (device_of store.new) → (w : Warehouse) (stored : Cuboid)
        → Represents (content_of D.Sectors store.old) w
        → AreItsMembers w dims.now modes.now → cuboid_at cuboid.view w.cuboids ≡ Some stored → said_of stored ≡ cuboid
        → ⊥ }

    // The content stays, at each moment.
    ensures reads { ReadsOnly D.Sectors store.old store.new result }
    ensures causes { IfErr result EndsReading }
{
    let mut at = Progress {
        end: 0,
        left: cuboid.cells,
    };
    for run in 0..cuboid.runs {
        at = fold_run(
            alloc,
            store,
            dims,
            modes,
            fold,
            view,
            at,
            run_id(cuboid.view, run),
        )?;
    }
    if !at.is_whole(cuboid) {
        return Err(Fault::BadLayout);
    }
    Ok(())
}

// Counts the cells of the run of a view that an object has into a fold.
fn fold_run<D: Sectors>(
    alloc: Global,
    store: &mut Store<D>,
    dims: &Dims,
    modes: &ShipModes,
    fold: &mut Fold,
    view: View,
    at: Progress,
    id: u32,
) -> Result<Progress, Fault>
    requires fine { has_failed store.old ≡ false }
    requires over { IsOver dims.now fold.old }
    requires serves { Serves view fold.old.query }
    ensures ok { IfOk result (λ next. D.keeps_word (device_of store.new)
        → CountsRun (content_of D.Sectors store.old) id view at dims.now modes.now fold.old fold.new next) }
    ensures over { IsOver dims.now fold.new }
    ensures query { fold.new.query ≡ fold.old.query }
    ensures refused { IsErrOf result BadLayout → D.keeps_word (device_of store.new)
        → (cells : PlainCells) (next : Progress) (rows : List LineOrder)
        → IsNextRun (content_of D.Sectors store.old) id view at cells next → RepresentRows dims.now modes.now rows cells
        → CanTake dims.now fold.old rows → ⊥ }
    ensures reads { ReadsOnly D.Sectors store.old store.new result }
    ensures causes { IfErr result EndsReading }
{
    let (mut reader, next) = open_next(alloc, store, view, at, id)?;
    fold_cells(store, dims, modes, fold, &mut reader)?;
    Ok(next)
}

// Counts the cells of a run into a fold, as they are read.
fn fold_cells<D: Sectors>(
    store: &mut Store<D>,
    dims: &Dims,
    modes: &ShipModes,
    fold: &mut Fold,
    run: &mut RunReader,
) -> Result<(), Fault>
    requires fine { has_failed store.old ≡ false }
    requires over { IsOver dims.now fold.old }
    requires serves { Serves run.old.head.view fold.old.query }
    requires total { size_in store.old run.old.id ≡ Some (size_of_run run.old) }
    ensures ok { OnOk result (D.keeps_word (device_of store.new)
        → TakesRun dims.now modes.now (bytes_of (content_of D.Sectors store.old) run.old.id) run.old fold.old
        fold.new) }
    ensures over { IsOver dims.now fold.new }
    ensures query { fold.new.query ≡ fold.old.query }
    ensures refused { IsErrOf result BadLayout → D.keeps_word (device_of store.new)
        → (cells : List Cell) → AreLeft (bytes_of (content_of D.Sectors store.old) run.old.id) run.old cells
        → (rows : List LineOrder) → RepresentRows dims.now modes.now rows (cells_of run.old.head.view cells)
        → CanTake dims.now fold.old rows → ⊥ }
    ensures reads { ReadsOnly D.Sectors store.old store.new result }
    ensures causes { IfErr result EndsReading }
{
    fold.add_run(dims, store, run, Some(modes.dictionary()))
}
