//! The runs of a stored cuboid, merged.
ghost use Rattle.std.specs.Prelude.{◌≡◌, ◌⊎◌, Some, false, take, IfErr, IfOk, IsErrOf, OnOk};
ghost use Rattle.cube_model.specs.declared.fault.Fault.TheVariants.{BadLayout, Memory};
ghost use Rattle.cube_model.specs.Admission.{all_rows};
ghost use Rattle.object_store.specs.Store.{content_of, device_of, has_failed};
ghost use Rattle.lattice.specs.Views.{index_of};
ghost use Rattle.cuboid_cells.specs.Merges.{IsMergeOf};
ghost use Rattle.cuboid_cells.specs.Cells.{AreProperCells, PlainCells};
ghost use Rattle.cuboid_upkeep.specs.Grouping.{RepresentRows};
ghost use Rattle.warehouse_objects.specs.Warehouse.{Cuboid, Warehouse, cuboid_at, ship_modes_of};
ghost use Rattle.warehouse_objects.specs.Reads.{EndsReading, ReadsOnly};
ghost use Rattle.warehouse_objects.specs.Represents.{IsLaidOut, Represents, said_of};
ghost use Rattle.stored_cuboids.specs.Merged.{HasMerge, IsSound};
ghost use Rattle.stored_cuboids.specs.Steps.{MergesRun};
ghost use Rattle.stored_cuboids.specs.declared.reading.Progress.{Progress};

use crate::reading::{Progress, read_next};
use cube_model::Fault;
use cuboid_cells::Cells;
use lattice::View;
use object_store::Store;
use sector_device::Sectors;
use std::alloc::Global;
use warehouse_root::{StoredCuboid, run_id};

/// The cells of a stored cuboid: its runs, merged one after another. One run is in memory at a time, and the cells.
///
/// `BadLayout` where a run is missing or is none of this view, where the runs do not follow each other from the first
/// batch to the mark or have another count of cells than the root says, and where a number of the merge would exceed
/// its type or the merge the cells that a cuboid can have. It can also run out of memory, or fail because the device
/// does.
pub fn merged_runs<D: Sectors>(
    alloc: Global,
    store: &mut Store<D>,
    cuboid: StoredCuboid,
) -> Result<Cells, Fault>
    requires fine { has_failed store.old ≡ false }
    ensures ok { IfOk result (λ cells. D.keeps_word (device_of store.new) → (w : Warehouse) (stored : Cuboid)
        → IsLaidOut (content_of D.Sectors store.old) w
        → cuboid_at cuboid.view w.cuboids ≡ Some stored → said_of stored ≡ cuboid → HasMerge stored cells) }
    ensures view { IfOk result (λ cells. index_of cells.view ≡ cuboid.view) }

    // Then they are the grouping of the batches up to the mark.
    ensures grouping { IfOk result (λ cells. D.keeps_word (device_of store.new) → (w : Warehouse) (stored : Cuboid)
        → Represents (content_of D.Sectors store.old) w
        → cuboid_at cuboid.view w.cuboids ≡ Some stored → said_of stored ≡ cuboid
        → RepresentRows w.rows (ship_modes_of w) (all_rows (take cuboid.mark w.batches)) cells) }
    ensures unsound { IsErrOf result BadLayout → D.keeps_word (device_of store.new) → (w : Warehouse) (stored : Cuboid)
        → IsLaidOut (content_of D.Sectors store.old) w
        → cuboid_at cuboid.view w.cuboids ≡ Some stored → said_of stored ≡ cuboid → IsSound w stored → ⊥ }
    ensures refused { IsErrOf result BadLayout → D.keeps_word (device_of store.new) → (w : Warehouse) (stored : Cuboid)
        → Represents (content_of D.Sectors store.old) w
        → cuboid_at cuboid.view w.cuboids ≡ Some stored → said_of stored ≡ cuboid → ⊥ }

    // The content stays, at each moment.
    ensures reads { ReadsOnly D.Sectors store.old store.new result }
    ensures causes { IfErr result EndsReading }
{
    let Some(view) = View::new(cuboid.view) else {
        return Err(Fault::BadLayout);
    };
    merge_all(alloc, store, cuboid, view)
}

// The cells of a stored cuboid, whose view this is.
fn merge_all<D: Sectors>(
    alloc: Global,
    store: &mut Store<D>,
    cuboid: StoredCuboid,
    view: View,
) -> Result<Cells, Fault>
    requires fine { has_failed store.old ≡ false }
    requires view { index_of view ≡ cuboid.view }
    ensures ok { IfOk result (λ cells. D.keeps_word (device_of store.new) → (w : Warehouse) (stored : Cuboid)
        → IsLaidOut (content_of D.Sectors store.old) w
        → cuboid_at cuboid.view w.cuboids ≡ Some stored → said_of stored ≡ cuboid → HasMerge stored cells) }
    ensures view { IfOk result (λ cells. cells.view ≡ view) }
    ensures unsound { IsErrOf result BadLayout → D.keeps_word (device_of store.new) → (w : Warehouse) (stored : Cuboid)
        → IsLaidOut (content_of D.Sectors store.old) w
        → cuboid_at cuboid.view w.cuboids ≡ Some stored → said_of stored ≡ cuboid → IsSound w stored → ⊥ }
    ensures reads { ReadsOnly D.Sectors store.old store.new result }
    ensures causes { IfErr result EndsReading }
{
    let mut cells = Cells::empty(alloc, view);
    let mut at = Progress {
        end: 0,
        left: cuboid.cells,
    };
    for run in 0..cuboid.runs {
        at = merge_run(alloc, store, &mut cells, at, run_id(cuboid.view, run))?;
    }
    if !at.is_whole(cuboid) {
        return Err(Fault::BadLayout);
    }
    Ok(cells)
}

// Merges the run that an object has into the cells of those before it.
fn merge_run<D: Sectors>(
    alloc: Global,
    store: &mut Store<D>,
    cells: &mut Cells,
    at: Progress,
    id: u32,
) -> Result<Progress, Fault>
    requires fine { has_failed store.old ≡ false }
    ensures ok { IfOk result (λ next. D.keeps_word (device_of store.new)
        → MergesRun (content_of D.Sectors store.old) id cells.old at cells.new next) }
    ensures view { cells.new.view ≡ cells.old.view }
    ensures refused { IsErrOf result BadLayout → D.keeps_word (device_of store.new)
        → (new : PlainCells) (next : Progress)
        → MergesRun (content_of D.Sectors store.old) id cells.old at new next → ⊥ }
    ensures reads { ReadsOnly D.Sectors store.old store.new result }
    ensures causes { IfErr result EndsReading }
{
    let (read, next) = read_next(alloc, store, cells.view(), at, id)?;
    merge_in(alloc, cells, &read)?;
    Ok(next)
}

// Merges cells into others of their view. `BadLayout` where a number would exceed its type, or the cells would be too
// many.
fn merge_in(alloc: Global, cells: &mut Cells, read: &Cells) -> Result<(), Fault>
    requires view { read.now.view ≡ cells.old.view }
    ensures ok { OnOk result (IsMergeOf cells.old read.now cells.new) }
    ensures proper { OnOk result (AreProperCells cells.new) }
    ensures view { cells.new.view ≡ cells.old.view }
    ensures refused { IfErr result (λ fault. (fault ≡ Memory) ⊎ ((fault ≡ BadLayout)
        × ((new : PlainCells) → IsMergeOf cells.old read.now new → AreProperCells new → ⊥))) }
{
    match cells.merge(alloc, read) {
        Ok(()) => Ok(()),
        Err(Fault::BadLayout) => Err(Fault::BadLayout),
        Err(Fault::TooManyCells { .. }) => Err(Fault::BadLayout),
        Err(_) => Err(Fault::Memory),
    }
}
