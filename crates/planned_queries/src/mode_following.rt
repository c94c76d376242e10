//! Folds by ship mode that begin with the cells of a plan.
ghost use Rattle.std.specs.Prelude.{◌≡◌, ◌≤◌, [], true, false, length, take, IfErr, IfOk, IsErrOf, OnOk};
ghost use Rattle.cube_model.specs.declared.fault.Fault.TheVariants.{BadLayout};
ghost use Rattle.cube_model.specs.Admission.{all_rows};
ghost use Rattle.mode_folds.specs.States.{IsOverByModes, RepresentsModeRows};
ghost use Rattle.object_store.specs.Store.{has_failed};
ghost use Rattle.planned_queries.specs.Planned.{IsOfCuboid, mark_of};
ghost use Rattle.planner.specs.declared.price.AccessPath.TheVariants as plans;
ghost use Rattle.warehouse_objects.specs.Reads.{EndsReading, ForHeldWith, ReadsOnly};
ghost use Rattle.planned_queries.specs.ModesCounted.{ServesWithModes};
ghost use Rattle.planned_queries.specs.ModesPlanned.{ServesByModes, looks_at_modes};

use crate::following::cuboid_of;
use cube_model::Fault;
use dimensions::Dims;
use lattice::View;
use mode_folds::ModeFold;
use object_store::Store;
use planner::AccessPath;
use sector_device::Sectors;
use std::alloc::Global;
use stored_cuboids::merged_runs;
use warehouse_objects::ShipModes;
use warehouse_root::Root;

/// Counts the cells of a plan into a fold that represents no row yet, of a query that looks at ship modes. It answers
/// how many of the first batches they hold: none of a scan.
///
/// `BadLayout` where the cuboid is not as the root says, and where the fold cannot take its cells.
pub(crate) fn begin_by_plan<D: Sectors>(
    alloc: Global,
    store: &mut Store<D>,
    root: &Root,
    dims: &Dims,
    modes: &ShipModes,
    fold: &mut ModeFold<'_>,
    plan: AccessPath,
) -> Result<u32, Fault>
    requires fine { has_failed store.old ≡ false }
    requires over { IsOverByModes dims.now fold.old }
    requires begun { RepresentsModeRows dims.now fold.old [] }
    requires serves { ServesByModes fold.old.asked plan }
    requires looks { looks_at_modes fold.old.asked ≡ true }
    requires few { mark_of plan ≤ length root.now.batches }

    // Then it represents the rows of these batches.
    ensures ok { OnOk result
        (ForHeldWith D.Sectors store.old store.new root.now dims.now modes.now
        (λ w. IsOfCuboid w plan → RepresentsModeRows dims.now fold.new (all_rows (take (mark_of plan) w.batches)))) }
    ensures from { IfOk result (λ from. from ≡ mark_of plan) }
    ensures over { IsOverByModes dims.now fold.new }
    ensures query { fold.new.asked ≡ fold.old.asked }
    ensures refused { IsErrOf result BadLayout
        → ForHeldWith D.Sectors store.old store.new root.now dims.now modes.now (λ w. IsOfCuboid w plan → ⊥) }

    // The content stays, at each moment.
    ensures reads { ReadsOnly D.Sectors store.old store.new result }
    ensures causes { IfErr result EndsReading }
{
    match plan {
        AccessPath::Scan => Ok(0),
        AccessPath::Cells { view, mark } => {
            add_cuboid(alloc, store, root, dims, modes, fold, view, mark)?;
            Ok(mark)
        }
    }
}

// Counts the cells of the stored cuboid of a view that groups by ship mode into a fold that represents no row yet. They
// hold so many of the first batches.
fn add_cuboid<D: Sectors>(
    alloc: Global,
    store: &mut Store<D>,
    root: &Root,
    dims: &Dims,
    modes: &ShipModes,
    fold: &mut ModeFold<'_>,
    view: View,
    mark: u32,
) -> Result<(), Fault>
    requires fine { has_failed store.old ≡ false }
    requires over { IsOverByModes dims.now fold.old }
    requires begun { RepresentsModeRows dims.now fold.old [] }
    requires serves { ServesWithModes fold.old.asked.query view }
    requires few { mark ≤ length root.now.batches }
    ensures ok { OnOk result
        (ForHeldWith D.Sectors store.old store.new root.now dims.now modes.now
        (λ w. IsOfCuboid w (plans.Cells view mark)
        → RepresentsModeRows dims.now fold.new (all_rows (take mark w.batches)))) }
    ensures over { IsOverByModes dims.now fold.new }
    ensures query { fold.new.asked ≡ fold.old.asked }
    ensures refused { IsErrOf result BadLayout
        → ForHeldWith D.Sectors store.old store.new root.now dims.now modes.now
        (λ w. IsOfCuboid w (plans.Cells view mark) → ⊥) }
    ensures reads { ReadsOnly D.Sectors store.old store.new result }
    ensures causes { IfErr result EndsReading }
{
    let Some(cuboid) = cuboid_of(root.cuboids(), view.index()) else {
        return Err(Fault::BadLayout);
    };
    let cells = merged_runs(alloc, store, cuboid)?;
    fold.add_cells(dims, &cells, modes.dictionary())
}
