//! A fold that begins with the cells of a plan.
ghost use Rattle.std.specs.Prelude.{◌≡◌, ◌==◌, [], false, take, IfErr, IfOk, IsErrOf, OnOk};
ghost use Rattle.std.specs.List.{find};
ghost use Rattle.cube_model.specs.declared.fault.Fault.TheVariants.{BadLayout};
ghost use Rattle.cube_model.specs.Admission.{all_rows};
ghost use Rattle.cube_query.specs.Groups.{IsOver, RepresentsRows};
ghost use Rattle.lattice.specs.Determined.{Serves};
ghost use Rattle.object_store.specs.Store.{has_failed};
ghost use Rattle.planner.specs.declared.price.AccessPath.TheVariants as plans;
ghost use Rattle.warehouse_objects.specs.Reads.{EndsReading, ForHeldWith, ReadsOnly};
ghost use Rattle.planned_queries.specs.Planned.{IsOfCuboid, ServesBy, mark_of};

use cube_model::Fault;
use cube_query::Fold;
use dimensions::Dims;
use lattice::View;
use object_store::Store;
use planner::AccessPath;
use sector_device::Sectors;
use std::alloc::Global;
use stored_cuboids::fold_runs;
use warehouse_objects::ShipModes;
use warehouse_root::{Root, StoredCuboid};

/// Counts the cells of a plan into a fold that represents no row yet. It answers how many of the first batches they
/// hold: none of a scan.
///
/// `BadLayout` where the cuboid is not as the root says, and where the fold cannot take its cells.
pub fn begin_by_plan<D: Sectors>(
    alloc: Global,
    store: &mut Store<D>,
    root: &Root,
    dims: &Dims,
    modes: &ShipModes,
    fold: &mut Fold,
    plan: AccessPath,
) -> Result<u32, Fault>
    requires fine { has_failed store.old ≡ false }
    requires begun { RepresentsRows dims.now fold.old [] }
    requires serves { ServesBy fold.old.query plan }

    // Then it represents the rows of these batches.
    ensures ok { OnOk result
        (ForHeldWith D.Sectors store.old store.new root.now dims.now modes.now
        (λ w. IsOfCuboid w plan → RepresentsRows dims.now fold.new (all_rows (take (mark_of plan) w.batches)))) }
    ensures from { IfOk result (λ from. from ≡ mark_of plan) }
    ensures over { IsOver dims.now fold.new }
    ensures query { fold.new.query ≡ fold.old.query }
    ensures refused { IsErrOf result BadLayout
        → ForHeldWith D.Sectors store.old store.new root.now dims.now modes.now (λ w. IsOfCuboid w plan → ⊥) }

    // The content stays, at each moment.
    ensures reads { ReadsOnly D.Sectors store.old store.new result }
    ensures causes { IfErr result EndsReading }
{
    match plan {
        AccessPath::Scan => Ok(0),
        AccessPath::Cells { view, mark } => {
            add_cuboid(alloc, store, root, dims, modes, fold, view, mark)?;
            Ok(mark)
        }
    }
}

// Counts the cells of the stored cuboid of a view into a fold that represents no row yet. They hold so many of the
// first batches.
fn add_cuboid<D: Sectors>(
    alloc: Global,
    store: &mut Store<D>,
    root: &Root,
    dims: &Dims,
    modes: &ShipModes,
    fold: &mut Fold,
    view: View,
    mark: u32,
) -> Result<(), Fault>
    requires fine { has_failed store.old ≡ false }
    requires begun { RepresentsRows dims.now fold.old [] }
    requires serves { Serves view fold.old.query }
    ensures ok { OnOk result
        (ForHeldWith D.Sectors store.old store.new root.now dims.now modes.now (λ w.
        IsOfCuboid w (plans.Cells view mark)
        → RepresentsRows dims.now fold.new (all_rows (take mark w.batches)))) }
    ensures over { IsOver dims.now fold.new }
    ensures query { fold.new.query ≡ fold.old.query }
    ensures refused { IsErrOf result BadLayout
        → ForHeldWith D.Sectors store.old store.new root.now dims.now modes.now
        (λ w. IsOfCuboid w (plans.Cells view mark) → ⊥) }
    ensures reads { ReadsOnly D.Sectors store.old store.new result }
    ensures causes { IfErr result EndsReading }
{
    let Some(cuboid) = cuboid_of(root.cuboids(), view.index()) else {
        return Err(Fault::BadLayout);
    };
    fold_runs(alloc, store, dims, modes, fold, cuboid, view)
}

/// The cuboid of the view of a number, if it is among these.
pub fn cuboid_of(cuboids: &[StoredCuboid], number: u16) -> Option<StoredCuboid>
    ensures { result ≡ find (λ cuboid. cuboid.view == number) cuboids.now }
{
    cuboids.iter().find(|cuboid| cuboid.view == number).copied()
}
