//! Answers by plans.
ghost use Rattle.std.specs.Prelude.{◌≡◌, ◌≤◌, false, length, take, IfErr, IfOk, IsErrOf, OnOk};
ghost use Rattle.cube_model.specs.declared.fault.Fault.TheVariants.{BadLayout};
ghost use Rattle.cube_model.specs.Admission.{all_rows};
ghost use Rattle.cube_model.specs.Answers.{answer};
ghost use Rattle.cube_query.specs.Groups.{Begins, IsOver, RepresentsRows};
ghost use Rattle.object_store.specs.Store.{has_failed};
ghost use Rattle.warehouse_objects.specs.Reads.{EndsReading, ForHeldWith, HoldsNoWarehouse, ReadsOnly};
ghost use Rattle.planner.specs.declared.price.AccessPath.{AccessPath};
ghost use Rattle.planned_queries.specs.Planned.{IsPlanOf, mark_of};

use crate::following::begin_by_plan;
use crate::found::Found;
use crate::planning::plan_of;
use cube_model::{Fault, ProperQuery, Query};
use cube_query::Fold;
use dimensions::Dims;
use object_store::Store;
use sector_device::Sectors;
use std::alloc::Global;
use std::rc::Rc;
use warehouse_objects::{ShipModes, fold_batches};
use warehouse_root::Root;

/// The groups of the answer to a proper query over the first `as_of` batches of a store, by the plan that reads least.
///
/// `BadLayout` where a cuboid or a batch is not as the root says. It can also run out of memory, or fail because the
/// device does.
pub fn groups_by_plan<D: Sectors>(
    alloc: Global,
    store: &mut Store<D>,
    root: &Root,
    dims: &Rc<Dims>,
    modes: &ShipModes,
    as_of: u32,
    query: &ProperQuery<'_>,
) -> Result<Found, Fault>
    requires fine { has_failed store.old ≡ false }
    requires few { as_of ≤ length root.now.batches }

    // The answer is the definition's over the rows of these batches.
    ensures answer { IfOk result
        (λ found. ForHeldWith D.Sectors store.old store.new root.now dims.now.value modes.now
        (λ w. found ≡ answer query.now dims.now.value (all_rows (take as_of w.batches)))) }
    ensures refused { IsErrOf result BadLayout
        → HoldsNoWarehouse D.Sectors store.old store.new root.now dims.now.value modes.now }

    // The content stays, at each moment.
    ensures reads { ReadsOnly D.Sectors store.old store.new result }
    ensures causes { IfErr result EndsReading }
{
    let rows: &Dims = dims;
    let mut fold = Fold::new(alloc, rows, query)?;
    let query = query.get();
    fold_by_plan(alloc, store, root, rows, modes, &mut fold, as_of, query)?;
    Found::of(dims, fold)
}

// Counts the first batches of a store into a fold of a query that represents no row yet, by the plan that reads least.
fn fold_by_plan<D: Sectors>(
    alloc: Global,
    store: &mut Store<D>,
    root: &Root,
    dims: &Dims,
    modes: &ShipModes,
    fold: &mut Fold,
    as_of: u32,
    query: &Query,
) -> Result<(), Fault>
    requires fine { has_failed store.old ≡ false }
    requires begins { Begins dims.now query.now fold.old }
    requires few { as_of ≤ length root.now.batches }
    ensures ok { OnOk result
        (ForHeldWith D.Sectors store.old store.new root.now dims.now modes.now
        (λ w. RepresentsRows dims.now fold.new (all_rows (take as_of w.batches)))) }
    ensures over { IsOver dims.now fold.new }
    ensures query { fold.new.query ≡ query.now }
    ensures refused { IsErrOf result BadLayout
        → HoldsNoWarehouse D.Sectors store.old store.new root.now dims.now modes.now }
    ensures reads { ReadsOnly D.Sectors store.old store.new result }
    ensures causes { IfErr result EndsReading }
{
    let from = begin_fold(alloc, store, root, dims, modes, fold, as_of, query)?;
    fold_batches(alloc, store, root, dims, fold, from, as_of)?;
    Ok(())
}

/// Counts the cells of a query's plan into a fold of it that represents no row yet. It answers how many of the first
/// batches they hold.
pub(crate) fn begin_fold<D: Sectors>(
    alloc: Global,
    store: &mut Store<D>,
    root: &Root,
    dims: &Dims,
    modes: &ShipModes,
    fold: &mut Fold,
    as_of: u32,
    query: &Query,
) -> Result<u32, Fault>
    requires fine { has_failed store.old ≡ false }
    requires begins { Begins dims.now query.now fold.old }
    requires few { as_of ≤ length root.now.batches }
    ensures begun { IfOk result
        (λ done. ForHeldWith D.Sectors store.old store.new root.now dims.now modes.now
        (λ w. (plan : AccessPath) × IsPlanOf w as_of query.now plan × (done ≡ mark_of plan)
        × RepresentsRows dims.now fold.new (all_rows (take done w.batches)))) }
    ensures in_time { IfOk result (λ done. done ≤ as_of) }
    ensures over { IsOver dims.now fold.new }
    ensures query { fold.new.query ≡ query.now }
    ensures refused { IsErrOf result BadLayout
        → HoldsNoWarehouse D.Sectors store.old store.new root.now dims.now modes.now }
    ensures reads { ReadsOnly D.Sectors store.old store.new result }
    ensures causes { IfErr result EndsReading }
{
    let plan = plan_of(alloc, root, as_of, query)?;
    let done = begin_by_plan(alloc, store, root, dims, modes, fold, plan)?;
    Ok(done)
}
