//! Answers by plans, to queries that may look at ship modes.
ghost use Rattle.std.specs.Prelude.{◌≡◌, ◌≤◌, false, true, length, take, IfErr, IfOk, IsErrOf, OnOk};
ghost use Rattle.cube_model.specs.declared.fault.Fault.TheVariants.{BadLayout};
ghost use Rattle.cube_model.specs.Admission.{all_rows};
ghost use Rattle.mode_folds.specs.States.{BeginsByModes, IsOverByModes, RepresentsModeRows};
ghost use Rattle.object_store.specs.Store.{has_failed};
ghost use Rattle.warehouse_objects.specs.Reads.{EndsReading, ForHeldWith, HoldsNoWarehouse, ReadsOnly};
ghost use Rattle.planned_queries.specs.ModeAnswers.{moded_answer_as_of};
ghost use Rattle.planned_queries.specs.ModesPlanned.{looks_at_modes};

use crate::mode_batches::add_batches;
use crate::mode_following::begin_by_plan;
use crate::mode_found::FoundByModes;
use crate::mode_planning::mode_plan_of;
use cube_model::Fault;
use dimensions::Dims;
use mode_folds::ModeFold;
use mode_queries::{ModeQuery, ProperModeQuery};
use object_store::Store;
use sector_device::Sectors;
use std::alloc::Global;
use std::rc::Rc;
use warehouse_objects::ShipModes;
use warehouse_root::Root;

/// The answer to a proper query that looks at ship modes over the first `as_of` batches of a store, by the plan that
/// reads least.
///
/// `BadLayout` where a cuboid or a batch is not as the root says. It can also run out of memory, or fail because the
/// device does.
pub fn answer_by_plan<D: Sectors>(
    alloc: Global,
    store: &mut Store<D>,
    root: &Root,
    dims: &Rc<Dims>,
    modes: &ShipModes,
    as_of: u32,
    asked: ProperModeQuery<'_>,
) -> Result<FoundByModes, Fault>
    requires fine { has_failed store.old ≡ false }
    requires looks { looks_at_modes asked ≡ true }
    requires few { as_of ≤ length root.now.batches }

    // The answer is the definition's over the rows of these batches.
    ensures answer { IfOk result
        (λ found. ForHeldWith D.Sectors store.old store.new root.now dims.now.value modes.now
        (λ w. found ≡ moded_answer_as_of asked.entry as_of dims.now.value w.batches)) }
    ensures refused { IsErrOf result BadLayout
        → HoldsNoWarehouse D.Sectors store.old store.new root.now dims.now.value modes.now }

    // The content stays, at each moment.
    ensures reads { ReadsOnly D.Sectors store.old store.new result }
    ensures causes { IfErr result EndsReading }
{
    let rows: &Dims = dims;
    let query = asked.get();
    let mut fold = ModeFold::new(alloc, rows, asked.into_ref())?;
    fold_by_plan(alloc, store, root, rows, modes, &mut fold, as_of, query)?;
    let answered = fold.into_answered(rows)?;
    let dims = dims.clone()?;
    Ok(FoundByModes::of(dims, answered))
}

// Counts the first batches of a store into a fold of a query that represents no row yet, by the plan that reads least.
fn fold_by_plan<D: Sectors>(
    alloc: Global,
    store: &mut Store<D>,
    root: &Root,
    dims: &Dims,
    modes: &ShipModes,
    fold: &mut ModeFold<'_>,
    as_of: u32,
    asked: &ModeQuery,
) -> Result<(), Fault>
    requires fine { has_failed store.old ≡ false }
    requires over { IsOverByModes dims.now fold.old }
    requires begins { BeginsByModes dims.now asked.now fold.old }
    requires looks { looks_at_modes asked.now ≡ true }
    requires few { as_of ≤ length root.now.batches }
    ensures ok { OnOk result
        (ForHeldWith D.Sectors store.old store.new root.now dims.now modes.now
        (λ w. RepresentsModeRows dims.now fold.new (all_rows (take as_of w.batches)))) }
    ensures over { IsOverByModes dims.now fold.new }
    ensures query { OnOk result (fold.new.asked ≡ asked.now) }
    ensures refused { IsErrOf result BadLayout
        → HoldsNoWarehouse D.Sectors store.old store.new root.now dims.now modes.now }
    ensures reads { ReadsOnly D.Sectors store.old store.new result }
    ensures causes { IfErr result EndsReading }
{
    let plan = mode_plan_of(alloc, root, as_of, asked)?;
    let from = begin_by_plan(alloc, store, root, dims, modes, fold, plan)?;
    add_batches(alloc, store, root, dims, fold, &asked.query, from, as_of)
}
