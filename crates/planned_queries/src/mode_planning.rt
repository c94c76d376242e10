//! The plan of a query that may look at ship modes.
ghost use Rattle.std.specs.Prelude.{◌≡◌, ◌≤◌, length, IfOk, IsOkUnless};
ghost use Rattle.cube_model.specs.declared.fault.Fault.TheVariants.{Memory};
ghost use Rattle.warehouse_objects.specs.Warehouse.{Warehouse};
ghost use Rattle.warehouse_objects.specs.Represents.{root_of};
ghost use Rattle.planned_queries.specs.Planned.{mark_of};
ghost use Rattle.planned_queries.specs.ModesPlanned.{ArePlansByModes, IsPlanByModes, ServesByModes};
ghost use Rattle.planned_queries.specs.ModesPlanned.{looks_at_modes, stored_for};

use crate::planning::stored_in;
use cube_model::Fault;
use mode_queries::ModeQuery;
use planner::{AccessPath, Priced, Stored, plan, plans};
use std::alloc::Global;
use warehouse_root::Root;

/// The plan that reads least of those that answer a query over the first `as_of` batches: a scan of their fact rows, or
/// the cells of a stored cuboid, which groups by ship mode where the query looks at it, and the fact rows of the
/// batches after its mark.
///
/// It can run out of memory.
pub fn mode_plan_of(
    alloc: Global,
    root: &Root,
    as_of: u32,
    asked: &ModeQuery,
) -> Result<AccessPath, Fault>
    requires { as_of ≤ length root.now.batches }
    ensures plan { IfOk result (λ plan. (w : Warehouse) → root.now ≡ root_of w → IsPlanByModes w as_of asked.now plan) }
    ensures serves { IfOk result (ServesByModes asked.now) }
    ensures in_time { IfOk result (λ plan. mark_of plan ≤ as_of) }
    ensures memory { IsOkUnless result Memory }
{
    let stored = stored_for(asked, stored_in(alloc, root)?);
    Ok(plan(&asked.query, stored.as_slice(), root.batches(), as_of))
}

/// Every plan that answers a query over the first `as_of` batches, each with how many cells and fact rows it reads. The
/// first is the one that `mode_plan_of` gives.
///
/// It can run out of memory.
pub fn mode_plans_of(
    alloc: Global,
    root: &Root,
    as_of: u32,
    asked: &ModeQuery,
) -> Result<Vec<Priced>, Fault>
    requires { as_of ≤ length root.now.batches }
    ensures plans { IfOk result (λ plans. (w : Warehouse) → root.now ≡ root_of w
        → ArePlansByModes w as_of asked.now plans.items) }
    ensures memory { IsOkUnless result Memory }
{
    let stored = stored_for(asked, stored_in(alloc, root)?);
    let batches = root.batches();
    Ok(plans(alloc, &asked.query, stored.as_slice(), batches, as_of)?)
}

// Of some stored cuboids, those whose cells have the ship modes that a query looks at.
fn stored_for(asked: &ModeQuery, stored: Vec<Stored>) -> Vec<Stored>
    ensures { result.items ≡ stored_for asked.now stored.items }
{
    let looks = looks_at_modes(asked);
    let mut stored = stored;
    stored.retain(|one| one.view.ship_mode || !looks);
    stored
}

// Whether a query looks at ship modes.
fn looks_at_modes(asked: &ModeQuery) -> bool
    ensures { result ≡ looks_at_modes asked.now }
{
    asked.place.is_some() || !asked.conditions.is_empty()
}
