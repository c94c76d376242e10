//! The plan of a query.
ghost use Rattle.std.specs.Prelude.{◌≡◌, ◌≤◌, Some, length, IfOk, IsOkUnless};
ghost use Rattle.cube_model.specs.declared.fault.Fault.TheVariants.{Memory};
ghost use Rattle.warehouse_objects.specs.Warehouse.{Cuboid, Warehouse};
ghost use Rattle.warehouse_objects.specs.Represents.{root_of, said_of};
ghost use Rattle.planned_queries.specs.Planned.{ArePlansOf, IsPlanOf, ServesBy, mark_of, seen_of, stored_of};

use cube_model::{Fault, Query};
use lattice::View;
use planner::{AccessPath, Priced, Stored, plan, plans};
use std::alloc::{AllocError, Global};
use warehouse_root::{Root, StoredCuboid};

/// The plan that reads least of those that answer a query over the first `as_of` batches: a scan of their fact rows, or
/// the cells of a stored cuboid and the fact rows of the batches after its mark.
///
/// It can run out of memory.
pub fn plan_of(alloc: Global, root: &Root, as_of: u32, query: &Query) -> Result<AccessPath, Fault>
    requires { as_of ≤ length root.now.batches }
    ensures plan { IfOk result (λ plan. (w : Warehouse) → root.now ≡ root_of w → IsPlanOf w as_of query.now plan) }
    ensures serves { IfOk result (ServesBy query.now) }
    ensures in_time { IfOk result (λ plan. mark_of plan ≤ as_of) }
    ensures memory { IsOkUnless result Memory }
{
    let stored = stored_in(alloc, root)?;
    Ok(plan(query, stored.as_slice(), root.batches(), as_of))
}

/// Every plan that answers a query over the first `as_of` batches, each with how many cells and fact rows it reads. The
/// first is the one that `plan_of` gives.
///
/// It can run out of memory.
pub fn plans_of(alloc: Global, root: &Root, as_of: u32, query: &Query) -> Result<Vec<Priced>, Fault>
    requires { as_of ≤ length root.now.batches }
    ensures plans { IfOk result (λ plans. (w : Warehouse) → root.now ≡ root_of w
        → ArePlansOf w as_of query.now plans.items) }
    ensures memory { IsOkUnless result Memory }
{
    let stored = stored_in(alloc, root)?;
    let batches = root.batches();
    Ok(plans(alloc, query, stored.as_slice(), batches, as_of)?)
}

/// The stored cuboids of a root, as the planner looks at them. It can only fail when out of memory.
pub fn stored_in(alloc: Global, root: &Root) -> Result<Vec<Stored>, AllocError>
    ensures { IfOk result (λ stored. (w : Warehouse) → root.now ≡ root_of w → stored.items ≡ stored_of w) }
{
    let cuboids = root.cuboids();
    let mut stored = Vec::with_capacity(alloc, cuboids.len())?;
    for cuboid in cuboids {
        if let Some(seen) = seen_of(*cuboid) {
            stored.push(seen)?;
        }
    }
    Ok(stored)
}

// What the planner looks at of a cuboid. Nothing where its number is that of no view, as no root has it.
#[tactic(auto, using(lattice::proofs::LawsLemmas::indexes_name_views))]
fn seen_of(cuboid: StoredCuboid) -> Option<Stored>
    ensures { (stored : Cuboid) → cuboid ≡ said_of stored → result ≡ Some (seen_of stored) }
{
    let view = View::new(cuboid.view)?;
    Some(Stored {
        view,
        mark: cuboid.mark,
        cells: cuboid.cells,
    })
}
