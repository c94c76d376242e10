//! All plans of a query.
ghost use Rattle.std.specs.Prelude.{◌≡◌, ◌⊎◌, ◌↔◌, ◌≤◌, ◌<◌, length, IfOk, OnOk};
ghost use Rattle.std.specs.List.{Contains};
ghost use Rattle.planner.specs.Listed.{HasBetterFirst, HasCheapestFirst};
ghost use Rattle.planner.specs.Plans.{AnswersAt};

use crate::cheapest::{by_cells, by_scan};
use crate::price::Priced;
use crate::stored::Stored;
use cube_model::Query;
use std::alloc::{AllocError, Global};

/// Every plan that answers a query over the first `as_of` batches, each with what it reads. The first is the one to be
/// taken, that of `plan`.
pub fn plans(
    alloc: Global,
    query: &Query,
    stored: &[Stored],
    batch_rows: &[u32],
    as_of: u32,
) -> Result<Vec<Priced>, AllocError>
    requires { as_of ≤ length batch_rows.now }
    ensures each { IfOk result (λ plans. (one : Priced)
        → Contains plans.items one ↔ AnswersAt query.now stored.now batch_rows.now as_of one.plan one.cost) }
    ensures first { IfOk result (λ plans. HasCheapestFirst query.now stored.now batch_rows.now as_of plans.items) }
{
    let mut plans = Vec::new(alloc);
    plans.push(by_scan(batch_rows, as_of))?;
    for one in stored {
        if one.serves(query, as_of) {
            add(&mut plans, by_cells(batch_rows, one, as_of))?;
        }
    }
    Ok(plans)
}

// Adds a plan: before the others where it is to be taken before the first of them, else after them.
fn add(plans: &mut Vec<Priced>, other: Priced) -> Result<(), AllocError>
    requires some { 0 < length plans.old.items }
    ensures each { OnOk result ((one : Priced) → Contains plans.new.items one
        ↔ (Contains plans.old.items one ⊎ (one ≡ other))) }
    ensures first { OnOk result (HasBetterFirst plans.old.items other plans.new.items) }
{
    if other.comes_before(plans[0]) {
        plans.insert(0, other)?;
    } else {
        plans.push(other)?;
    }
    Ok(())
}
