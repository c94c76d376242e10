//! The plan of a query.
ghost use Rattle.std.specs.Prelude.{◌≡◌, ◌≤◌, length};
ghost use Rattle.planner.specs.declared.price.AccessPath.TheVariants as plans;
ghost use Rattle.planner.specs.Plans.{IsPlan, cells_cost, rows_between};

use crate::cost::{cells_cost, rows_between};
use crate::price::{AccessPath, Priced, better};
use crate::stored::Stored;
use cube_model::Query;

/// The plan that reads least of those that answer a query over the first `as_of` batches.
///
/// A scan reads the fact rows of all these batches. A stored cuboid that serves the query reads its cells, and the fact
/// rows of the batches after its mark. At a tie the scan is taken before a cuboid, and a cuboid before those of greater
/// index. It takes no memory.
pub fn plan(query: &Query, stored: &[Stored], batch_rows: &[u32], as_of: u32) -> AccessPath
    requires { as_of ≤ length batch_rows.now }
    ensures { IsPlan query.now stored.now batch_rows.now as_of result }
{
    let mut best = by_scan(batch_rows, as_of);
    for one in stored {
        if one.serves(query, as_of) {
            best = better(best, by_cells(batch_rows, one, as_of));
        }
    }
    best.plan
}

/// A scan of the first `as_of` batches.
pub(crate) fn by_scan(batch_rows: &[u32], as_of: u32) -> Priced
    requires { as_of ≤ length batch_rows.now }
    ensures { result ≡ record { plan = plans.Scan; cost = rows_between batch_rows.now 0 as_of } }
{
    Priced {
        plan: AccessPath::Scan,
        cost: rows_between(batch_rows, 0, as_of),
    }
}

/// The cells of a cuboid, and the batches after its mark up to `as_of`.
pub(crate) fn by_cells(batch_rows: &[u32], one: &Stored, as_of: u32) -> Priced
    requires order { one.now.mark ≤ as_of }
    requires known { as_of ≤ length batch_rows.now }
    ensures { result ≡ record {
      plan = plans.Cells one.now.view one.now.mark;
      cost = cells_cost batch_rows.now as_of one.now;
    } }
{
    Priced {
        plan: AccessPath::Cells {
            view: one.view,
            mark: one.mark,
        },
        cost: cells_cost(batch_rows, one, as_of),
    }
}
