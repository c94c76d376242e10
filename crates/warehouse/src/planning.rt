//! How a query is answered.
ghost use Rattle.std.specs.Prelude.{◌≡◌, ◌↔◌, true, IfOk, IsErrOf};
ghost use Rattle.cube_model.specs.declared.fault.Fault.TheVariants.{Device, Failed};
ghost use Rattle.cube_model.specs.Proper.{IsProper};
ghost use Rattle.planned_queries.specs.Planned.{ArePlansOf, IsPlanOf};
ghost use Rattle.warehouse.specs.Reads.{RefusesQuery};
ghost use Rattle.warehouse.specs.Session.{ForItsWarehouse, IsAsked, has_failed};

use crate::querying::check;
use crate::session::Session;
use cube_model::{Fault, Query};
use planned_queries::{plan_of, plans_of};
use planner::{AccessPath, Priced};
use sector_device::Sectors;
use std::alloc::Global;

impl<D: Sectors> Session<D> {
    /// How a query over the first `as_of` batches is answered: by the plan that reads least. It makes no device call.
    ///
    /// `BadQuery` exactly where the query is not proper, else `NoSuchPrefix` exactly where there are fewer batches. It
    /// can also run out of memory.
    pub fn plan(&self, alloc: Global, as_of: u32, query: &Query) -> Result<AccessPath, Fault>
        ensures plan { IfOk result
            (λ plan. ForItsWarehouse D.Sectors self.now self.now
            (λ w. IsAsked w as_of query.now × IsPlanOf w as_of query.now plan)) }

        // When each error comes.
        ensures refused { RefusesQuery D.Sectors (IsProper query.now) as_of (IsErrOf result) self.now self.now }
        ensures apart { IsErrOf result Device → ⊥ }
        ensures failed { IsErrOf result Failed ↔ (has_failed self.now ≡ true) }
    {
        if self.store.is_broken() {
            return Err(Fault::Failed);
        }
        if let Err(fault) = check(query, as_of, self.root.batches().len() as u32) {
            return Err(fault);
        }
        plan_of(alloc, &self.root, as_of, query)
    }

    /// Every plan by which a query over the first `as_of` batches could be answered, each with how many cells and fact
    /// rows it reads. The first is the one that `plan` gives. It makes no device call, and is refused as `plan` is.
    pub fn plans(&self, alloc: Global, as_of: u32, query: &Query) -> Result<Vec<Priced>, Fault>
        ensures plans { IfOk result
            (λ plans. ForItsWarehouse D.Sectors self.now self.now
            (λ w. IsAsked w as_of query.now × ArePlansOf w as_of query.now plans.items)) }

        // When each error comes.
        ensures refused { RefusesQuery D.Sectors (IsProper query.now) as_of (IsErrOf result) self.now self.now }
        ensures apart { IsErrOf result Device → ⊥ }
        ensures failed { IsErrOf result Failed ↔ (has_failed self.now ≡ true) }
    {
        if self.store.is_broken() {
            return Err(Fault::Failed);
        }
        if let Err(fault) = check(query, as_of, self.root.batches().len() as u32) {
            return Err(fault);
        }
        plans_of(alloc, &self.root, as_of, query)
    }
}
