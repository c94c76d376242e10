//! Queries that look at ship modes, over the first batches of a warehouse.
ghost use Rattle.std.specs.Prelude.{◌≡◌, ◌⊎◌, ◌<◌, ◌≤◌, ◌↔◌, true, Err, IfOk, IfErr, IsErrOf, OnOk};
ghost use Rattle.cube_model.specs.declared.fault.Fault.TheVariants.{BadQuery, Device, Failed, NoSuchPrefix};
ghost use Rattle.planned_queries.specs.ModeAnswers.{moded_answer_as_of};
ghost use Rattle.planned_queries.specs.ModesPlanned.{ArePlansByModes, looks_at_modes};
ghost use Rattle.mode_queries.specs.Proper.{IsProperByModes};
ghost use Rattle.warehouse.specs.ByModes.{IsAskedByModes};
ghost use Rattle.warehouse.specs.Reads.{OnlyReads, RefusesQuery};
ghost use Rattle.warehouse.specs.Session.{ForItsWarehouse, has_failed};

use crate::querying::are_there;
use crate::session::Session;
use cube_model::Fault;
use mode_queries::{ModeQuery, ProperModeQuery};
use planned_queries::{FoundByModes, answer_by_plan, mode_plans_of};
use planner::Priced;
use sector_device::Sectors;
use std::alloc::Global;

impl<D: Sectors> Session<D> {
    /// The answer to a query that looks at ship modes, over the first `as_of` batches, of whose lines none is made.
    ///
    /// `BadQuery` exactly where the query is not proper, else `NoSuchPrefix` exactly where there are fewer batches. It
    /// can also fail when out of memory, and where the device fails.
    pub fn moded_groups(
        &mut self,
        alloc: Global,
        as_of: u32,
        asked: &ModeQuery,
    ) -> Result<FoundByModes, Fault>
        requires looks { looks_at_modes asked.now ≡ true }

        // It only reads: the warehouse stays as it is, at each moment, and after a failure nothing is done.
        ensures reads { OnlyReads D.Sectors (IsErrOf result) self.old self.new }

        // The answer is the definition's.
        ensures answer { IfOk result
            (λ found. ForItsWarehouse D.Sectors self.old self.new
            (λ w. IsAskedByModes w as_of asked.now × (found ≡ moded_answer_as_of asked.now as_of w.rows w.batches))) }

        // When each error comes.
        ensures refused { RefusesQuery D.Sectors (IsProperByModes asked.now) as_of (IsErrOf result) self.old self.new }
    {
        if self.is_broken() {
            return Err(Fault::Failed);
        }
        let proper = match check_by_modes(asked, as_of, self.root.batches().len() as u32) {
            Ok(proper) => proper,
            Err(fault) => return Err(fault),
        };
        match answer_by_plan(
            alloc,
            &mut self.store,
            &self.root,
            &self.dims,
            &self.modes,
            as_of,
            proper,
        ) {
            Ok(found) => Ok(found),
            Err(fault) => Err(fault),
        }
    }

    /// Every plan by which a query that may look at ship modes could be answered over the first `as_of` batches, each
    /// with how many cells and fact rows it reads. The first is the one that is taken. It makes no device call.
    ///
    /// `BadQuery` exactly where the query is not proper, else `NoSuchPrefix` exactly where there are fewer batches. It
    /// can also run out of memory.
    pub fn moded_plans(
        &self,
        alloc: Global,
        as_of: u32,
        asked: &ModeQuery,
    ) -> Result<Vec<Priced>, Fault>
        ensures plans { IfOk result
            (λ plans. ForItsWarehouse D.Sectors self.now self.now
            (λ w. IsAskedByModes w as_of asked.now × ArePlansByModes w as_of asked.now plans.items)) }

        // When each error comes.
        ensures refused { RefusesQuery D.Sectors (IsProperByModes asked.now) as_of (IsErrOf result) self.now self.now }
        ensures apart { IsErrOf result Device → ⊥ }
        ensures failed { IsErrOf result Failed ↔ (has_failed self.now ≡ true) }
    {
        if self.store.is_broken() {
            return Err(Fault::Failed);
        }
        if let Err(fault) = check_by_modes(asked, as_of, self.root.batches().len() as u32) {
            return Err(fault);
        }
        mode_plans_of(alloc, &self.root, as_of, asked)
    }
}

// A query as one that may be asked over the first of so many batches.
fn check_by_modes<'a>(
    asked: &'a ModeQuery,
    as_of: u32,
    batches: u32,
) -> Result<ProperModeQuery<'a>, Fault>
    ensures query { IfOk result (λ proper. proper ≡ asked.now) }
    ensures ok { OnOk result (IsProperByModes asked.now × (as_of ≤ batches)) }
    ensures improper { (IsProperByModes asked.now → ⊥) → result ≡ Err BadQuery }
    ensures beyond { IsProperByModes asked.now → batches < as_of → result ≡ Err NoSuchPrefix }
    ensures causes { IfErr result (λ fault. ((fault ≡ BadQuery) × (IsProperByModes asked.now → ⊥))
        ⊎ ((fault ≡ NoSuchPrefix) × IsProperByModes asked.now × (batches < as_of))) }
{
    let proper = asked.check()?;
    are_there(as_of, batches)?;
    Ok(proper)
}
