//! The answer to a query over the first batches of a warehouse.
ghost use Rattle.std.specs.Prelude.{◌≡◌, ◌⊎◌, ◌<◌, ◌≤◌, Err, IfOk, IfErr, IsErrOf, OnOk};
ghost use Rattle.cube_model.specs.declared.fault.Fault.TheVariants.{BadQuery, NoSuchPrefix};
ghost use Rattle.cube_model.specs.Answers.{answer_as_of};
ghost use Rattle.cube_model.specs.Proper.{IsProper};
ghost use Rattle.warehouse.specs.Reads.{OnlyReads, RefusesQuery};
ghost use Rattle.warehouse.specs.Session.{ForItsWarehouse, IsAsked};

use crate::session::Session;
use cube_model::{Answer, Fault, ProperQuery, Query};
use planned_queries::{Found, groups_by_plan};
use sector_device::Sectors;
use std::alloc::Global;

impl<D: Sectors> Session<D> {
    /// The answer to a query over the first `as_of` batches.
    ///
    /// `BadQuery` exactly where the query is not proper, else `NoSuchPrefix` exactly where there are fewer batches. It
    /// can also fail when out of memory, and where the device fails.
    pub fn query(&mut self, alloc: Global, as_of: u32, query: &Query) -> Result<Answer, Fault>
        // It only reads: the warehouse stays as it is, at each moment, and after a failure nothing is done.
        ensures reads { OnlyReads D.Sectors (IsErrOf result) self.old self.new }

        // The answer is the definition's.
        ensures answer { IfOk result
            (λ found. ForItsWarehouse D.Sectors self.old self.new
            (λ w. IsAsked w as_of query.now × (found ≡ answer_as_of query.now as_of w.rows w.batches))) }

        // When each error comes.
        ensures refused { RefusesQuery D.Sectors (IsProper query.now) as_of (IsErrOf result) self.old self.new }
    {
        match self.query_groups(alloc, as_of, query) {
            Ok(found) => match found.answer(alloc) {
                Ok(answer) => Ok(answer),
                Err(_) => Err(Fault::Memory),
            },
            Err(fault) => Err(fault),
        }
    }

    /// The answer to a query over the first `as_of` batches, of whose lines none is made.
    ///
    /// It is refused as `query` is.
    pub fn query_groups(&mut self, alloc: Global, as_of: u32, query: &Query) -> Result<Found, Fault>
        // It only reads: the warehouse stays as it is, at each moment, and after a failure nothing is done.
        ensures reads { OnlyReads D.Sectors (IsErrOf result) self.old self.new }

        // The answer is the definition's.
        ensures answer { IfOk result
            (λ found. ForItsWarehouse D.Sectors self.old self.new
            (λ w. IsAsked w as_of query.now × (found ≡ answer_as_of query.now as_of w.rows w.batches))) }

        // When each error comes.
        ensures refused { RefusesQuery D.Sectors (IsProper query.now) as_of (IsErrOf result) self.old self.new }
    {
        if self.is_broken() {
            return Err(Fault::Failed);
        }
        let proper = match check(query, as_of, self.root.batches().len() as u32) {
            Ok(proper) => proper,
            Err(fault) => return Err(fault),
        };
        match groups_by_plan(
            alloc,
            &mut self.store,
            &self.root,
            &self.dims,
            &self.modes,
            as_of,
            &proper,
        ) {
            Ok(found) => Ok(found),
            Err(fault) => Err(fault),
        }
    }
}

/// A query as one that may be asked over the first of so many batches.
pub(crate) fn check<'a>(
    query: &'a Query,
    as_of: u32,
    batches: u32,
) -> Result<ProperQuery<'a>, Fault>
    ensures query { IfOk result (λ proper. proper ≡ query.now) }
    ensures ok { OnOk result (IsProper query.now × (as_of ≤ batches)) }
    ensures improper { (IsProper query.now → ⊥) → result ≡ Err BadQuery }
    ensures beyond { IsProper query.now → batches < as_of → result ≡ Err NoSuchPrefix }
    ensures causes { IfErr result (λ fault. ((fault ≡ BadQuery) × (IsProper query.now → ⊥))
        ⊎ ((fault ≡ NoSuchPrefix) × IsProper query.now × (batches < as_of))) }
{
    let proper = query.check()?;
    are_there(as_of, batches)?;
    Ok(proper)
}

// Says whether so many batches are there.
pub(crate) fn are_there(as_of: u32, batches: u32) -> Result<(), Fault>
    ensures there { OnOk result (as_of ≤ batches) }
    ensures beyond { IfErr result (λ fault. (fault ≡ NoSuchPrefix) × (batches < as_of)) }
{
    if as_of > batches {
        return Err(Fault::NoSuchPrefix);
    }
    Ok(())
}
