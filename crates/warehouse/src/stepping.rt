//! Queries that run step by step.
ghost use Rattle.std.specs.Prelude.{◌≡◌, Some, IfOk, IsErrOf};
ghost use Rattle.cube_model.specs.declared.fault.Fault.{Fault};
ghost use Rattle.cube_model.specs.Proper.{IsProper};
ghost use Rattle.planned_queries.specs.Stepping.{Extends, IsRunning, RunningState, Started, Starts};
ghost use Rattle.warehouse.specs.Reads.{OnlyReads, RefusesQuery};
ghost use Rattle.warehouse.specs.Session.{ForItsWarehouse, IsAsked};
ghost use Rattle.warehouse.specs.Stepping.{StepsTo, refused_by};

use crate::querying::check;
use crate::session::Session;
use cube_model::{Answer, Fault, Query};
use planned_queries::Running;
use sector_device::Sectors;
use std::alloc::Global;

/// What a step of a running query comes to.
#[derive(Drop)]
pub enum Stepped {
    /// A batch was counted in, and the query runs on.
    More(Running),
    /// The answer. Every batch had been counted in.
    Done(Answer),
    /// The step was refused, and the query runs on as before.
    Refused(Running, Fault),
}

impl<D: Sectors> Session<D> {
    /// Starts a query over the first `as_of` batches. Its steps answer over these, whatever calls come between them. It
    /// reads the cells of its plan, and no batch.
    ///
    /// It is refused as `query` is.
    pub fn start(&mut self, alloc: Global, as_of: u32, query: &Query) -> Result<Running, Fault>
        // It only reads: the warehouse stays as it is, at each moment, and after a failure nothing is done.
        ensures reads { OnlyReads D.Sectors (IsErrOf result) self.old self.new }

        // The query runs over the batches of now.
        ensures started { IfOk result
            (λ running. ForItsWarehouse D.Sectors self.old self.new
            (λ w. IsAsked w as_of query.now × ((s : Started) × Starts w as_of query.now s × IsRunning running s))) }

        // When each error comes.
        ensures refused { RefusesQuery D.Sectors (IsProper query.now) as_of (IsErrOf result) self.old self.new }
    {
        if self.is_broken() {
            return Err(Fault::Failed);
        }
        let proper = match check(query, as_of, self.root.batches().len() as u32) {
            Ok(proper) => proper,
            Err(fault) => return Err(fault),
        };
        match Running::begin(
            alloc,
            &mut self.store,
            &self.root,
            &self.dims,
            &self.modes,
            as_of,
            &proper,
        ) {
            Ok(running) => Ok(running),
            Err(fault) => Err(fault),
        }
    }

    /// Goes on with a running query by one batch, or answers after the last one.
    ///
    /// It can run out of memory, and fail because the device does. The query of another session may be refused with
    /// `BadLayout`.
    pub fn step(&mut self, alloc: Global, mut running: Running) -> Stepped
        // It only reads: the warehouse stays as it is, at each moment, and after a failure nothing is done.
        ensures reads { OnlyReads D.Sectors (λ fault. refused_by result ≡ Some fault) self.old self.new }

        // A query that was started over batches that are still the first goes on by a step.
        ensures steps { ForItsWarehouse D.Sectors self.old self.new (λ w. (s : Started) → Extends s w
            → IsRunning running s → StepsTo s result) }

        // After a refusal the query is as it was.
        ensures back { (back : RunningState) (fault : Fault) → result ≡ Stepped.Refused back fault → back ≡ running }
    {
        if self.is_broken() {
            return Stepped::Refused(running, Fault::Failed);
        }
        match running.advance(alloc, &mut self.store, &self.root) {
            Ok(found) => match found {
                None => Stepped::More(running),
                Some(answer) => Stepped::Done(answer),
            },
            Err(fault) => Stepped::Refused(running, fault),
        }
    }
}
