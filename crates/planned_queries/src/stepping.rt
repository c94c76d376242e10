//! A query that runs batch by batch.
ghost use Rattle.std.specs.Prelude.{◌≡◌, ◌≤◌, false, length, IfErr, IfOk, IsErrOf, OnErr};
ghost use Rattle.cube_model.specs.declared.fault.Fault.TheVariants.{BadLayout};
ghost use Rattle.object_store.specs.Store.{has_failed};
ghost use Rattle.warehouse_objects.specs.Reads.{EndsReading, ForHeldOfRoot, ForHeldWith, HoldsNoWarehouse, ReadsOnly};

use crate::answering::begin_fold;
use cube_model::{Answer, Fault, ProperQuery};
use cube_query::Fold;
use dimensions::Dims;
use object_store::Store;
use sector_device::Sectors;
use std::alloc::Global;
use std::marker::Model;
use std::rc::Rc;
use warehouse_objects::{ShipModes, fold_batch};
use warehouse_root::Root;

/// A query that runs, batch by batch. It shares the dimensions with the session that began it, and needs no more of it:
/// its answer is over the batches of its start, whatever is stored later.
pub struct Running {
    dims: Rc<Dims>,
    fold: Fold,
    done: u32,
    as_of: u32,
}

// Written out, so that a proof has one call to follow where a running query is let go.
impl Drop for Running {
    fn drop(self) {
        let Running {
            dims: _,
            fold: _,
            done: _,
            as_of: _,
        } = self;
    }
}

impl Model for Running {
    ghost use Rattle.std.specs.Prelude.{◌≤◌};
    ghost use Rattle.cube_query.specs.Groups.{IsOver};
    ghost use Rattle.planned_queries.specs.Stepping.{RunningState};

    ghost Value = { RunningState };

    ghost view = { λ running. record {
      rows = running.dims.value;
      fold = running.fold;
      done = running.done;
      as_of = running.as_of;
    } };

    ghost invariant = { λ running. IsOver running.dims.value running.fold × (running.done ≤ running.as_of) };
}

impl Running {
    ghost use Rattle.planned_queries.specs.Stepping.{Advances, Extends, IsRunning, Started, Starts};

    /// Starts a proper query over the first `as_of` batches of a store. All cells of the plan that reads least are
    /// counted, and no batch is read.
    ///
    /// `BadLayout` where a cuboid is not as the root says. It can also run out of memory, or fail because the device
    /// does.
    pub fn begin<D: Sectors>(
        alloc: Global,
        store: &mut Store<D>,
        root: &Root,
        dims: &Rc<Dims>,
        modes: &ShipModes,
        as_of: u32,
        query: &ProperQuery<'_>,
    ) -> Result<Running, Fault>
        requires fine { has_failed store.old ≡ false }
        requires few { as_of ≤ length root.now.batches }
        ensures begun { IfOk result
            (λ running. ForHeldWith D.Sectors store.old store.new root.now dims.now.value modes.now
            (λ w. (s : Started) × Starts w as_of query.now s × IsRunning running s)) }
        ensures refused { IsErrOf result BadLayout
            → HoldsNoWarehouse D.Sectors store.old store.new root.now dims.now.value modes.now }

        // The content stays, at each moment.
        ensures reads { ReadsOnly D.Sectors store.old store.new result }
        ensures causes { IfErr result EndsReading }
    {
        let rows: &Dims = dims;
        let mut fold = Fold::new(alloc, rows, query)?;
        let query = query.get();
        let done = begin_fold(alloc, store, root, rows, modes, &mut fold, as_of, query)?;
        let dims = dims.clone()?;
        Ok(Running {
            dims,
            fold,
            done,
            as_of,
        })
    }

    /// Counts the next batch in, or answers after the last one. A refusal leaves the running query as it was.
    ///
    /// It asks nothing of the store and its root: `BadLayout` says that the next batch is not there as the root says,
    /// or cannot be counted in.
    pub fn advance<D: Sectors>(
        &mut self,
        alloc: Global,
        store: &mut Store<D>,
        root: &Root,
    ) -> Result<Option<Answer>, Fault>
        requires fine { has_failed store.old ≡ false }

        // On a store that has what the query was started over, it goes on by a step.
        ensures steps { IfOk result
            (λ found. ForHeldOfRoot D.Sectors store.old store.new root.now (λ w. (s : Started) → Extends s w
            → IsRunning self.old s → Advances s self.new found)) }
        ensures err { OnErr result (self.new ≡ self.old) }
        ensures refused { IsErrOf result BadLayout
            → ForHeldOfRoot D.Sectors store.old store.new root.now (λ w. (s : Started) → Extends s w
            → IsRunning self.old s → ⊥) }

        // The content stays, at each moment.
        ensures reads { ReadsOnly D.Sectors store.old store.new result }
        ensures causes { IfErr result EndsReading }
    {
        if self.done >= self.as_of {
            let found = self.fold.finish(&self.dims)?;
            return Ok(Some(found));
        }
        let before = self.done;
        fold_batch(alloc, store, root, &self.dims, &mut self.fold, before)?;
        self.done = before + 1;
        Ok(None)
    }
}
