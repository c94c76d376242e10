//! The running queries of a run.
ghost use Rattle.std.specs.Prelude.{◌≡◌, ◌<◌, None, Some, replicate, slice_index_or, slice_set, vec_len, IfOk};
ghost use Rattle.std.specs.Prelude.{IfSome, IsOkUnless};
ghost use Rattle.cube_model.specs.declared.fault.Fault.TheVariants.{Memory};

use cube_model::Fault;
use planned_queries::Running;
use std::alloc::Global;

/// How many queries run at once at most.
pub const MOST_RUNNING: usize = 16;

/// Running queries, each in a slot of its number.
#[derive(Drop)]
pub(crate) struct QuerySlots {
    pub(crate) queries: Vec<Option<Running>>,
    ghost many: { vec_len queries ≡ 16 },
}

impl QuerySlots {
    /// Sixteen empty slots. It can only fail when out of memory.
    pub(crate) fn new(alloc: Global) -> Result<QuerySlots, Fault>
        ensures ok { IfOk result (λ slots. slots.queries.items ≡ replicate 16 None) }
        ensures memory { IsOkUnless result Memory }
    {
        let mut queries = Vec::with_capacity(alloc, MOST_RUNNING)?;
        for _ in 0..MOST_RUNNING {
            queries.push(None)?;
        }
        Ok(QuerySlots { queries })
    }

    /// Takes the query out of a slot. There is none in an empty slot, and above the last slot.
    pub(crate) fn take(&mut self, slot: u8) -> Option<Running>
        ensures taken { result ≡ slice_index_or self.old.queries.items slot None }
        ensures within { IfSome result (λ _. slot < 16) }
        ensures empty { self.new.queries.items ≡ slice_set self.old.queries.items slot None }
    {
        if usize::from(slot) >= MOST_RUNNING {
            return None;
        }
        self.queries[usize::from(slot)].take()
    }

    /// Puts a query into a slot, in the place of what is there.
    pub(crate) fn put(&mut self, slot: u8, running: Running)
        requires within { slot < 16 }
        ensures { self.new.queries.items ≡ slice_set self.old.queries.items slot (Some running) }
    {
        self.queries[usize::from(slot)] = Some(running);
    }
}
