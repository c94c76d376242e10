//! The partial report that is asked for.
ghost use Rattle.std.specs.Prelude.{◌≡◌, IfOk, IsOkUnless};
ghost use Rattle.partial_reports.specs.Partial.{part_asked};

use crate::head::Head;
use crate::partial::partial_query;
use cube_model::{Fault, Query};
use std::alloc::Global;

/// A partial report, and the query whose answer it has.
pub struct PartAsked {
    pub head: Head,
    /// The query to be answered: its answers are the partial answers to the query of the words.
    pub query: Query,
}

// Written out, so that a proof has one call to follow where one is let go.
impl Drop for PartAsked {
    fn drop(self) {
        let PartAsked { head: _, query: _ } = self;
    }
}

impl PartAsked {
    /// The partial report of a query, under a head that names the words of the query. It can only fail when out of
    /// memory.
    pub fn new(alloc: Global, head: Head, query: Query) -> Result<PartAsked, Fault>
        ensures ok { IfOk result (λ asked. asked ≡ part_asked head query) }
        ensures only { IsOkUnless result Fault.Memory }
    {
        let query = partial_query(alloc, query)?;
        Ok(PartAsked { head, query })
    }
}
