//! The cuboids that are stored.
ghost use Rattle.std.specs.Prelude.{◌↔◌, IsTrue};
ghost use Rattle.planner.specs.Plans.{ServesAsOf};

use cube_model::Query;
use lattice::View;

/// A stored cuboid: the cells of a view over the batches up to its mark.
#[derive(Clone, Copy, PartialEq, Eq)]
pub struct Stored {
    pub view: View,
    /// How many batches its cells group.
    pub mark: u32,
    /// How many cells are stored.
    pub cells: u32,
}

impl Stored {
    /// Whether the cuboid can serve a query over the first `as_of` batches: its cells group no later batch, and its
    /// view serves the query.
    pub fn serves(&self, query: &Query, as_of: u32) -> bool
        ensures { IsTrue result ↔ ServesAsOf query.now as_of self.now }
    {
        self.mark <= as_of && self.view.serves(query)
    }
}
