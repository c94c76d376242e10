//! A cuboid that is stored.
ghost use Rattle.std.specs.Prelude.{◌↔◌, IsTrue};

use crate::layout::Layout;
use crate::limits::{MOST_CELLS, MOST_RUNS};

/// What a root says of a cuboid.
#[derive(Clone, Copy, PartialEq, Eq)]
pub struct StoredCuboid {
    /// The number of its view, from 0.
    pub view: u16,
    /// How many runs of cells it has.
    pub runs: u16,
    /// How many of the first batches its runs hold.
    pub mark: u32,
    /// How many cells its runs have together.
    pub cells: u32,
}

impl StoredCuboid {
    ghost use Rattle.warehouse_root.specs.Root.{IsProperCuboid};

    /// Whether it keeps the rules of a cuboid over so many batches.
    pub fn is_proper(&self, layout: Layout, batches: u32) -> bool
        ensures { IsTrue result ↔ IsProperCuboid layout batches self.now }
    {
        self.view < layout.views()
            && self.mark <= batches
            && (self.runs == 0) == (self.mark == 0)
            && self.runs <= MOST_RUNS
            && self.cells <= MOST_CELLS
    }
}
