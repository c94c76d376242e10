//! The access paths of queries, and which of two is to be taken.
ghost use Rattle.std.specs.Prelude.{◌≡◌, ◌⊎◌, IsTrue};
ghost use Rattle.planner.specs.Plans.{rank, ComesFirst};

use lattice::View;

/// From what a query is answered: its plan.
#[derive(Clone, Copy, PartialEq, Eq)]
pub enum AccessPath {
    /// From the fact rows of all batches.
    Scan,
    /// From the stored cells of a view, which group the batches up to the mark, and the fact rows of the batches after
    /// it.
    Cells { view: View, mark: u32 },
}

/// A plan, and how many cells and fact rows it reads.
#[derive(Clone, Copy, PartialEq, Eq)]
pub struct Priced {
    pub plan: AccessPath,
    pub cost: u64,
}

impl AccessPath {
    // Which plan is taken of those of one cost: the scan first, then the cuboids by their numbers.
    fn rank(self) -> u16
        ensures { result ≡ rank self }
    {
        match self {
            AccessPath::Scan => 0,
            AccessPath::Cells { view, .. } => view.index() + 1,
        }
    }
}

impl Priced {
    // Whether the plan is to be taken before another.
    pub(crate) fn comes_before(self, other: Priced) -> bool
        ensures yes { IsTrue result → ComesFirst self other }
        ensures no { (IsTrue result → ⊥) → ComesFirst other self }
    {
        self.cost < other.cost || (self.cost == other.cost && self.plan.rank() < other.plan.rank())
    }
}

// The plan of the two that is to be taken.
pub(crate) fn better(best: Priced, other: Priced) -> Priced
    ensures one { (result ≡ best) ⊎ (result ≡ other) }
    ensures before_best { ComesFirst result best }
    ensures before_other { ComesFirst result other }
{
    if other.comes_before(best) {
        other
    } else {
        best
    }
}
