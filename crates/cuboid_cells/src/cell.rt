//! A cell.
ghost use Rattle.std.specs.Prelude.{◌≡◌, ◌↔◌, None, IfSome, IsTrue};
ghost use Rattle.cuboid_cells.specs.Cells.{CellFits, IsCellOf};
ghost use Rattle.cuboid_cells.specs.Merges.{merged};

use crate::key::Key;
use crate::summary::Summaries;
use lattice::View;

/// What a view keeps of the fact rows that have one choice of members.
#[derive(Clone, Copy, PartialEq, Eq)]
pub struct Cell {
    pub key: Key,
    /// How many rows it groups.
    pub count: u64,
    pub measures: Summaries,
}

impl Cell {
    /// The cell of its rows and of other rows, whose cell has its key. Nothing where a number would exceed its type.
    #[inline(always)]
    pub fn merged(self, other: &Cell) -> Option<Cell>
        ensures some { IfSome result (λ both. both ≡ merged self other.now) }
        ensures fits { IfSome result CellFits }
        ensures refused { result ≡ None → CellFits (merged self other.now) → ⊥ }
    {
        let count = self.count.checked_add(other.count)?;
        let mut measures = self.measures;
        if !measures.merge_in(&other.measures) {
            return None;
        }
        Some(Cell {
            key: self.key,
            count,
            measures,
        })
    }

    // Whether it keeps the rules of a cell of a view.
    pub(crate) fn is_of(&self, view: View) -> bool
        ensures { IsTrue result ↔ IsCellOf view self.now }
    {
        self.key.is_of(view) && self.count >= 1
    }
}
