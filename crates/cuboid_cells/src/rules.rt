//! The rules of cells that are read one after the other.
ghost use Rattle.std.specs.Prelude.{◌≡◌, ◌+◌, ◌≤◌, ◌↔◌, IsTrue};
ghost use Rattle.cuboid_cells.specs.Cells.{IsCellOf, key_as_number};

use crate::cell::Cell;
use crate::key::Key;
use lattice::View;

// Whether a cell is one of a view, and the number of its key is not below that which is the least.
#[inline(always)]
pub(crate) fn may_follow(view: View, least: u128, cell: &Cell) -> bool
    ensures { IsTrue result ↔ (IsCellOf view cell.now × (least ≤ key_as_number cell.now.key)) }
{
    cell.is_of(view) && least <= cell.key.number()
}

// The least number that a key above this one can have.
#[inline(always)]
pub(crate) fn number_after(key: Key) -> u128
    ensures { result ≡ key_as_number key + 1 }
{
    key.number() + 1
}
