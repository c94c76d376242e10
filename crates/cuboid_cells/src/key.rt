//! The codes of a cell.
ghost use Rattle.std.specs.Prelude.{◌≡◌, ◌↔◌, IsTrue};
ghost use Rattle.lattice.specs.declared.level.Level.TheVariants as level;
ghost use Rattle.cuboid_cells.specs.Cells.{IsCodeAt, IsKeyOf, IsModeCode, KeyFits, key_as_number};

use crate::limits::ALL_CODE;
use lattice::{Level, View};

/// The codes of the members of a cell: those of the dictionaries, and 65,535 on an axis that its view does not group.
#[derive(Clone, Copy, PartialEq, Eq)]
pub struct Key {
    pub customer: u16,
    pub supplier: u16,
    pub part: u16,
    pub date: u16,
    pub ship_mode: u16,
}

impl Key {
    /// The codes as the digits of one number, the customer's first: keys ascend as their numbers do. Each code fits its
    /// field.
    pub fn number(self) -> u128
        ensures number { result ≡ key_as_number self }
        ensures fits { KeyFits self }
    {
        (((u128::from(self.customer) * 65_536 + u128::from(self.supplier)) * 65_536
            + u128::from(self.part))
            * 65_536
            + u128::from(self.date))
            * 65_536
            + u128::from(self.ship_mode)
    }

    // Whether it is a key of a view.
    pub(crate) fn is_of(self, view: View) -> bool
        ensures { IsTrue result ↔ IsKeyOf view self }
    {
        is_code_at(view.customer, self.customer)
            && is_code_at(view.supplier, self.supplier)
            && is_code_at(view.part, self.part)
            && is_code_at(view.date, self.date)
            && is_mode_code(view.ship_mode, self.ship_mode)
    }
}

// Whether the code is that of every member exactly at the level of all.
fn is_code_at(grouped: Level, code: u16) -> bool
    ensures { IsTrue result ↔ IsCodeAt grouped code }
{
    (code == ALL_CODE) == is_all(grouped)
}

fn is_all(grouped: Level) -> bool
    ensures { IsTrue result ↔ (grouped ≡ level.All) }
{
    matches!(grouped, Level::All)
}

// Whether the code is that of every ship mode exactly where they are not grouped.
fn is_mode_code(grouped: bool, code: u16) -> bool
    ensures { IsTrue result ↔ IsModeCode grouped code }
{
    (code == ALL_CODE) != grouped
}
