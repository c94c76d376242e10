//! How many members the levels have, and how many cells a view can have.
ghost use Rattle.std.specs.Prelude.{◌≡◌, ◌*◌, length, min, slice_get};
ghost use Rattle.lattice.specs.Sizes.{members_at, mode_count, size_of, lattice_of};

use crate::level::Level;
use crate::view::{VIEWS_OF_FIVE_AXES, VIEWS_OF_FOUR_AXES, View};

/// How many members the three levels of an axis have.
#[derive(Clone, Copy, PartialEq, Eq)]
pub struct LevelCounts {
    pub lowest: u32,
    pub middle: u32,
    pub highest: u32,
}

/// How many members the levels of the axes have. With a count of ship modes the lattice has ship mode as a fifth axis.
#[derive(Clone, Copy, PartialEq, Eq)]
pub struct Counts {
    pub customer: LevelCounts,
    pub supplier: LevelCounts,
    pub part: LevelCounts,
    pub date: LevelCounts,
    pub ship_modes: Option<u32>,
}

impl LevelCounts {
    /// How many members a level has; `All` is one.
    pub fn members(&self, level: Level) -> u32
        ensures { result ≡ members_at self.now level }
    {
        match level {
            Level::Lowest => self.lowest,
            Level::Middle => self.middle,
            Level::Highest => self.highest,
            Level::All => 1,
        }
    }
}

impl Counts {
    /// How many views the lattice of these counts has. They are those with the numbers below it.
    pub fn view_count(&self) -> u16
        ensures { result ≡ length (lattice_of self.now) }
    {
        if self.ship_modes.is_some() {
            VIEWS_OF_FIVE_AXES
        } else {
            VIEWS_OF_FOUR_AXES
        }
    }

    /// The view of a number in the lattice of these counts, if it has one.
    pub fn view(&self, index: u16) -> Option<View>
        ensures { result ≡ slice_get (lattice_of self.now) index }
    {
        if index < self.view_count() {
            View::new(index)
        } else {
            None
        }
    }

    // How many ship modes a view groups by, 1 where it does not.
    fn modes(&self, grouped: bool) -> u32
        ensures { result ≡ mode_count self.now.ship_modes grouped }
    {
        match (self.ship_modes, grouped) {
            (Some(count), true) => count,
            (Some(_), false) => 1,
            (None, _) => 1,
        }
    }
}

// The product of two numbers, cut at the rows.
fn cut_product(rows: u64, left: u32, right: u64) -> u64
    ensures { result ≡ min rows (left * right) }
{
    u64::from(left).saturating_mul(right).min(rows)
}

impl View {
    /// How many cells the view can have over so many fact rows: no more than the rows, and no more than the product of
    /// the members of its levels. Where the counts have no ship modes, the ship modes of the view count one.
    pub fn size(self, rows: u64, counts: &Counts) -> u64
        ensures { result ≡ size_of rows counts.now self }
    {
        let modes = u64::from(counts.modes(self.ship_mode));
        let date = cut_product(rows, counts.date.members(self.date), modes);
        let part = cut_product(rows, counts.part.members(self.part), date);
        let supplier = cut_product(rows, counts.supplier.members(self.supplier), part);
        cut_product(rows, counts.customer.members(self.customer), supplier)
    }
}
