//! The views, and which of them answer which.
ghost use Rattle.std.specs.Prelude.{◌≡◌, ◌↔◌, ◌≤◌, IsTrue, IfSome, IfNone, true, slice_get};
ghost use Rattle.lattice.specs.Views.{index_of, level_on, lattice, Answers, answers};

use crate::level::Level;
use cube_model::Axis;

/// How many views the lattice over the four axes has: four levels of each.
pub(crate) const VIEWS_OF_FOUR_AXES: u16 = 256;

/// How many views the lattice has that takes ship mode for a fifth axis.
pub(crate) const VIEWS_OF_FIVE_AXES: u16 = 512;

/// A view: the fact rows grouped by one level of each axis, and by their ship mode or not.
#[derive(Clone, Copy, PartialEq, Eq)]
pub struct View {
    pub customer: Level,
    pub supplier: Level,
    pub part: Level,
    pub date: Level,
    /// Whether it groups by ship mode. Only the lattice with ship mode has such views.
    pub ship_mode: bool,
}

impl View {
    /// The view of a number: those of the four axes are below 256, those that group by ship mode below 512.
    pub fn new(index: u16) -> Option<View>
        ensures place { result ≡ slice_get (lattice true) index }
        ensures found { IfSome result (λ view. index_of view ≡ index) }
        ensures none { IfNone result (512 ≤ index) }
    {
        if index >= VIEWS_OF_FIVE_AXES {
            return None;
        }
        Some(View {
            customer: Level::of_height(index / 64 % 4),
            supplier: Level::of_height(index / 16 % 4),
            part: Level::of_height(index / 4 % 4),
            date: Level::of_height(index % 4),
            ship_mode: index >= VIEWS_OF_FOUR_AXES,
        })
    }

    /// The number of the view, 0 to 511: the heights of its levels as digits of base four, customer first, and 256 more
    /// where it groups by ship mode.
    pub fn index(self) -> u16
        ensures { result ≡ index_of self }
    {
        let four_axes = 64 * self.customer.height()
            + 16 * self.supplier.height()
            + 4 * self.part.height()
            + self.date.height();
        if self.ship_mode {
            VIEWS_OF_FOUR_AXES + four_axes
        } else {
            four_axes
        }
    }

    /// The level of an axis by which the view groups.
    pub fn level(self, axis: Axis) -> Level
        ensures { result ≡ level_on axis self }
    {
        match axis {
            Axis::Customer => self.customer,
            Axis::Supplier => self.supplier,
            Axis::Part => self.part,
            Axis::Date => self.date,
        }
    }

    /// Whether the view answers another: it groups each axis as finely or finer, and by ship mode where the other does.
    pub fn answers(self, other: View) -> bool
        ensures test { result ≡ answers self other }
        ensures answers { IsTrue result ↔ Answers self other }
    {
        self.customer.is_at_most(other.customer)
            && self.supplier.is_at_most(other.supplier)
            && self.part.is_at_most(other.part)
            && self.date.is_at_most(other.date)
            && (self.ship_mode || !other.ship_mode)
    }
}
