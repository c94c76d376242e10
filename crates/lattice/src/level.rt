//! The levels of an axis.
ghost use Rattle.std.specs.Prelude.{◌≡◌, ◌<◌, nat_le};
ghost use Rattle.lattice.specs.Levels.{height, level_attribute, level_name};

use cube_model::{Attr, Axis};

/// How coarse an axis is grouped: by the members of one of its three levels, or not at all.
///
/// Customers and suppliers have the levels city, nation and region, parts brand, category and manufacturer, dates day,
/// month and year.
#[derive(Clone, Copy, PartialEq, Eq)]
pub enum Level {
    /// City, brand or day.
    Lowest,
    /// Nation, category or month.
    Middle,
    /// Region, manufacturer or year.
    Highest,
    /// All members together: the axis is not grouped.
    All,
}

impl Level {
    /// How high the level is: 0 for the lowest, 3 for `All`.
    pub fn height(self) -> u16
        ensures { result ≡ height self }
    {
        match self {
            Level::Lowest => 0,
            Level::Middle => 1,
            Level::Highest => 2,
            Level::All => 3,
        }
    }

    /// Whether the level is the other one or is below it.
    pub fn is_at_most(self, other: Level) -> bool
        ensures { result ≡ nat_le (height self) (height other) }
    {
        self.height() <= other.height()
    }

    /// The name of the level on an axis.
    pub fn name(self, axis: Axis) -> &'static str
        ensures { result.now ≡ level_name axis self }
    {
        match (axis, self) {
            (Axis::Customer | Axis::Supplier, Level::Lowest) => "city",
            (Axis::Customer | Axis::Supplier, Level::Middle) => "nation",
            (Axis::Customer | Axis::Supplier, Level::Highest) => "region",
            (Axis::Part, Level::Lowest) => "brand1",
            (Axis::Part, Level::Middle) => "category",
            (Axis::Part, Level::Highest) => "mfgr",
            (Axis::Date, Level::Lowest) => "day",
            (Axis::Date, Level::Middle) => "month",
            (Axis::Date, Level::Highest) => "year",
            (_, Level::All) => "ALL",
        }
    }

    /// The attribute whose members the level has on an axis; `All` has none.
    pub fn attribute(self, axis: Axis) -> Option<Attr>
        ensures { result ≡ level_attribute axis self }
    {
        match (axis, self) {
            (Axis::Customer, Level::Lowest) => Some(Attr::CustomerCity),
            (Axis::Customer, Level::Middle) => Some(Attr::CustomerNation),
            (Axis::Customer, Level::Highest) => Some(Attr::CustomerRegion),
            (Axis::Supplier, Level::Lowest) => Some(Attr::SupplierCity),
            (Axis::Supplier, Level::Middle) => Some(Attr::SupplierNation),
            (Axis::Supplier, Level::Highest) => Some(Attr::SupplierRegion),
            (Axis::Part, Level::Lowest) => Some(Attr::PartBrand1),
            (Axis::Part, Level::Middle) => Some(Attr::PartCategory),
            (Axis::Part, Level::Highest) => Some(Attr::PartMfgr),
            (Axis::Date, Level::Lowest) => Some(Attr::DateKey),
            (Axis::Date, Level::Middle) => Some(Attr::DateYearmonthnum),
            (Axis::Date, Level::Highest) => Some(Attr::DateYear),
            (_, Level::All) => None,
        }
    }

    // The level whose height is the digit, of base four.
    pub(crate) fn of_height(digit: u16) -> Level
        ensures { digit < 4 → height result ≡ digit }
    {
        match digit {
            0 => Level::Lowest,
            1 => Level::Middle,
            2 => Level::Highest,
            _ => Level::All,
        }
    }
}
