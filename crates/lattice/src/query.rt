//! Which queries the cells of a view answer.
ghost use Rattle.std.specs.Prelude.{◌↔◌, ◌≡◌, IsTrue};
ghost use Rattle.std.specs.List.{AllByRecursion};
ghost use Rattle.lattice.specs.Determined.{highest_level, Determines, Decides, Serves};

use crate::level::Level;
use crate::view::View;
use cube_model::{Attr, Cond, Query};

// The highest level of its axis that determines an attribute. A month has no one week.
pub(crate) fn highest_level(attr: Attr) -> Level
    ensures { result ≡ highest_level attr }
{
    match attr {
        Attr::CustomerCity
        | Attr::SupplierCity
        | Attr::PartBrand1
        | Attr::DateKey
        | Attr::DateWeeknuminyear => Level::Lowest,
        Attr::CustomerNation
        | Attr::SupplierNation
        | Attr::PartCategory
        | Attr::DateYearmonthnum
        | Attr::DateYearmonth => Level::Middle,
        Attr::CustomerRegion | Attr::SupplierRegion | Attr::PartMfgr | Attr::DateYear => {
            Level::Highest
        }
    }
}

fn determines_all(view: View, columns: &[Attr]) -> bool
    ensures { IsTrue result ↔ AllByRecursion (Determines view) columns.now }
{
    match columns {
        [] => true,
        [column, rest @ ..] => view.determines(*column) && determines_all(view, rest),
    }
}

fn decides_all(view: View, conditions: &[Cond]) -> bool
    ensures { IsTrue result ↔ AllByRecursion (Decides view) conditions.now }
{
    match conditions {
        [] => true,
        [condition, rest @ ..] => view.decides(condition) && decides_all(view, rest),
    }
}

impl View {
    /// Whether the levels of the view determine an attribute.
    pub fn determines(self, attr: Attr) -> bool
        ensures { IsTrue result ↔ Determines self attr }
    {
        self.level(attr.axis()).is_at_most(highest_level(attr))
    }

    // Whether the cells of the view can say where a condition holds.
    fn decides(self, condition: &Cond) -> bool
        ensures { IsTrue result ↔ Decides self condition.now }
    {
        match condition {
            Cond::OneOf(attr, _) => self.determines(*attr),
            Cond::Between(attr, _, _) => self.determines(*attr),
            Cond::Quantity(_, _) => false,
            Cond::Discount(_, _) => false,
        }
    }

    /// Whether the cells of the view have what a query asks for: its levels determine every attribute of the columns
    /// and of the conditions, and no condition is on quantity or discount.
    pub fn serves(self, query: &Query) -> bool
        ensures { IsTrue result ↔ Serves self query.now }
    {
        determines_all(self, query.columns.as_slice())
            && decides_all(self, query.conditions.as_slice())
    }
}
