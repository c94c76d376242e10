//! The columns of the dimensions: which determines which, and where an attribute is.
ghost use Rattle.std.specs.Prelude.{◌≡◌, ◌<◌, ◌≤◌, ◌+◌, length};
ghost use Rattle.std.specs.Bool.{OnTrue, OnFalse};
ghost use Rattle.cube_model.specs.Limits.{most_dimension_rows};
ghost use Rattle.dimensions.specs.Shapes.{attr_column, lower_of, lowers_of, row_limit_of};

use cube_model::limits::{MOST_DAYS, MOST_DIMENSION_ROWS};
use cube_model::{Attr, Axis};

/// How many columns a dimension has at most.
pub const COLUMN_LIMIT: usize = 4;

/// How many rows a dimension may have.
pub fn row_limit(axis: Axis) -> usize
    ensures limit { result ≡ row_limit_of axis }
    ensures few { result ≤ most_dimension_rows }
{
    match axis {
        Axis::Customer | Axis::Supplier | Axis::Part => MOST_DIMENSION_ROWS,
        Axis::Date => MOST_DAYS,
    }
}

/// How many columns of texts a dimension has.
pub fn column_count(axis: Axis) -> usize
    ensures count { result ≡ length (lowers_of axis) }
    ensures few { result ≤ 4 }
{
    match axis {
        Axis::Customer | Axis::Supplier | Axis::Part => 3,
        Axis::Date => 4,
    }
}

/// The lower column whose texts determine those of a column. Nothing where only the row does.
pub fn lower_column(axis: Axis, column: usize) -> Option<usize>
    ensures { result ≡ lower_of axis column }
{
    match (axis, column) {
        (Axis::Date, 1 | 2) => Some(0),
        (Axis::Date, _) => None,
        (_, 1) => Some(0),
        (_, 2) => Some(1),
        (_, _) => None,
    }
}

/// The column of an attribute in its dimension. Nothing for a day's own attribute, which is its key.
pub fn column_of_attr(attr: Attr) -> Option<usize>
    ensures { result ≡ attr_column attr }
{
    match attr {
        Attr::CustomerCity | Attr::SupplierCity | Attr::PartBrand1 | Attr::DateYearmonthnum => {
            Some(0)
        }
        Attr::CustomerNation | Attr::SupplierNation | Attr::PartCategory | Attr::DateYear => {
            Some(1)
        }
        Attr::CustomerRegion | Attr::SupplierRegion | Attr::PartMfgr | Attr::DateYearmonth => {
            Some(2)
        }
        Attr::DateWeeknuminyear => Some(3),
        Attr::DateKey => None,
    }
}

/// Whether a dimension that has so many rows may have so many more.
pub fn has_room(axis: Axis, before: usize, more: usize) -> bool
    ensures room { OnTrue result (before + more ≤ row_limit_of axis) }
    ensures full { OnFalse result (row_limit_of axis < before + more) }
{
    let limit = row_limit(axis);
    before <= limit && more <= limit - before
}
