//! In which order the columns of a dimension are stored.
ghost use Rattle.std.specs.Prelude.{◌≡◌};
ghost use Rattle.dimension_objects.specs.Spelled.{axis_number, linked_columns, row_columns, stored_columns};

use cube_model::Axis;

// The number of a dimension.
pub(crate) fn axis_number(axis: Axis) -> u32
    ensures { result ≡ axis_number axis }
{
    match axis {
        Axis::Customer => 0,
        Axis::Supplier => 1,
        Axis::Part => 2,
        Axis::Date => 3,
    }
}

// The columns in the order in which their texts are.
pub(crate) fn stored_columns(axis: Axis) -> &'static [usize]
    ensures { result.now ≡ stored_columns axis }
{
    match axis {
        Axis::Customer | Axis::Supplier | Axis::Part => &[0, 1, 2],
        Axis::Date => &[0, 2, 1, 3],
    }
}

// Those of them that a lower column determines.
pub(crate) fn linked_columns(axis: Axis) -> &'static [usize]
    ensures { result.now ≡ linked_columns axis }
{
    match axis {
        Axis::Customer | Axis::Supplier | Axis::Part => &[1, 2],
        Axis::Date => &[2, 1],
    }
}

// The others.
pub(crate) fn row_columns(axis: Axis) -> &'static [usize]
    ensures { result.now ≡ row_columns axis }
{
    match axis {
        Axis::Customer | Axis::Supplier | Axis::Part => &[0],
        Axis::Date => &[0, 3],
    }
}
