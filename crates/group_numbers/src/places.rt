//! What the row at a place of a dimension says of conditions.
ghost use Rattle.std.specs.Prelude.{◌≡◌, ◌<◌};
ghost use Rattle.std.specs.List.{list_all, list_any};
ghost use Rattle.std.specs.Str.{bytes_eq};
ghost use Rattle.cube_model.specs.Attributes.{axis_of};
ghost use Rattle.cube_model.specs.Places.{row_count_of, text_at};
ghost use Rattle.cube_model.specs.Selection.{text_le};
ghost use Rattle.group_numbers.specs.Parts.{holds_at, is_same};

use cube_model::{Attr, Axis, Cond, Text};
use dimensions::Dims;

/// Whether two dimensions are one.
pub fn is_same(left: Axis, right: Axis) -> bool
    ensures { result ≡ is_same left right }
{
    matches!(
        (left, right),
        (Axis::Customer, Axis::Customer)
            | (Axis::Supplier, Axis::Supplier)
            | (Axis::Part, Axis::Part)
            | (Axis::Date, Axis::Date)
    )
}

/// The text of an attribute at a place.
pub fn text_at(dims: &Dims, attr: Attr, place: usize) -> &[u8]
    requires { place < row_count_of dims.now (axis_of attr) }
    ensures { result.now ≡ text_at dims.now attr place }
{
    dims.member(attr, dims.rank(attr, place))
}

fn is_at_most(left: &[u8], right: &[u8]) -> bool
    ensures { result ≡ text_le left.now right.now }
{
    left.cmp(&right).is_le()
}

fn is_one_of(text: &[u8], texts: &[Text]) -> bool
    ensures { result ≡ list_any (λ other. bytes_eq other text.now) texts.now }
{
    texts.iter().any(|other| other.as_slice() == text)
}

// Whether a condition holds at a place, as far as it is on the dimension.
fn holds_at(dims: &Dims, axis: Axis, place: usize, condition: &Cond) -> bool
    requires { place < row_count_of dims.now axis }
    ensures { result ≡ holds_at dims.now axis place condition.now }
{
    match condition {
        Cond::OneOf(attr, texts) => {
            if !is_same(attr.axis(), axis) {
                return true;
            }
            is_one_of(text_at(dims, *attr, place), texts.as_slice())
        }
        Cond::Between(attr, low, high) => {
            if !is_same(attr.axis(), axis) {
                return true;
            }
            let text = text_at(dims, *attr, place);
            is_at_most(low.as_slice(), text) && is_at_most(text, high.as_slice())
        }
        Cond::Quantity(_, _) | Cond::Discount(_, _) => true,
    }
}

/// Whether all conditions hold at a place, as far as they are on the dimension.
pub fn all_hold_at(dims: &Dims, axis: Axis, place: usize, conditions: &[Cond]) -> bool
    requires { place < row_count_of dims.now axis }
    ensures { result ≡ list_all (holds_at dims.now axis place) conditions.now }
{
    match conditions {
        [] => true,
        [condition, others @ ..] => {
            holds_at(dims, axis, place, condition) && all_hold_at(dims, axis, place, others)
        }
    }
}
