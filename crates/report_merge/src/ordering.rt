//! The lines of an answer in the order that a query asks for.
ghost use Rattle.std.specs.Prelude.{◌≡◌, None, pos, slice_index_or};
ghost use Rattle.std.specs.Option.{option_map};
ghost use Rattle.cube_model.specs.declared.answer.Member.TheVariants.{All};
ghost use Rattle.cube_model.specs.declared.answer.Value.TheVariants.{Whole};
ghost use Rattle.cube_model.specs.Ascending.{IsAscending, ascending};
ghost use Rattle.cube_model.specs.Keys.{member_cmp};
ghost use Rattle.cube_model.specs.Orders.{answer_cmp, in_order, line_cmp, value_cmp};
ghost use Rattle.report_formats.specs.Sorting.{text_member};

use cube_model::{Items, Line, Member, Order, Value};
use std::cmp::Ordering;

/// Lines in the order that a query asks for. They come in the order of their keys.
pub(crate) fn in_order(order: Option<Order>, lines: Items<Line>) -> Items<Line>
    requires { IsAscending (answer_cmp None) lines }
    ensures { result ≡ in_order order lines }
{
    match order {
        None => lines,
        Some(order) => sorted(order, lines),
    }
}

// Lines by a column, then falling by an aggregate, then by their keys.
fn sorted(order: Order, lines: Items<Line>) -> Items<Line>
    requires { IsAscending (answer_cmp None) lines }
    ensures { result ≡ ascending (line_cmp order) lines }
{
    let mut lines = lines.into_vec();
    lines.sort_unstable_by(|left, right| compare_lines(order, left, right));
    Items::from_vec(lines)
}

// Compares lines by an order.
fn compare_lines(order: Order, left: &Line, right: &Line) -> Ordering
    ensures { result ≡ line_cmp order left.now right.now }
{
    let members = compare_members(text_at(left, order.column), text_at(right, order.column));
    let values = compare_values(
        value_at(right, order.aggregate),
        value_at(left, order.aggregate),
    );
    members.then(values).then(left.key.cmp(&right.key))
}

// Compares members: none is ALL.
fn compare_members(left: Option<&[u8]>, right: Option<&[u8]>) -> Ordering
    ensures { result ≡ member_cmp (text_member (option_map (λ text. text.now) left.entry))
        (text_member (option_map (λ text. text.now) right.entry)) }
{
    match (left, right) {
        (Some(left), Some(right)) => left.cmp(&right),
        (Some(_), None) => Ordering::Less,
        (None, Some(_)) => Ordering::Greater,
        (None, None) => Ordering::Equal,
    }
}

// The text of a line in a column: none for ALL.
fn text_at(line: &Line, column: usize) -> Option<&[u8]>
    ensures { text_member (option_map (λ text. text.now) result) ≡ slice_index_or line.now.key column All }
{
    match line.key.as_slice().get(column) {
        Some(Member::Text(text)) => Some(text.as_slice()),
        _ => None,
    }
}

// The value of a line of an aggregate, and 0 where it has none.
fn value_at(line: &Line, aggregate: usize) -> Value
    ensures { result ≡ slice_index_or line.now.values aggregate (Whole (pos 0)) }
{
    match line.values.as_slice().get(aggregate) {
        Some(value) => *value,
        None => Value::Whole(0),
    }
}

// Compares values: whole ones by size.
fn compare_values(left: Value, right: Value) -> Ordering
    ensures { result ≡ value_cmp left right }
{
    match (left, right) {
        (Value::Whole(left), Value::Whole(right)) => left.cmp(&right),
        (Value::Whole(_), Value::Ratio(_)) => Ordering::Less,
        (Value::Ratio(_), Value::Whole(_)) => Ordering::Greater,
        (Value::Ratio(_), Value::Ratio(_)) => Ordering::Equal,
    }
}
