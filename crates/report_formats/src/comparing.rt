//! The places of lines by their lines. Each call takes any place: past the last line is one with no member and no
//! value.
ghost use Rattle.std.specs.Prelude.{◌≡◌, length};
ghost use Rattle.std.specs.Option.{option_map};
ghost use Rattle.std.specs.Ordering.{nat_cmp, ordering_then};
ghost use Rattle.cube_model.specs.Keys.{key_cmp, member_cmp};
ghost use Rattle.group_tallies.specs.GroupLines.{line_at};
ghost use Rattle.report_formats.specs.Arranging.{place_cmp};
ghost use Rattle.report_formats.specs.Sorting.{average_at, directed, line_member, sort_key_cmp, text_member, value_at};

use crate::arrangement::{SortKey, Sorting};
use crate::fractions::{compare_fractions, fraction_in, quotient};
use cube_model::{Fraction, Value};
use ssb_reports::Lines;
use std::cmp::Ordering;

/// Compares the places of two lines by the order that is asked for.
pub(crate) fn compare_places<L: Lines>(
    lines: &L,
    sorting: Sorting,
    left: usize,
    right: usize,
) -> Ordering
    ensures { result ≡ place_cmp sorting (L.lines lines.now) left right }
{
    match directed(
        sorting.descending,
        compare_by(lines, sorting.key, left, right),
    ) {
        Ordering::Equal => compare_tied(lines, left, right),
        order => order,
    }
}

// Compares lines that are equal by what they are sorted by.
fn compare_tied<L: Lines>(lines: &L, left: usize, right: usize) -> Ordering
    ensures { result
        ≡ ordering_then (key_cmp (line_at (L.lines lines.now) left).key (line_at (L.lines lines.now) right).key)
        (nat_cmp left right) }
{
    match compare_keys(lines, left, right) {
        Ordering::Equal => left.cmp(&right),
        order => order,
    }
}

fn directed(descending: bool, order: Ordering) -> Ordering
    ensures { result ≡ directed descending order }
{
    if descending { order.reverse() } else { order }
}

// Compares lines by what they are sorted by.
fn compare_by<L: Lines>(lines: &L, key: SortKey, left: usize, right: usize) -> Ordering
    ensures { result ≡ sort_key_cmp key (line_at (L.lines lines.now) left) (line_at (L.lines lines.now) right) }
{
    match key {
        SortKey::Column(column) => compare_members(
            text_at(lines, left, column),
            text_at(lines, right, column),
        ),
        SortKey::Aggregate(aggregate) => compare_fractions(
            fraction_in(value_at(lines, left, aggregate)),
            fraction_in(value_at(lines, right, aggregate)),
        ),
        SortKey::Average(sum, count) => compare_fractions(
            average_at(lines, left, sum, count),
            average_at(lines, right, sum, count),
        ),
    }
}

fn average_at<L: Lines>(lines: &L, place: usize, sum: usize, count: usize) -> Fraction
    ensures { result ≡ average_at (line_at (L.lines lines.now) place) sum count }
{
    quotient(value_at(lines, place, sum), value_at(lines, place, count))
}

// Compares the keys of lines, member by member.
fn compare_keys<L: Lines>(lines: &L, left: usize, right: usize) -> Ordering
    ensures { result ≡ key_cmp (line_at (L.lines lines.now) left).key (line_at (L.lines lines.now) right).key }
{
    let left_count = columns_at(lines, left);
    let right_count = columns_at(lines, right);
    for column in 0..left_count.min(right_count) {
        let order = compare_members(text_at(lines, left, column), text_at(lines, right, column));
        if order != Ordering::Equal {
            return order;
        }
    }
    left_count.cmp(&right_count)
}

// Compares members: none is ALL.
fn compare_members(left: Option<&[u8]>, right: Option<&[u8]>) -> Ordering
    ensures { result ≡ member_cmp (text_member (option_map (λ text. text.now) left.entry))
        (text_member (option_map (λ text. text.now) right.entry)) }
{
    match (left, right) {
        (Some(left), Some(right)) => left.cmp(&right),
        (Some(_), None) => Ordering::Less,
        (None, Some(_)) => Ordering::Greater,
        (None, None) => Ordering::Equal,
    }
}

// The text of a line in a column: none for ALL.
fn text_at<L: Lines>(lines: &L, place: usize, column: usize) -> Option<&[u8]>
    ensures { text_member (option_map (λ text. text.now) result) ≡ line_member (line_at (L.lines lines.now) place)
        column }
{
    if column < columns_at(lines, place) {
        lines.text(place, column)
    } else {
        None
    }
}

// How many columns a line has.
fn columns_at<L: Lines>(lines: &L, place: usize) -> usize
    ensures { result ≡ length (line_at (L.lines lines.now) place).key }
{
    if place < lines.count() {
        lines.columns(place)
    } else {
        0
    }
}

// The value of a line of an aggregate, and 0 where it has none.
fn value_at<L: Lines>(lines: &L, place: usize, aggregate: usize) -> Value
    ensures { result ≡ value_at (line_at (L.lines lines.now) place) aggregate }
{
    if place < lines.count() && aggregate < lines.values(place) {
        lines.value(place, aggregate)
    } else {
        Value::Whole(0)
    }
}
