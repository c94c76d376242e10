//! Whether tallies have room for fact rows.
ghost use Rattle.std.specs.Prelude.{◌≡◌, ◌↔◌, ◌≤◌, ◌<◌, ◌^◌, [], ◌∷◌, length, IsTrue, MatchOption};
ghost use Rattle.std.specs.List.{list_all};
ghost use Rattle.group_tallies.specs.Columns.{can_add, rows_with_slots, aggregate_size, HasRoom};
ghost use Rattle.group_tallies.specs.FoldInvariant.{HaveRoom};
ghost use Rattle.group_tallies.specs.Room.{can_take};
ghost use Rattle.group_numbers.specs.Rows.{row_at};

use crate::columns::number_at;
use crate::tally::{LIMIT, Tally};
use cube_model::Agg;
use group_numbers::FactRows;

/// Whether each column has room for rows at the slots of their groups: there is a column for each aggregate, and for
/// each row the slot of its group, or none where it is not selected. It takes no memory.
pub fn have_room<F: FactRows>(
    columns: &[Vec<Tally>],
    aggs: &[Agg],
    rows: &F,
    group_slots: &[Option<u32>],
) -> bool
    requires columns { length columns.now ≡ length aggs.now }
    requires group_slots { length group_slots.now ≡ length (F.rows rows.now) }
    ensures { IsTrue result ↔ HaveRoom aggs.now columns.now (F.rows rows.now) group_slots.now }
{
    for i in 0..aggs.len() {
        if !has_room(columns[i].as_slice(), aggs[i], rows, group_slots) {
            return false;
        }
    }
    true
}

// Whether a column has room for rows at the slots of their groups.
fn has_room<F: FactRows>(column: &[Tally], agg: Agg, rows: &F, group_slots: &[Option<u32>]) -> bool
    requires { length group_slots.now ≡ length (F.rows rows.now) }
    ensures { IsTrue result ↔ HasRoom agg column.now (F.rows rows.now) group_slots.now }
{
    match size_of(agg, rows, group_slots) {
        Some(size) => all_can_take(column, group_slots, group_slots.len() as u64, size),
        None => false,
    }
}

// The sum of the absolute values of what an aggregate is taken of, over the rows that have a slot, unless it is too
// large.
fn size_of<F: FactRows>(agg: Agg, rows: &F, group_slots: &[Option<u32>]) -> Option<u64>
    requires { length group_slots.now ≡ length (F.rows rows.now) }
    ensures { MatchOption result (2 ^ 63 ≤ aggregate_size agg (rows_with_slots (F.rows rows.now) group_slots.now))
        (λ size. (size ≡ aggregate_size agg (rows_with_slots (F.rows rows.now) group_slots.now)) × (size < 2 ^ 63)) }
{
    let mut size = 0;
    for place in 0..group_slots.len() {
        size += size_at(agg, rows, place, group_slots[place]);
        if size >= u128::from(LIMIT) {
            return None;
        }
    }
    Some(size as u64)
}

// The absolute value of what an aggregate is taken of, at the row at a place, if it has a slot.
fn size_at<F: FactRows>(agg: Agg, rows: &F, place: usize, group_slot: Option<u32>) -> u128
    requires { place < length (F.rows rows.now) }
    ensures size { result
        ≡ aggregate_size agg (rows_with_slots (row_at (F.rows rows.now) place ∷ []) (group_slot ∷ [])) }
    ensures small { result ≤ 2 ^ 127 }
{
    match group_slot {
        None => 0,
        Some(_) => number_at(agg, rows, place).unsigned_abs(),
    }
}

// Whether the tally at each of the slots can take so many numbers more, whose absolute values have a sum.
fn all_can_take(column: &[Tally], group_slots: &[Option<u32>], count: u64, size: u64) -> bool
    ensures { result ≡ list_all (λ group_slot. can_take column.now group_slot count size) group_slots.now }
{
    group_slots
        .iter()
        .all(|group_slot| can_take(column, *group_slot, count, size))
}

// Whether the tally at a slot, if there is one, can take so many numbers more.
fn can_take(column: &[Tally], group_slot: Option<u32>, count: u64, size: u64) -> bool
    ensures { result ≡ can_take column.now group_slot count size }
{
    match group_slot {
        None => true,
        Some(slot) => match column.get(slot as usize) {
            None => false,
            Some(tally) => can_add(tally, count, size),
        },
    }
}

// Whether a tally can take so many numbers more.
fn can_add(tally: &Tally, count: u64, size: u64) -> bool
    ensures { result ≡ can_add tally.now count size }
{
    tally.count.get().saturating_add(count) < LIMIT
        && tally.sum.unsigned_abs().saturating_add(size) < LIMIT
}
