//! The groups of a query in the order that it asks for.
ghost use Rattle.std.specs.Prelude.{◌≡◌, ◌<◌, map, length, false, slice_index_or, IfOk};
ghost use Rattle.std.specs.List.{All, IsDistinct};
ghost use Rattle.std.specs.List.Sorted.{IsPermutation};
ghost use Rattle.std.specs.Ordering.{nat_cmp, eq_by_cmp};
ghost use Rattle.cube_model.specs.Ascending.{IsAscending};
ghost use Rattle.cube_model.specs.Orders.{line_cmp};
ghost use Rattle.cube_model.specs.Proper.{is_average};
ghost use Rattle.cube_model.specs.declared.measure.Agg.TheVariants.{Count};
ghost use Rattle.group_tallies.specs.Columns.{entry_line};
ghost use Rattle.group_tallies.specs.Ranks.{IsRank};
ghost use Rattle.group_numbers.specs.Numbers.{group_count, group_key_at};

use crate::columns::tally_at;
use crate::tally::Tally;
use cube_model::{Agg, Order};
use group_numbers::GroupNumbersOver;
use std::alloc::{AllocError, Global};
use std::cmp::Reverse;

// What a group is sorted by: the digit of the order's column, and the order's value, which falls. Then the group
// itself, by its number and its slot.
type Ranked = (u128, Reverse<i64>, (u128, u32));

// The groups, each with what it is sorted by.
fn ranked(
    alloc: Global,
    grouping: &GroupNumbersOver,
    aggregates: &[Agg],
    columns: &[Vec<Tally>],
    order: Order,
    groups: &[(u128, u32)],
) -> Result<Vec<Ranked>, AllocError>
    requires column { order.column < length grouping.now.query.columns }
    requires aggregate { order.aggregate < length aggregates.now }
    requires whole { is_average (slice_index_or aggregates.now order.aggregate Count) ≡ false }
    requires columns { length columns.now ≡ length aggregates.now }
    requires below { All (λ group. group.0 < group_count grouping.now.dimensions grouping.now.query.columns)
        groups.now }
    ensures groups { IfOk result (λ ranked. map (λ rank. rank.2) ranked.items ≡ groups.now) }
    ensures ranks { IfOk result (λ ranked. All (IsRank grouping.now.dimensions grouping.now.query.columns order
        (entry_line (group_key_at grouping.now.dimensions grouping.now.query.columns) aggregates.now columns.now))
        ranked.items) }
{
    let column = columns[order.aggregate].as_slice();
    let agg = aggregates[order.aggregate];
    let mut ranked = Vec::with_capacity(alloc, groups.len())?;
    for i in 0..groups.len() {
        let group = groups[i];
        let value = tally_at(column, group.1 as usize).whole(agg);
        ranked.push((grouping.digit(order.column, group.0), Reverse(value), group))?;
    }
    Ok(ranked)
}

// The groups without what they were sorted by.
fn unranked(alloc: Global, ranked: &[Ranked]) -> Result<Vec<(u128, u32)>, AllocError>
    ensures { IfOk result (λ groups. groups.items ≡ map (λ rank. rank.2) ranked.now) }
{
    ranked.iter().map(|rank| rank.2).collect(alloc)
}

/// Groups in the order that a query asks for. It compares numbers alone.
pub fn in_order(
    alloc: Global,
    grouping: &GroupNumbersOver,
    aggregates: &[Agg],
    columns: &[Vec<Tally>],
    order: Order,
    groups: &[(u128, u32)],
) -> Result<Vec<(u128, u32)>, AllocError>
    requires column { order.column < length grouping.now.query.columns }
    requires aggregate { order.aggregate < length aggregates.now }
    requires whole { is_average (slice_index_or aggregates.now order.aggregate Count) ≡ false }
    requires columns { length columns.now ≡ length aggregates.now }
    requires below { All (λ group. group.0 < group_count grouping.now.dimensions grouping.now.query.columns)
        groups.now }
    requires apart { IsDistinct (eq_by_cmp nat_cmp) (map (λ group. group.0) groups.now) }
    ensures same { IfOk result (λ sorted. IsPermutation groups.now sorted.items) }
    ensures rising { IfOk result (λ sorted. IsAscending (line_cmp order)
        (map (entry_line (group_key_at grouping.now.dimensions grouping.now.query.columns) aggregates.now columns.now)
        sorted.items)) }
{
    let mut ranked = ranked(alloc, grouping, aggregates, columns, order, groups)?;
    ranked.sort_unstable();
    unranked(alloc, ranked.as_slice())
}
