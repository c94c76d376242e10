//! The lines of the groups that have rows.
ghost use Rattle.std.specs.Prelude.{◌≡◌, ◌<◌, ◌++◌, ◌∷◌, [], List, true, length, IfOk, OnOk};
ghost use Rattle.cube_model.specs.Answers.{answer};
ghost use Rattle.cube_model.specs.Proper.{IsProper};
ghost use Rattle.cube_model.specs.declared.rows.LineOrder.{LineOrder};
ghost use Rattle.group_tallies.specs.Columns.{entry_line, is_seen, seen_entries, seen_groups, tallies_at};
ghost use Rattle.group_tallies.specs.GroupLines.{HaveLines, lines_by};
ghost use Rattle.group_tallies.specs.Groups.{groups_of};
ghost use Rattle.group_tallies.specs.Slots.{entries_of, AreSlots};
ghost use Rattle.group_numbers.specs.Numbers.{group_count, group_key_at};

use crate::columns::{is_seen, values_of};
use crate::order::in_order;
use crate::slots::Slots;
use crate::tally::Tally;
use cube_model::{Agg, Items, Line, Query};
use group_numbers::GroupNumbersOver;
use std::alloc::{AllocError, Global};

// The line of a group, by its number and its slot.
fn line_of(
    alloc: Global,
    grouping: &GroupNumbersOver,
    aggregates: &[Agg],
    columns: &[Vec<Tally>],
    group: (u128, u32),
) -> Result<Line, AllocError>
    requires columns { length columns.now ≡ length aggregates.now }
    requires below { group.0 < group_count grouping.now.dimensions grouping.now.query.columns }
    requires seen { is_seen (tallies_at columns.now group.1) ≡ true }
    ensures { IfOk result (λ line. line
        ≡ entry_line (group_key_at grouping.now.dimensions grouping.now.query.columns) aggregates.now columns.now
        group) }
{
    let (number, slot) = group;
    let key = grouping.key(alloc, number)?;
    let values = values_of(alloc, aggregates, columns, slot as usize)?;
    Ok(Line { key, values })
}

// Puts the line of a group after others.
fn push_line(
    alloc: Global,
    grouping: &GroupNumbersOver,
    aggregates: &[Agg],
    columns: &[Vec<Tally>],
    group: (u128, u32),
    lines: &mut Vec<Line>,
) -> Result<(), AllocError>
    requires columns { length columns.now ≡ length aggregates.now }
    requires below { group.0 < group_count grouping.now.dimensions grouping.now.query.columns }
    requires seen { is_seen (tallies_at columns.now group.1) ≡ true }
    ensures { OnOk result (lines.new.items ≡ lines.old.items
        ++ entry_line (group_key_at grouping.now.dimensions grouping.now.query.columns) aggregates.now columns.now group
        ∷ []) }
{
    let line = line_of(alloc, grouping, aggregates, columns, group)?;
    lines.push(line)?;
    Ok(())
}

/// The lines of groups, in their order.
pub fn lines_among(
    alloc: Global,
    grouping: &GroupNumbersOver,
    query: &Query,
    columns: &[Vec<Tally>],
    groups: &[(u128, u32)],
) -> Result<Items<Line>, AllocError>
    requires query { query.now ≡ grouping.now.query }
    requires columns { length columns.now ≡ length grouping.now.query.aggregates }
    requires groups { HaveLines grouping.now.dimensions grouping.now.query columns.now groups.now }
    ensures { IfOk result
        (λ lines. lines ≡ lines_by grouping.now.dimensions grouping.now.query columns.now groups.now) }
{
    let aggregates = query.aggregates.as_slice();
    let mut lines = Vec::with_capacity(alloc, groups.len())?;
    for i in 0..groups.len() {
        push_line(alloc, grouping, aggregates, columns, groups[i], &mut lines)?;
    }
    Ok(Items::from_vec(lines))
}

// The groups that have rows, in the order of their numbers.
fn seen_groups_of(
    alloc: Global,
    columns: &[Vec<Tally>],
    slots: &Slots,
) -> Result<Vec<(u128, u32)>, AllocError>
    ensures { IfOk result (λ groups. groups.items ≡ seen_entries (tallies_at columns.now) (entries_of slots.now)) }
{
    let mut entries = slots.entries(alloc)?;
    entries.retain(|entry| is_seen(columns, entry.1 as usize));
    Ok(entries)
}

/// The groups that have rows, in the order that the query asks for its lines in.
pub fn ordered_groups(
    alloc: Global,
    grouping: &GroupNumbersOver,
    query: &Query,
    columns: &[Vec<Tally>],
    slots: &Slots,
) -> Result<Vec<(u128, u32)>, AllocError>
    requires query { query.now ≡ grouping.now.query }
    requires proper { IsProper grouping.now.query }
    requires numbers { AreSlots (group_count grouping.now.dimensions grouping.now.query.columns)
        (entries_of slots.now) }
    requires columns { length columns.now ≡ length grouping.now.query.aggregates }
    ensures groups { IfOk result
        (λ groups. HaveLines grouping.now.dimensions grouping.now.query columns.now groups.items) }
    ensures lines { IfOk result (λ groups. (rows : List LineOrder)
        → seen_groups (group_key_at grouping.now.dimensions grouping.now.query.columns) (tallies_at columns.now)
        (entries_of slots.now)
        ≡ groups_of grouping.now.dimensions grouping.now.query rows
        → lines_by grouping.now.dimensions grouping.now.query columns.now groups.items
        ≡ (answer grouping.now.query grouping.now.dimensions rows).lines) }
{
    let groups = seen_groups_of(alloc, columns, slots)?;
    match query.order {
        None => Ok(groups),
        Some(order) => {
            let aggregates = query.aggregates.as_slice();
            let sorted = in_order(
                alloc,
                grouping,
                aggregates,
                columns,
                order,
                groups.as_slice(),
            )?;
            // Lines in order that are those of the groups are the answer's: no other lines are.
            Ok(sorted)
        }
    }
}
