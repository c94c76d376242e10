//! The lines of an answer, made of the groups by all columns.
ghost use Rattle.std.specs.Prelude.{◌≡◌, List, length, Err, IfErr, IfOk, OnOk, IsOkUnless};
ghost use Rattle.group_tallies.specs.Limits.{AreFoldable, EndsFolding};
ghost use Rattle.cube_model.specs.Answers.{answer};
ghost use Rattle.cube_model.specs.declared.rows.LineOrder.{LineOrder};
ghost use Rattle.cube_model.specs.Proper.{IsProper};
ghost use Rattle.group_tallies.specs.Coarser.{AreTalliedFrom, CanCoarsen};
ghost use Rattle.group_tallies.specs.Columns.{seen_groups, tallies_at};
ghost use Rattle.group_tallies.specs.GroupLines.{HaveLines, lines_by};
ghost use Rattle.group_tallies.specs.Groups.{finest, groups_of};
ghost use Rattle.group_tallies.specs.Slots.{entries_of, AreSlots};
ghost use Rattle.group_numbers.specs.Numbers.{group_count, group_key_at};
ghost use Rattle.group_tallies.specs.FoldInvariant.{AreTallied, IsFold};

use crate::coarser::coarsen_all;
use crate::columns::copy_columns;
use crate::lines::{lines_among, ordered_groups};
use crate::slots::Slots;
use crate::tally::Tally;
use cube_model::{Fault, Items, Kind, Line, Query};
use group_numbers::GroupNumbersOver;
use std::alloc::Global;

// The lines of a rollup or a cube. What the fold has stays as it is.
fn coarser_lines(
    alloc: Global,
    grouping: &GroupNumbersOver,
    query: &Query,
    columns: &[Vec<Tally>],
    slots: &Slots,
) -> Result<Items<Line>, Fault>
    requires query { query.now ≡ grouping.now.query }
    requires fold { IsFold grouping.now.dimensions grouping.now.query slots.now columns.now }
    ensures lines { IfOk result (λ lines. (rows : List LineOrder)
        → AreTallied grouping.now.dimensions (finest grouping.now.query) (entries_of slots.now) columns.now rows
        → lines ≡ (answer grouping.now.query grouping.now.dimensions rows).lines) }
    ensures refused { result ≡ Err Fault.BadLayout → (rows : List LineOrder)
        → AreTallied grouping.now.dimensions (finest grouping.now.query) (entries_of slots.now) columns.now rows
        → AreFoldable grouping.now.dimensions rows → ⊥ }
    ensures only { IfErr result EndsFolding }
{
    let mut slots = slots.copy()?;
    let mut columns = copy_columns(alloc, columns)?;
    all_lines(alloc, grouping, query, &mut slots, &mut columns)
}

// The lines of all groups of the query's kind, which are added to those by all columns.
fn all_lines(
    alloc: Global,
    grouping: &GroupNumbersOver,
    query: &Query,
    slots: &mut Slots,
    columns: &mut Vec<Vec<Tally>>,
) -> Result<Items<Line>, Fault>
    requires query { query.now ≡ grouping.now.query }
    requires can { CanCoarsen grouping.now.dimensions grouping.now.query slots.old columns.old.items }
    ensures lines { IfOk result (λ lines. (rows : List LineOrder)
        → AreTalliedFrom grouping.now.dimensions grouping.now.query (length grouping.now.query.columns)
        (entries_of slots.old)
        columns.old.items rows
        → lines ≡ (answer grouping.now.query grouping.now.dimensions rows).lines) }
    ensures refused { result ≡ Err Fault.BadLayout → (rows : List LineOrder)
        → AreTalliedFrom grouping.now.dimensions grouping.now.query (length grouping.now.query.columns)
        (entries_of slots.old)
        columns.old.items rows
        → AreFoldable grouping.now.dimensions rows → ⊥ }
    ensures only { IfErr result EndsFolding }
{
    let groups = all_groups(alloc, grouping, query, slots, columns)?;
    let lines = lines_among(
        alloc,
        grouping,
        query,
        columns.as_slice(),
        groups.as_slice(),
    )?;
    Ok(lines)
}

// All groups of the query's kind, which are added to those by all columns, in the order of their lines.
fn all_groups(
    alloc: Global,
    grouping: &GroupNumbersOver,
    query: &Query,
    slots: &mut Slots,
    columns: &mut Vec<Vec<Tally>>,
) -> Result<Vec<(u128, u32)>, Fault>
    requires query { query.now ≡ grouping.now.query }
    requires can { CanCoarsen grouping.now.dimensions grouping.now.query slots.old columns.old.items }
    ensures count { OnOk result (length columns.new.items ≡ length grouping.now.query.aggregates) }
    ensures groups { IfOk result
        (λ groups. HaveLines grouping.now.dimensions grouping.now.query columns.new.items groups.items) }
    ensures lines { IfOk result (λ groups. (rows : List LineOrder)
        → AreTalliedFrom grouping.now.dimensions grouping.now.query (length grouping.now.query.columns)
        (entries_of slots.old)
        columns.old.items rows
        → lines_by grouping.now.dimensions grouping.now.query columns.new.items groups.items
        ≡ (answer grouping.now.query grouping.now.dimensions rows).lines) }
    ensures refused { result ≡ Err Fault.BadLayout → (rows : List LineOrder)
        → AreTalliedFrom grouping.now.dimensions grouping.now.query (length grouping.now.query.columns)
        (entries_of slots.old)
        columns.old.items rows
        → AreFoldable grouping.now.dimensions rows → ⊥ }
    ensures only { IfErr result EndsFolding }
{
    let count = query.columns.len();
    coarsen_all(alloc, grouping, query.kind, count, slots, columns)?;
    let groups = ordered_groups(alloc, grouping, query, columns.as_slice(), slots)?;
    Ok(groups)
}

// The lines of the groups that there are.
fn finest_lines(
    alloc: Global,
    grouping: &GroupNumbersOver,
    query: &Query,
    columns: &[Vec<Tally>],
    slots: &Slots,
) -> Result<Items<Line>, Fault>
    requires query { query.now ≡ grouping.now.query }
    requires proper { IsProper grouping.now.query }
    requires numbers { AreSlots (group_count grouping.now.dimensions grouping.now.query.columns)
        (entries_of slots.now) }
    requires columns { length columns.now ≡ length grouping.now.query.aggregates }
    ensures lines { IfOk result (λ lines. (rows : List LineOrder)
        → seen_groups (group_key_at grouping.now.dimensions grouping.now.query.columns) (tallies_at columns.now)
        (entries_of slots.now)
        ≡ groups_of grouping.now.dimensions grouping.now.query rows
        → lines ≡ (answer grouping.now.query grouping.now.dimensions rows).lines) }
    ensures only { IsOkUnless result Fault.Memory }
{
    let groups = ordered_groups(alloc, grouping, query, columns, slots)?;
    let lines = lines_among(alloc, grouping, query, columns, groups.as_slice())?;
    Ok(lines)
}

/// The groups of the query, made of those by all columns, in the order of the answer's lines.
pub fn groups_of_kind(
    alloc: Global,
    grouping: &GroupNumbersOver,
    query: &Query,
    slots: &mut Slots,
    columns: &mut Vec<Vec<Tally>>,
) -> Result<Vec<(u128, u32)>, Fault>
    requires query { query.now ≡ grouping.now.query }
    requires fold { IsFold grouping.now.dimensions grouping.now.query slots.old columns.old.items }
    ensures count { OnOk result (length columns.new.items ≡ length grouping.now.query.aggregates) }
    ensures groups { IfOk result
        (λ groups. HaveLines grouping.now.dimensions grouping.now.query columns.new.items groups.items) }
    ensures lines { IfOk result (λ groups. (rows : List LineOrder)
        → AreTallied grouping.now.dimensions (finest grouping.now.query) (entries_of slots.old) columns.old.items rows
        → lines_by grouping.now.dimensions grouping.now.query columns.new.items groups.items
        ≡ (answer grouping.now.query grouping.now.dimensions rows).lines) }
    ensures refused { result ≡ Err Fault.BadLayout → (rows : List LineOrder)
        → AreTallied grouping.now.dimensions (finest grouping.now.query) (entries_of slots.old) columns.old.items rows
        → AreFoldable grouping.now.dimensions rows → ⊥ }
    ensures only { IfErr result EndsFolding }
{
    match query.kind {
        Kind::Plain => {
            let groups = ordered_groups(alloc, grouping, query, columns.as_slice(), slots)?;
            Ok(groups)
        }
        Kind::Rollup | Kind::Cube => all_groups(alloc, grouping, query, slots, columns),
    }
}

/// The lines of the answer over the rows of the groups by all columns, which stay as they are: there is a column for
/// each aggregate, with a tally at each slot.
///
/// `BadLayout` says that a count or a sum over some of the rows would pass its limit.
pub fn answer_lines(
    alloc: Global,
    grouping: &GroupNumbersOver,
    query: &Query,
    columns: &[Vec<Tally>],
    slots: &Slots,
) -> Result<Items<Line>, Fault>
    requires query { query.now ≡ grouping.now.query }
    requires fold { IsFold grouping.now.dimensions grouping.now.query slots.now columns.now }
    ensures lines { IfOk result (λ lines. (rows : List LineOrder)
        → AreTallied grouping.now.dimensions (finest grouping.now.query) (entries_of slots.now) columns.now rows
        → lines ≡ (answer grouping.now.query grouping.now.dimensions rows).lines) }
    ensures refused { result ≡ Err Fault.BadLayout → (rows : List LineOrder)
        → AreTallied grouping.now.dimensions (finest grouping.now.query) (entries_of slots.now) columns.now rows
        → AreFoldable grouping.now.dimensions rows → ⊥ }
    ensures only { IfErr result EndsFolding }
{
    match query.kind {
        Kind::Plain => finest_lines(alloc, grouping, query, columns, slots),
        Kind::Rollup | Kind::Cube => coarser_lines(alloc, grouping, query, columns, slots),
    }
}
