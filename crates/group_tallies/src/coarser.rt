//! Coarser groupings, made from finer ones: column by column, from the last to the first, each group is merged into the
//! one that has ALL in that column.
ghost use Rattle.std.specs.Prelude.{◌≡◌, ℕ, ◌+◌, ◌≤◌, ◌<◌, List, length, Some, Err, OnErr, OnOk, IfErr, IfOk};
ghost use Rattle.std.specs.List.{All};
ghost use Rattle.group_tallies.specs.Limits.{AreFoldable, EndsFolding};
ghost use Rattle.cube_model.specs.declared.rows.LineOrder.{LineOrder};
ghost use Rattle.group_tallies.specs.Coarser.{leads, sources_of, AreTalliedFrom, AreTargets, CanCoarsen, FitMerged};
ghost use Rattle.group_tallies.specs.Coarser.{IsTarget, MayMerge, MergesIn};
ghost use Rattle.group_tallies.specs.Columns.{tallies_at};
ghost use Rattle.group_tallies.specs.Slots.{entries_of, slot_of, AreSlots, Cover, Grow};
ghost use Rattle.group_numbers.specs.Numbers.{group_count, group_key_at};

use crate::columns::{is_seen, make_room, merge_in_all};
use crate::slots::Slots;
use crate::tally::Tally;
use cube_model::{Fault, Kind};
use group_numbers::GroupNumbersOver;
use std::alloc::{AllocError, Global};

// Whether the group with a number leads to one with ALL in a column: of a rollup those with ALL in all columns after
// it.
fn leads(grouping: &GroupNumbersOver, kind: Kind, column: usize, number: u128) -> bool
    requires column { column < length grouping.now.query.columns }
    requires few { length grouping.now.query.columns ≤ 6 }
    requires below { number < group_count grouping.now.dimensions grouping.now.query.columns }
    ensures { result ≡ leads kind column (group_key_at grouping.now.dimensions grouping.now.query.columns number) }
{
    match kind {
        Kind::Plain => false,
        Kind::Rollup => grouping.is_all(column + 1, number),
        Kind::Cube => true,
    }
}

// The groups that have rows and lead to ones with ALL in a column.
fn sources_of(
    alloc: Global,
    grouping: &GroupNumbersOver,
    kind: Kind,
    column: usize,
    columns: &[Vec<Tally>],
    entries: &[(u128, u32)],
) -> Result<Vec<(u128, u32)>, AllocError>
    requires kind { kind ≡ grouping.now.query.kind }
    requires column { column < length grouping.now.query.columns }
    requires few { length grouping.now.query.columns ≤ 6 }
    requires below { All (λ entry. entry.0 < group_count grouping.now.dimensions grouping.now.query.columns)
        entries.now }
    ensures { IfOk result (λ sources. sources.items
        ≡ sources_of grouping.now.dimensions grouping.now.query column (tallies_at columns.now) entries.now) }
{
    let mut sources = Vec::new(alloc);
    for i in 0..entries.len() {
        let entry = entries[i];
        if is_seen(columns, entry.1 as usize) && leads(grouping, kind, column, entry.0) {
            sources.push(entry)?;
        }
    }
    Ok(sources)
}

// The same of all groups that have a slot.
fn sources_among(
    alloc: Global,
    grouping: &GroupNumbersOver,
    kind: Kind,
    column: usize,
    columns: &[Vec<Tally>],
    slots: &Slots,
) -> Result<Vec<(u128, u32)>, AllocError>
    requires kind { kind ≡ grouping.now.query.kind }
    requires column { column < length grouping.now.query.columns }
    requires few { length grouping.now.query.columns ≤ 6 }
    requires numbers { AreSlots (group_count grouping.now.dimensions grouping.now.query.columns)
        (entries_of slots.now) }
    ensures { IfOk result (λ sources. sources.items
        ≡ sources_of grouping.now.dimensions grouping.now.query column (tallies_at columns.now)
        (entries_of slots.now)) }
{
    let entries = slots.entries(alloc)?;
    sources_of(alloc, grouping, kind, column, columns, entries.as_slice())
}

// The slot of the group with ALL in a column and all else as a source. Where it has none it is given one.
fn target_of(
    grouping: &GroupNumbersOver,
    column: usize,
    slots: &mut Slots,
    source: (u128, u32),
) -> Result<u32, AllocError>
    requires column { column < length grouping.now.query.columns }
    requires below { source.0 < group_count grouping.now.dimensions grouping.now.query.columns }
    requires cover { Cover (group_count grouping.now.dimensions grouping.now.query.columns) slots.old }
    ensures target { IfOk result (λ target.
        IsTarget grouping.now.dimensions grouping.now.query.columns column (entries_of slots.new) source target) }
    ensures cover { Cover (group_count grouping.now.dimensions grouping.now.query.columns) slots.new }
    ensures keep { (number slot : ℕ) → slot_of (entries_of slots.old) number ≡ Some slot
        → slot_of (entries_of slots.new) number ≡ Some slot }
    ensures grow { (first : List (ℕ × ℕ))
        → Grow (group_count grouping.now.dimensions grouping.now.query.columns) first (entries_of slots.old)
        → Grow (group_count grouping.now.dimensions grouping.now.query.columns) first (entries_of slots.new) }
{
    let target = slots.place(grouping.with_all(column, source.0))?;
    Ok(target)
}

// The slots of the groups with ALL in a column. Those that have none are given one.
fn targets_of(
    alloc: Global,
    grouping: &GroupNumbersOver,
    column: usize,
    slots: &mut Slots,
    sources: &[(u128, u32)],
) -> Result<Vec<u32>, AllocError>
    requires column { column < length grouping.now.query.columns }
    requires below { All (λ source. source.0 < group_count grouping.now.dimensions grouping.now.query.columns)
        sources.now }
    requires numbers { AreSlots (group_count grouping.now.dimensions grouping.now.query.columns)
        (entries_of slots.old) }
    requires cover { Cover (group_count grouping.now.dimensions grouping.now.query.columns) slots.old }
    ensures targets { IfOk result (λ targets.
        AreTargets grouping.now.dimensions grouping.now.query.columns column (entries_of slots.new) sources.now
        targets.items) }
    ensures cover { Cover (group_count grouping.now.dimensions grouping.now.query.columns) slots.new }
    ensures grow { Grow (group_count grouping.now.dimensions grouping.now.query.columns) (entries_of slots.old)
        (entries_of slots.new) }
{
    let mut targets = Vec::with_capacity(alloc, sources.len())?;
    for i in 0..sources.len() {
        let target = target_of(grouping, column, slots, sources[i])?;
        targets.push(target)?;
    }
    Ok(targets)
}

// Merges the tallies of sources into those of their targets.
fn merge(
    columns: &mut Vec<Vec<Tally>>,
    sources: &[(u128, u32)],
    targets: &[u32],
) -> Result<(), Fault>
    requires targets { length targets.now ≡ length sources.now }
    requires may { MayMerge sources.now targets.now columns.old.items }
    ensures ok { OnOk result (MergesIn sources.now targets.now columns.old.items columns.new.items) }
    ensures err { OnErr result (FitMerged sources.now targets.now columns.old.items → ⊥) }
    ensures count { length columns.new.items ≡ length columns.old.items }
    ensures only { IfErr result (λ fault. fault ≡ Fault.BadLayout) }
{
    match merge_in_all(columns.as_mut_slice(), sources, targets) {
        Ok(()) => Ok(()),
        Err(_) => Err(Fault::BadLayout),
    }
}

// Adds the groups with ALL in a column to those that there are from the next column on.
fn coarsen(
    alloc: Global,
    grouping: &GroupNumbersOver,
    kind: Kind,
    column: usize,
    slots: &mut Slots,
    columns: &mut Vec<Vec<Tally>>,
) -> Result<(), Fault>
    requires kind { kind ≡ grouping.now.query.kind }
    requires column { column < length grouping.now.query.columns }
    requires can { CanCoarsen grouping.now.dimensions grouping.now.query slots.old columns.old.items }
    ensures can { OnOk result (CanCoarsen grouping.now.dimensions grouping.now.query slots.new columns.new.items) }
    ensures tallied { OnOk result ((rows : List LineOrder)
        → AreTalliedFrom grouping.now.dimensions grouping.now.query (column + 1) (entries_of slots.old)
        columns.old.items rows
        → AreTalliedFrom grouping.now.dimensions grouping.now.query column (entries_of slots.new) columns.new.items
        rows) }
    ensures refused { result ≡ Err Fault.BadLayout → (rows : List LineOrder)
        → AreTalliedFrom grouping.now.dimensions grouping.now.query (column + 1) (entries_of slots.old)
        columns.old.items rows
        → AreFoldable grouping.now.dimensions rows → ⊥ }
    ensures only { IfErr result EndsFolding }
{
    let sources = sources_among(alloc, grouping, kind, column, columns.as_slice(), slots)?;
    let targets = targets_of(alloc, grouping, column, slots, sources.as_slice())?;
    make_room(columns, slots)?;
    merge(columns, sources.as_slice(), targets.as_slice())?;
    Ok(())
}

/// Adds all groups of the query's kind to those by all columns, of which there are so many.
pub fn coarsen_all(
    alloc: Global,
    grouping: &GroupNumbersOver,
    kind: Kind,
    count: usize,
    slots: &mut Slots,
    columns: &mut Vec<Vec<Tally>>,
) -> Result<(), Fault>
    requires kind { kind ≡ grouping.now.query.kind }
    requires count { count ≤ length grouping.now.query.columns }
    requires can { CanCoarsen grouping.now.dimensions grouping.now.query slots.old columns.old.items }
    ensures can { OnOk result (CanCoarsen grouping.now.dimensions grouping.now.query slots.new columns.new.items) }
    ensures tallied { OnOk result ((rows : List LineOrder)
        → AreTalliedFrom grouping.now.dimensions grouping.now.query count (entries_of slots.old) columns.old.items rows
        → AreTalliedFrom grouping.now.dimensions grouping.now.query 0 (entries_of slots.new) columns.new.items rows) }
    ensures refused { result ≡ Err Fault.BadLayout → (rows : List LineOrder)
        → AreTalliedFrom grouping.now.dimensions grouping.now.query count (entries_of slots.old) columns.old.items rows
        → AreFoldable grouping.now.dimensions rows → ⊥ }
    ensures only { IfErr result EndsFolding }
{
    if count == 0 {
        return Ok(());
    }
    coarsen(alloc, grouping, kind, count - 1, slots, columns)?;
    coarsen_all(alloc, grouping, kind, count - 1, slots, columns)
}
