//! The slots of the groups of cells, and the cells merged in at them.
ghost use Rattle.std.specs.Prelude.{◌≡◌, ◌⊎◌, ◌<◌, ◌≤◌, ℕ, List, [], ◌∷◌, length, Some, Err, IfOk, IfErr, OnOk};
ghost use Rattle.std.specs.List.{All};
ghost use Rattle.group_tallies.specs.Limits.{EndsFolding};
ghost use Rattle.cuboid_cells.specs.Cells.{IsCellOf};
ghost use Rattle.group_numbers.specs.Numbers.{group_count};
ghost use Rattle.cube_query.specs.CellSlots.{AreMergedIn, HasNoRepresentative, HaveNoRepresentative, IsCellSlot};
ghost use Rattle.cube_query.specs.CellSlots.{IsMergedIn};
ghost use Rattle.cube_query.specs.CellTallies.{GroupsHaveRoomFor};
ghost use Rattle.group_tallies.specs.Columns.{tallies_at};
ghost use Rattle.group_tallies.specs.Slots.{entries_of, slot_of, AreSlots, Cover, Grow};

use crate::cell_columns::merge_cell;
use cube_model::{Agg, Fault};
use cuboid_cells::Cell;
use cuboid_upkeep::CellNumbers;
use group_tallies::{Slots, Tally, copy_columns};
use std::alloc::Global;

/// Columns with cells merged in at the slots of their groups, next to the columns that they are made from. Numbers of
/// groups that have no slot are given one.
///
/// `BadLayout` says that no row represents a cell, for a code is that of no member, or that a count or a sum would pass
/// its limit. Each cell is read once.
pub fn with_cells(
    alloc: Global,
    numbers: &CellNumbers,
    slots: &mut Slots,
    columns: &[Vec<Tally>],
    aggs: &[Agg],
    cells: &[Cell],
) -> Result<Vec<Vec<Tally>>, Fault>
    requires cells { All (IsCellOf numbers.now.view) cells.now }
    requires numbers { AreSlots (group_count numbers.now.dimensions numbers.now.query.columns) (entries_of slots.old) }
    requires cover { Cover (group_count numbers.now.dimensions numbers.now.query.columns) slots.old }
    requires columns { length columns.now ≡ length aggs.now }
    ensures merged { IfOk result (λ merged.
        AreMergedIn numbers.now aggs.now (entries_of slots.new) cells.now columns.now merged.items) }
    ensures refused { result ≡ Err Fault.BadLayout → HaveNoRepresentative numbers.now cells.now
        ⊎ (GroupsHaveRoomFor (entries_of slots.new) aggs.now cells.now columns.now → ⊥) }
    ensures only { IfErr result EndsFolding }
    ensures cover { Cover (group_count numbers.now.dimensions numbers.now.query.columns) slots.new }
    ensures grow { Grow (group_count numbers.now.dimensions numbers.now.query.columns) (entries_of slots.old)
        (entries_of slots.new) }
{
    slots.reserve(cells.len())?;
    let mut merged = copy_columns(alloc, columns)?;
    merge_cells(numbers, slots, merged.as_mut_slice(), aggs, cells)?;
    Ok(merged)
}

/// Merges cells in at the slots of their groups, one after another. After a refusal the columns have what they had
/// where there is no slot, and what they have at the slots is not said.
pub fn merge_cells(
    numbers: &CellNumbers,
    slots: &mut Slots,
    columns: &mut [Vec<Tally>],
    aggs: &[Agg],
    cells: &[Cell],
) -> Result<(), Fault>
    requires cells { All (IsCellOf numbers.now.view) cells.now }
    requires cover { Cover (group_count numbers.now.dimensions numbers.now.query.columns) slots.old }
    requires columns { length columns.old ≡ length aggs.now }
    ensures merged { OnOk result
        (AreMergedIn numbers.now aggs.now (entries_of slots.new) cells.now columns.old columns.new) }
    ensures refused { result ≡ Err Fault.BadLayout → HaveNoRepresentative numbers.now cells.now
        ⊎ (GroupsHaveRoomFor (entries_of slots.new) aggs.now cells.now columns.old → ⊥) }
    ensures fresh { (first : List (ℕ × ℕ))
        → Grow (group_count numbers.now.dimensions numbers.now.query.columns) first (entries_of slots.old)
        → (slot : ℕ) → length (entries_of slots.new) ≤ slot
        → tallies_at columns.new slot ≡ tallies_at columns.old slot }
    ensures only { IfErr result EndsFolding }
    ensures cover { Cover (group_count numbers.now.dimensions numbers.now.query.columns) slots.new }
    ensures grow { (first : List (ℕ × ℕ))
        → Grow (group_count numbers.now.dimensions numbers.now.query.columns) first (entries_of slots.old)
        → Grow (group_count numbers.now.dimensions numbers.now.query.columns) first (entries_of slots.new) }
{
    for place in 0..cells.len() {
        merge_one(numbers, slots, columns, aggs, &cells[place])?;
    }
    Ok(())
}

// Merges a cell in at the slot of its group, if its rows are selected.
fn merge_one(
    numbers: &CellNumbers,
    slots: &mut Slots,
    columns: &mut [Vec<Tally>],
    aggs: &[Agg],
    cell: &Cell,
) -> Result<(), Fault>
    requires cell { IsCellOf numbers.now.view cell.now }
    requires cover { Cover (group_count numbers.now.dimensions numbers.now.query.columns) slots.old }
    requires columns { length columns.old ≡ length aggs.now }
    ensures merged { OnOk result
        (IsMergedIn numbers.now aggs.now (entries_of slots.new) cell.now columns.old columns.new) }
    ensures refused { result ≡ Err Fault.BadLayout → HasNoRepresentative numbers.now cell.now
        ⊎ (GroupsHaveRoomFor (entries_of slots.new) aggs.now (cell.now ∷ []) columns.old → ⊥) }
    ensures fresh { (first : List (ℕ × ℕ))
        → Grow (group_count numbers.now.dimensions numbers.now.query.columns) first (entries_of slots.old)
        → (slot : ℕ) → length (entries_of slots.new) ≤ slot
        → tallies_at columns.new slot ≡ tallies_at columns.old slot }
    ensures only { IfErr result EndsFolding }
    ensures cover { Cover (group_count numbers.now.dimensions numbers.now.query.columns) slots.new }
    ensures keep { (number slot : ℕ) → slot_of (entries_of slots.old) number ≡ Some slot
        → slot_of (entries_of slots.new) number ≡ Some slot }
    ensures grow { (first : List (ℕ × ℕ))
        → Grow (group_count numbers.now.dimensions numbers.now.query.columns) first (entries_of slots.old)
        → Grow (group_count numbers.now.dimensions numbers.now.query.columns) first (entries_of slots.new) }
{
    match cell_slot_of(numbers, slots, cell)? {
        Some(slot) => merge_cell(columns, aggs, cell, slot),
        None => Ok(()),
    }
}

// The slot of the group of a cell, if its rows are selected.
fn cell_slot_of(numbers: &CellNumbers, slots: &mut Slots, cell: &Cell) -> Result<Option<u32>, Fault>
    requires cell { IsCellOf numbers.now.view cell.now }
    requires cover { Cover (group_count numbers.now.dimensions numbers.now.query.columns) slots.old }
    ensures group_slot { IfOk result (IsCellSlot numbers.now (entries_of slots.new) cell.now) }
    ensures refused { result ≡ Err Fault.BadLayout → HasNoRepresentative numbers.now cell.now }
    ensures only { IfErr result EndsFolding }
    ensures cover { Cover (group_count numbers.now.dimensions numbers.now.query.columns) slots.new }
    ensures keep { (number slot : ℕ) → slot_of (entries_of slots.old) number ≡ Some slot
        → slot_of (entries_of slots.new) number ≡ Some slot }
    ensures grow { (first : List (ℕ × ℕ))
        → Grow (group_count numbers.now.dimensions numbers.now.query.columns) first (entries_of slots.old)
        → Grow (group_count numbers.now.dimensions numbers.now.query.columns) first (entries_of slots.new) }
{
    match numbers.number(cell) {
        Ok(Some(number)) => {
            let slot = slots.place(number)?;
            Ok(Some(slot))
        }
        Ok(None) => Ok(None),
        Err(_) => Err(Fault::BadLayout),
    }
}
