//! The slots of the groups of fact rows.
ghost use Rattle.std.specs.Prelude.{◌≡◌, ◌<◌, ℕ, List, length, Some, Err, IfOk, IfErr};
ghost use Rattle.std.specs.List.{All};
ghost use Rattle.group_tallies.specs.Limits.{EndsFolding};
ghost use Rattle.group_numbers.specs.Numbers.{group_count};
ghost use Rattle.group_numbers.specs.Parts.{IsKnownFor};
ghost use Rattle.group_numbers.specs.Rows.{row_at};
ghost use Rattle.group_tallies.specs.Slots.{entries_of, slot_of, AreSlots, Cover, Grow};
ghost use Rattle.group_tallies.specs.FoldInvariant.{IsGroupSlot, AreGroupSlots};

use cube_model::Fault;
use group_numbers::{FactRows, GroupNumbersOver};
use group_tallies::Slots;
use std::alloc::Global;

// The slot of the group of the fact row at a place, if the row is selected.
fn group_slot_of<F: FactRows>(
    grouping: &GroupNumbersOver,
    slots: &mut Slots,
    rows: &F,
    place: usize,
) -> Result<Option<u32>, Fault>
    requires place { place < length (F.rows rows.now) }
    requires cover { Cover (group_count grouping.now.dimensions grouping.now.query.columns) slots.old }
    ensures group_slot { IfOk result (λ group_slot. IsGroupSlot grouping.now.dimensions grouping.now.query
        (entries_of slots.new) (row_at (F.rows rows.now) place) group_slot) }
    ensures refused { result ≡ Err Fault.BadLayout
        → IsKnownFor grouping.now.dimensions grouping.now.query (row_at (F.rows rows.now) place) → ⊥ }
    ensures only { IfErr result EndsFolding }
    ensures cover { Cover (group_count grouping.now.dimensions grouping.now.query.columns) slots.new }
    ensures keep { (number slot : ℕ) → slot_of (entries_of slots.old) number ≡ Some slot
        → slot_of (entries_of slots.new) number ≡ Some slot }
    ensures grow { (first : List (ℕ × ℕ))
        → Grow (group_count grouping.now.dimensions grouping.now.query.columns) first (entries_of slots.old)
        → Grow (group_count grouping.now.dimensions grouping.now.query.columns) first (entries_of slots.new) }
{
    match grouping.number(rows, place) {
        Ok(Some(number)) => {
            let slot = slots.place(number)?;
            Ok(Some(slot))
        }
        Ok(None) => Ok(None),
        Err(_) => Err(Fault::BadLayout),
    }
}

/// The slot of each fact row's group, where the row is selected. Numbers that have none are given one.
///
/// `BadLayout` says that a row has a key that no dimension row has.
pub fn group_slots_of<F: FactRows>(
    alloc: Global,
    grouping: &GroupNumbersOver,
    slots: &mut Slots,
    rows: &F,
) -> Result<Vec<Option<u32>>, Fault>
    requires numbers { AreSlots (group_count grouping.now.dimensions grouping.now.query.columns)
        (entries_of slots.old) }
    requires cover { Cover (group_count grouping.now.dimensions grouping.now.query.columns) slots.old }
    ensures group_slots { IfOk result (λ group_slots.
        AreGroupSlots grouping.now.dimensions grouping.now.query (entries_of slots.new) (F.rows rows.now)
        group_slots.items) }
    ensures refused { result ≡ Err Fault.BadLayout
        → All (IsKnownFor grouping.now.dimensions grouping.now.query) (F.rows rows.now) → ⊥ }
    ensures only { IfErr result EndsFolding }
    ensures cover { Cover (group_count grouping.now.dimensions grouping.now.query.columns) slots.new }
    ensures grow { Grow (group_count grouping.now.dimensions grouping.now.query.columns) (entries_of slots.old)
        (entries_of slots.new) }
{
    let mut group_slots = Vec::with_capacity(alloc, rows.count())?;
    for place in 0..rows.count() {
        let group_slot = group_slot_of(grouping, slots, rows, place)?;
        group_slots.push(group_slot)?;
    }
    Ok(group_slots)
}
