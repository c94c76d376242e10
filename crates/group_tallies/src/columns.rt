//! The tallies of groups in columns, one column for each aggregate, each with a tally at each slot.
ghost use Rattle.std.specs.Prelude.{◌≡◌, ℕ, pos, ◌≤◌, ◌<◌, true, [], ◌∷◌, length, slice_index_or, IfOk};
ghost use Rattle.std.specs.Prelude.{OnErr, OnOk, FitsSigned, nat_lt, slice_set, List, ◌+◌, ◌^◌, ◌+ℤ◌};
ghost use Rattle.std.specs.List.{AllByRecursion, list_all};
ghost use Rattle.std.specs.Int.{w64};
ghost use Rattle.cube_model.specs.declared.answer.Value.TheVariants.{Whole};
ghost use Rattle.cube_model.specs.declared.measure.Agg.{Agg};
ghost use Rattle.cube_model.specs.declared.rows.LineOrder.{LineOrder};
ghost use Rattle.group_tallies.specs.Coarser.{gathered, AddsIn, CanMergeTallies, FitMerged, HasMergeRoom, LieWithin};
ghost use Rattle.group_tallies.specs.Coarser.{MayMerge};
ghost use Rattle.group_tallies.specs.Coarser.{MergesIn};
ghost use Rattle.group_tallies.specs.Columns.{tally_at, tallies_at, is_seen, CountsIn, HasRoom, IsBounded};
ghost use Rattle.group_tallies.specs.FoldInvariant.{CountIn, HaveRoom};
ghost use Rattle.group_tallies.specs.Slots.{entries_of};
ghost use Rattle.group_numbers.specs.Rows.{row_at};
ghost use Rattle.group_tallies.specs.Tallies.{merged_tally, aggregated, tallies_of, values_of};

use crate::slots::Slots;
use crate::tally::{Tally, TooLarge};
use cube_model::{Agg, Items, Value};
use group_numbers::FactRows;
use std::alloc::{AllocError, Global};

/// What an aggregate is taken of, at the row at a place.
pub fn number_at<F: FactRows>(agg: Agg, rows: &F, place: usize) -> i128
    requires { place < length (F.rows rows.now) }
    ensures { result ≡ aggregated agg (row_at (F.rows rows.now) place) }
{
    match agg {
        Agg::Count => 0,
        Agg::Sum(measure) | Agg::Min(measure) | Agg::Max(measure) | Agg::Avg(measure) => {
            rows.measure(place, measure)
        }
    }
}

// The same, where it is small.
fn small_number_at<F: FactRows>(agg: Agg, rows: &F, place: usize) -> i64
    requires place { place < length (F.rows rows.now) }
    requires small { FitsSigned w64 (aggregated agg (row_at (F.rows rows.now) place)) }
    ensures { result ≡ aggregated agg (row_at (F.rows rows.now) place) }
{
    number_at(agg, rows, place) as i64
}

// Counts the row at a place in at the slot of its group, if it has one.
fn count_row<F: FactRows>(
    column: &mut [Tally],
    agg: Agg,
    rows: &F,
    place: usize,
    group_slot: Option<u32>,
)
    requires place { place < length (F.rows rows.now) }
    requires room { HasRoom agg column.old (row_at (F.rows rows.now) place ∷ []) (group_slot ∷ []) }
    ensures counted { CountsIn agg (row_at (F.rows rows.now) place ∷ []) (group_slot ∷ []) column.old column.new }
    ensures bounded { IsBounded agg (row_at (F.rows rows.now) place ∷ []) (group_slot ∷ []) column.old column.new }
    ensures length { length column.new ≡ length column.old }
{
    if let Some(slot) = group_slot {
        let tally = column[slot as usize];
        column[slot as usize] = tally.after(small_number_at(agg, rows, place));
    }
}

/// Counts rows in at the slots of their groups. It takes no memory.
pub fn count_in<F: FactRows>(column: &mut [Tally], agg: Agg, rows: &F, group_slots: &[Option<u32>])
    requires group_slots { length group_slots.now ≡ length (F.rows rows.now) }
    requires room { HasRoom agg column.old (F.rows rows.now) group_slots.now }
    ensures counted { CountsIn agg (F.rows rows.now) group_slots.now column.old column.new }
    ensures length { length column.new ≡ length column.old }
{
    for place in 0..group_slots.len() {
        count_row(column, agg, rows, place, group_slots[place]);
    }
}

/// Counts rows in at the slots of their groups, in all columns: there is a column for each aggregate, and for each row
/// the slot of its group, or none where it is not selected. It takes no memory.
pub fn count_in_all<F: FactRows>(
    columns: &mut [Vec<Tally>],
    aggs: &[Agg],
    rows: &F,
    group_slots: &[Option<u32>],
)
    requires columns { length columns.old ≡ length aggs.now }
    requires group_slots { length group_slots.now ≡ length (F.rows rows.now) }
    requires room { HaveRoom aggs.now columns.old (F.rows rows.now) group_slots.now }
    ensures { CountIn aggs.now (F.rows rows.now) group_slots.now columns.old columns.new }
{
    for i in 0..aggs.len() {
        let column = &mut columns[i];
        count_in(column.as_mut_slice(), aggs[i], rows, group_slots);
    }
}

// Merges the tally of a source into that of its target.
fn merge_one(column: &mut [Tally], source: u32, target: u32) -> Result<(), TooLarge>
    requires source { source < length column.old }
    requires target { target < length column.old }
    ensures ok { OnOk result
        (column.new
        ≡ slice_set column.old target (merged_tally (tally_at column.old target) (tally_at column.old source))) }
    ensures err { OnErr result ((tally_at column.old target).count + (tally_at column.old source).count < 2 ^ 63
        → FitsSigned w64 ((tally_at column.old target).sum +ℤ (tally_at column.old source).sum) → ⊥) }
    ensures length { length column.new ≡ length column.old }
{
    let tally = column[source as usize];
    column[target as usize] = column[target as usize].merge(tally)?;
    Ok(())
}

/// Merges the tallies of sources into those of their targets. It takes no memory.
pub fn merge_in(
    column: &mut [Tally],
    sources: &[(u128, u32)],
    targets: &[u32],
) -> Result<(), TooLarge>
    requires targets { length targets.now ≡ length sources.now }
    requires may { LieWithin sources.now targets.now (length column.old) }
    ensures ok { OnOk result ((agg : Agg) (part : ℕ × ℕ → List LineOrder)
        → CanMergeTallies agg column.old sources.now targets.now part
        → AddsIn agg (λ slot. gathered slot part sources.now targets.now) column.old column.new) }
    ensures err { OnErr result ((agg : Agg) (part : ℕ × ℕ → List LineOrder)
        → CanMergeTallies agg column.old sources.now targets.now part
        → HasMergeRoom agg column.old sources.now targets.now part → ⊥) }
    ensures length { length column.new ≡ length column.old }
{
    for place in 0..sources.len() {
        merge_one(column, sources[place].1, targets[place])?;
    }
    Ok(())
}

/// Merges the tallies of sources into those of their targets, in all columns. It takes no memory.
pub fn merge_in_all(
    columns: &mut [Vec<Tally>],
    sources: &[(u128, u32)],
    targets: &[u32],
) -> Result<(), TooLarge>
    requires targets { length targets.now ≡ length sources.now }
    requires may { MayMerge sources.now targets.now columns.old }
    ensures ok { OnOk result (MergesIn sources.now targets.now columns.old columns.new) }
    ensures err { OnErr result (FitMerged sources.now targets.now columns.old → ⊥) }
{
    for i in 0..columns.len() {
        let column = &mut columns[i];
        merge_in(column.as_mut_slice(), sources, targets)?;
    }
    Ok(())
}

/// Columns that have no row, one for each aggregate.
pub fn no_columns(alloc: Global, aggs: &[Agg]) -> Result<Vec<Vec<Tally>>, AllocError>
    ensures { IfOk result (λ columns. (slot : ℕ) → tallies_at columns.items slot ≡ tallies_of aggs.now []) }
{
    let mut columns = Vec::with_capacity(alloc, aggs.len())?;
    for _agg in aggs {
        columns.push(Vec::new(alloc))?;
    }
    Ok(columns)
}

/// Makes a column reach so many slots, if it does not yet. What it has at each slot stays.
pub fn lengthen(column: &mut Vec<Tally>, len: usize) -> Result<(), AllocError>
    ensures same { (slot : ℕ) → tally_at column.new.items slot ≡ tally_at column.old.items slot }
    ensures long { OnOk result (len ≤ length column.new.items) }
{
    if column.len() < len {
        column.resize(len, Tally::none())?;
    }
    Ok(())
}

// Makes each column of a length. What they have at each slot stays.
fn lengthen_all(columns: &mut [Vec<Tally>], len: usize) -> Result<(), AllocError>
    ensures same { (slot : ℕ) → tallies_at columns.new slot ≡ tallies_at columns.old slot }
    ensures long { OnOk result (AllByRecursion (λ column. len ≤ length column.items) columns.new) }
{
    for i in 0..columns.len() {
        lengthen(&mut columns[i], len)?;
    }
    Ok(())
}

/// Makes each column as long as there are slots of groups. What they have at each slot stays.
pub fn make_room(columns: &mut Vec<Vec<Tally>>, slots: &Slots) -> Result<(), AllocError>
    ensures same { (slot : ℕ) → tallies_at columns.new.items slot ≡ tallies_at columns.old.items slot }
    ensures long { OnOk result (AllByRecursion (λ column. length (entries_of slots.now) ≤ length column.items)
        columns.new.items) }
{
    lengthen_all(columns.as_mut_slice(), slots.len())?;
    Ok(())
}

/// The tally at a slot.
pub fn tally_at(column: &[Tally], slot: usize) -> Tally
    ensures { result ≡ tally_at column.now slot }
{
    match column.get(slot) {
        Some(tally) => *tally,
        None => Tally::none(),
    }
}

/// Whether there are rows at a slot.
pub fn is_seen(columns: &[Vec<Tally>], slot: usize) -> bool
    ensures { result ≡ is_seen (tallies_at columns.now slot) }
{
    !columns.is_empty() && all_count(columns, slot)
}

// Whether each tally at a slot counts some row.
fn all_count(columns: &[Vec<Tally>], slot: usize) -> bool
    ensures { result ≡ list_all (λ column. nat_lt 0 (tally_at column.items slot).count) columns.now }
{
    columns
        .iter()
        .all(|column| 0 < tally_at(column.as_slice(), slot).count.get())
}

/// The value of an aggregate, by its place among them.
pub fn value_at(aggs: &[Agg], columns: &[Vec<Tally>], slot: usize, place: usize) -> Value
    requires seen { is_seen (tallies_at columns.now slot) ≡ true }
    requires columns { length columns.now ≡ length aggs.now }
    requires place { place < length aggs.now }
    ensures { result ≡ slice_index_or (values_of aggs.now (tallies_at columns.now slot)) place (Whole (pos 0)) }
{
    let tally = tally_at(columns[place].as_slice(), slot);
    tally.value(aggs[place])
}

/// The values of a line.
pub fn values_of(
    alloc: Global,
    aggs: &[Agg],
    columns: &[Vec<Tally>],
    slot: usize,
) -> Result<Items<Value>, AllocError>
    requires seen { is_seen (tallies_at columns.now slot) ≡ true }
    requires columns { length columns.now ≡ length aggs.now }
    ensures { IfOk result (λ values. values ≡ values_of aggs.now (tallies_at columns.now slot)) }
{
    let mut values = Vec::with_capacity(alloc, aggs.len())?;
    for i in 0..aggs.len() {
        values.push(value_at(aggs, columns, slot, i))?;
    }
    Ok(Items::from_vec(values))
}

/// The same columns once more.
pub fn copy_columns(alloc: Global, columns: &[Vec<Tally>]) -> Result<Vec<Vec<Tally>>, AllocError>
    ensures { IfOk result (λ copy. (slot : ℕ) → tallies_at copy.items slot ≡ tallies_at columns.now slot) }
{
    let mut copy = Vec::with_capacity(alloc, columns.len())?;
    for i in 0..columns.len() {
        copy.push(Vec::from_slice(alloc, columns[i].as_slice())?)?;
    }
    Ok(copy)
}
