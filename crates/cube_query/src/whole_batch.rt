//! The selected rows of a batch, merged into the one group of a query by a mask and sums over columns.
ghost use Rattle.std.specs.Prelude.{◌≡◌, ◌⊎◌, ◌<◌, ◌^◌, ℕ, true, count_by, length, map, nat_abs, slice_set, FitsSigned};
ghost use Rattle.std.specs.Prelude.{IfErr, IfOk, OnErr, OnOk, IsOkUnless};
ghost use Rattle.std.specs.Int.{w64};
ghost use Rattle.std.specs.List.{AllByRecursion, list_all, sum_by};
ghost use Rattle.cube_model.specs.declared.fault.Fault.{Fault};
ghost use Rattle.cube_model.specs.declared.measure.Agg.TheVariants.{Count};
ghost use Rattle.cube_model.specs.Measures.{measure_of};
ghost use Rattle.cube_model.specs.Selection.{is_selected};
ghost use Rattle.column_kernels.specs.Masks.{selected_by};
ghost use Rattle.group_tallies.specs.Columns.{can_add, aggregate_size, tallies_at, tally_at};
ghost use Rattle.group_tallies.specs.Tallies.{merged_tally, aggregated, tally_of};
ghost use Rattle.cube_query.specs.WholeBatch.{HaveRoomAt, has_one_group, is_on_row, tallies_with_rows};

use column_kernels::Mask;
use column_segment::FactColumns;
use cube_model::{Agg, Amount, Cond, Fault, Measure, Query};
use group_numbers::GroupNumbersOver;
use group_tallies::{Tally, TooLarge};
use std::alloc::Global;

/// Whether a query has no column, and no condition on a dimension: a mask tells its rows, and all are in one group.
pub fn has_one_group(query: &Query) -> bool
    ensures { result ≡ has_one_group query.now }
{
    query.columns.is_empty() && are_on_rows(query.conditions.as_slice())
}

// Whether conditions are on numbers of a fact row alone.
fn are_on_rows(conditions: &[Cond]) -> bool
    ensures { result ≡ list_all is_on_row conditions.now }
{
    conditions.iter().all(|condition| is_on_row(condition))
}

// Whether a condition is on a number of a fact row, and on no dimension.
fn is_on_row(condition: &Cond) -> bool
    ensures { result ≡ is_on_row condition.now }
{
    match condition {
        Cond::OneOf(_, _) | Cond::Between(_, _, _) => false,
        Cond::Quantity(_, _) | Cond::Discount(_, _) => true,
    }
}

/// The rows of a batch that a query selects, where it has no condition on a dimension. It can only fail when out of
/// memory.
pub fn selected_rows(
    alloc: Global,
    grouping: &GroupNumbersOver,
    batch: &FactColumns,
) -> Result<Mask, Fault>
    requires { list_all is_on_row grouping.now.query.conditions ≡ true }
    ensures ok { IfOk result
        (λ mask. mask ≡ map (is_selected grouping.now.dimensions grouping.now.query.conditions) batch.now) }
    ensures memory { IsOkUnless result Fault.Memory }
{
    let limits = grouping.bounds();
    let quantity = (limits.least_quantity, limits.greatest_quantity);
    let discount = (limits.least_discount, limits.greatest_discount);
    let mask = batch.mask(alloc, quantity, discount)?;
    prove!(mask.rows() == batch.len());
    Ok(mask)
}

/// Columns with the selected rows of a batch merged in at a slot, next to the columns that they are made from.
/// `BadLayout` where a count or a sum would pass its limit.
pub fn with_batch(
    alloc: Global,
    columns: &[Vec<Tally>],
    aggs: &[Agg],
    slot: u32,
    batch: &FactColumns,
    mask: &Mask,
) -> Result<Vec<Vec<Tally>>, Fault>
    requires columns { length columns.now ≡ length aggs.now }
    requires rows { length mask.now ≡ length batch.now }
    requires within { AllByRecursion (λ column. slot < length column.items) columns.now }
    ensures ok { IfOk result (λ new. (other : ℕ) → tallies_at new.items other
        ≡ tallies_with_rows aggs.now (selected_by mask.now batch.now) slot other (tallies_at columns.now other)) }
    ensures refused { IfErr result (λ fault. (fault ≡ Fault.Memory)
        ⊎ ((fault ≡ Fault.BadLayout) × (HaveRoomAt aggs.now columns.now slot (selected_by mask.now batch.now) → ⊥))) }
{
    let mut merged = Vec::with_capacity(alloc, columns.len())?;
    for place in 0..columns.len() {
        let mut column = Vec::from_slice(alloc, columns[place].as_slice())?;
        match merge_batch(column.as_mut_slice(), aggs[place], slot, batch, mask) {
            Ok(()) => {}
            Err(_) => return Err(Fault::BadLayout),
        }
        merged.push(column)?;
    }
    Ok(merged)
}

// Merges the selected rows of a batch into the tally at a slot.
fn merge_batch(
    column: &mut [Tally],
    agg: Agg,
    slot: u32,
    batch: &FactColumns,
    mask: &Mask,
) -> Result<(), TooLarge>
    requires rows { length mask.now ≡ length batch.now }
    requires within { slot < length column.old }
    ensures ok { OnOk result (column.new ≡ slice_set column.old slot (merged_tally (tally_at column.old slot)
        (tally_of (map (aggregated agg) (selected_by mask.now batch.now))))) }
    ensures err { OnErr result (can_add (tally_at column.old slot) (length (selected_by mask.now batch.now))
        (aggregate_size agg (selected_by mask.now batch.now)) ≡ true → ⊥) }
    ensures length { length column.new ≡ length column.old }
{
    let tally = batch_tally(agg, batch, mask)?;
    column[slot as usize] = column[slot as usize].merge(tally)?;
    Ok(())
}

// The tally of the selected rows of a batch.
fn batch_tally(agg: Agg, batch: &FactColumns, mask: &Mask) -> Result<Tally, TooLarge>
    requires { length mask.now ≡ length batch.now }
    ensures ok { IfOk result (λ tally. tally ≡ tally_of (map (aggregated agg) (selected_by mask.now batch.now))) }
    ensures err { OnErr result (aggregate_size agg (selected_by mask.now batch.now) < 2 ^ 63 → ⊥) }
{
    match agg {
        Agg::Count => Ok(count_tally(batch, mask)),
        Agg::Sum(measure) | Agg::Min(measure) | Agg::Max(measure) | Agg::Avg(measure) => {
            measure_tally(measure, batch, mask)
        }
    }
}

// The tally of which the selected rows of a batch are counted.
fn count_tally(batch: &FactColumns, mask: &Mask) -> Tally
    requires { length mask.now ≡ length batch.now }
    ensures { result ≡ tally_of (map (aggregated Count) (selected_by mask.now batch.now)) }
{
    Tally {
        count: count_of(mask),
        sum: 0,
        least: 0,
        greatest: 0,
    }
}

// The tally of a measure over the selected rows of a batch.
fn measure_tally(measure: Measure, batch: &FactColumns, mask: &Mask) -> Result<Tally, TooLarge>
    requires { length mask.now ≡ length batch.now }
    ensures ok { IfOk result (λ tally. tally ≡ tally_of (map (measure_of measure) (selected_by mask.now batch.now))) }
    ensures err { OnErr result
        (sum_by (λ row. nat_abs (measure_of measure row)) (selected_by mask.now batch.now) < 2 ^ 63
        → ⊥) }
{
    match batch.selected_extremes(measure, mask) {
        None => Ok(Tally::none()),
        Some(ends) => {
            let sum = batch.selected_sum(measure, mask);
            tally_by_parts(count_of(mask), sum, ends.0, ends.1)
        }
    }
}

// A tally by its parts, if they fit it.
fn tally_by_parts(count: Amount, sum: i128, least: i128, greatest: i128) -> Result<Tally, TooLarge>
    ensures ok { IfOk result
        (λ tally. tally ≡ record { count = count; sum = sum; least = least; greatest = greatest }) }
    ensures err { OnErr result (FitsSigned w64 sum → FitsSigned w64 least → FitsSigned w64 greatest → ⊥) }
{
    Ok(Tally {
        count,
        sum: small(sum)?,
        least: small(least)?,
        greatest: small(greatest)?,
    })
}

// A number in 64 bits, if it fits them.
fn small(number: i128) -> Result<i64, TooLarge>
    ensures ok { IfOk result (λ same. same ≡ number) }
    ensures err { OnErr result (FitsSigned w64 number → ⊥) }
{
    match i64::try_from(number) {
        Ok(same) => Ok(same),
        Err(_) => Err(TooLarge),
    }
}

// How many rows a mask selects.
fn count_of(mask: &Mask) -> Amount
    ensures { result ≡ count_by (λ chosen. chosen) mask.now }
{
    Amount::new(u64::from(mask.count()))
}
