//! A cell of a cuboid, merged into the tallies at the slot of its group.
ghost use Rattle.std.specs.Prelude.{◌≡◌, ◌≢◌, ◌≤◌, ◌<◌, ◌^◌, ℕ, [], ◌∷◌, length, slice_set, Some, Err, IfErr};
ghost use Rattle.std.specs.Prelude.{IfOk, OnErr, OnOk};
ghost use Rattle.group_tallies.specs.Limits.{EndsFolding};
ghost use Rattle.cube_query.specs.CellTallies.{cell_tally, counted, summary_in, with_cells, HasRoomForCells};
ghost use Rattle.cube_query.specs.CellTallies.{HaveRoomFor};
ghost use Rattle.cube_query.specs.CellTallies.{MergesCells};
ghost use Rattle.group_tallies.specs.Columns.{tallies_at, tally_at};
ghost use Rattle.group_tallies.specs.Tallies.{merged_tally};

use cube_model::{Agg, Amount, Fault, Measure};
use cuboid_cells::{Cell, Summaries, Summary};
use group_tallies::{LIMIT, Tally, TooLarge, lengthen};

/// Merges a cell in at a slot of each column. A column that does not reach the slot is made longer.
///
/// `BadLayout` says that a tally cannot take the cell. What the columns have at the slot after a refusal is not said.
pub fn merge_cell(
    columns: &mut [Vec<Tally>],
    aggs: &[Agg],
    cell: &Cell,
    slot: u32,
) -> Result<(), Fault>
    requires { length columns.old ≡ length aggs.now }
    ensures merged { OnOk result ((other : ℕ) → tallies_at columns.new other
        ≡ with_cells aggs.now other (cell.now ∷ []) (Some slot ∷ []) (tallies_at columns.old other)) }
    ensures refused { result ≡ Err Fault.BadLayout
        → HaveRoomFor aggs.now (cell.now ∷ []) (tallies_at columns.old slot) → ⊥ }
    ensures others { (other : ℕ) → other ≢ slot → tallies_at columns.new other ≡ tallies_at columns.old other }
    ensures only { IfErr result EndsFolding }
{
    for i in 0..aggs.len() {
        merge_in_column(&mut columns[i], aggs[i], cell, slot)?;
    }
    Ok(())
}

// Merges a cell in at a slot of a column, which is made longer if it does not reach the slot.
fn merge_in_column(column: &mut Vec<Tally>, agg: Agg, cell: &Cell, slot: u32) -> Result<(), Fault>
    ensures merged { OnOk result (MergesCells agg (cell.now ∷ []) (Some slot ∷ []) column.old.items column.new.items) }
    ensures refused { result ≡ Err Fault.BadLayout
        → HasRoomForCells agg (cell.now ∷ []) (tally_at column.old.items slot)
        → ⊥ }
    ensures others { (other : ℕ) → other ≢ slot → tally_at column.new.items other ≡ tally_at column.old.items other }
    ensures only { IfErr result EndsFolding }
{
    lengthen(column, slot as usize + 1)?;
    match merge_at(column.as_mut_slice(), agg, cell, slot) {
        Ok(()) => Ok(()),
        Err(TooLarge) => Err(Fault::BadLayout),
    }
}

// Merges a cell in at a slot of a column that reaches the slot.
fn merge_at(column: &mut [Tally], agg: Agg, cell: &Cell, slot: u32) -> Result<(), TooLarge>
    requires { slot < length column.old }
    ensures ok { OnOk result (column.new
        ≡ slice_set column.old slot (merged_tally (tally_at column.old slot) (cell_tally agg cell.now))) }
    ensures err { OnErr result (HasRoomForCells agg (cell.now ∷ []) (tally_at column.old slot) → ⊥) }
    ensures same { OnErr result (column.new ≡ column.old) }
{
    let tally = cell_tally(agg, cell)?;
    column[slot as usize] = column[slot as usize].merge(tally)?;
    Ok(())
}

// The tally of the rows of a cell, unless they are too many.
fn cell_tally(agg: Agg, cell: &Cell) -> Result<Tally, TooLarge>
    ensures ok { IfOk result (λ tally. tally ≡ cell_tally agg cell.now) }
    ensures err { OnErr result (2 ^ 63 ≤ cell.now.count) }
{
    if cell.count >= LIMIT {
        return Err(TooLarge);
    }
    let count = Amount::new(cell.count);
    match agg {
        Agg::Count => Ok(Tally {
            count,
            sum: 0,
            least: 0,
            greatest: 0,
        }),
        Agg::Sum(measure) | Agg::Min(measure) | Agg::Max(measure) | Agg::Avg(measure) => {
            Ok(tally_of(count, summary_in(&cell.measures, measure)))
        }
    }
}

// A summary over so many rows, as a tally.
fn tally_of(count: Amount, summary: Summary) -> Tally
    ensures { result ≡ counted count summary }
{
    Tally {
        count,
        sum: summary.sum,
        least: summary.least,
        greatest: summary.greatest,
    }
}

// What is kept of a measure.
fn summary_in(measures: &Summaries, measure: Measure) -> Summary
    ensures { result ≡ summary_in measures.now measure }
{
    match measure {
        Measure::Quantity => measures.quantity,
        Measure::ExtendedPrice => measures.extendedprice,
        Measure::Revenue => measures.revenue,
        Measure::SupplyCost => measures.supplycost,
        Measure::Discounted => measures.discounted,
        Measure::Profit => measures.profit,
    }
}
