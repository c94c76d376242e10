//! The cell of one fact row.
ghost use Rattle.std.specs.Prelude.{◌≡◌, ◌<◌, ℕ, List, [], ◌∷◌, IfErr, IfNone, IfOk, IfSome, length};
ghost use Rattle.cube_model.specs.declared.fault.Fault.{Fault};
ghost use Rattle.cube_model.specs.declared.rows.DimRows.{DimRows};
ghost use Rattle.group_numbers.specs.Rows.{row_at};
ghost use Rattle.lattice.specs.declared.view.View.{View};
ghost use Rattle.cuboid_cells.specs.Cells.{SummariesFit, SummaryFits};
ghost use Rattle.cuboid_upkeep.specs.Grouping.{summaries_over, summary_over};
ghost use Rattle.cuboid_upkeep.specs.Steps.{HasNoCell, IsCellOfRow, IsRowKey};

use cube_model::{Fault, Measure};
use cuboid_cells::{Cell, Key, Summaries, Summary};
use group_numbers::FactRows;

// The cell of the row at a place, whose key it is. `BadLayout` where a number passes its type.
#[inline(always)]
pub(crate) fn row_cell<F: FactRows>(key: Key, rows: &F, place: usize) -> Result<Cell, Fault>
    requires { place < length (F.rows rows.now) }
    ensures ok { IfOk result (λ cell. (dimensions : DimRows) (modes : List (List ℕ)) (view : View)
        → IsRowKey dimensions modes view (row_at (F.rows rows.now) place) key
        → IsCellOfRow dimensions modes view (row_at (F.rows rows.now) place) cell) }
    ensures refused { IfErr result (λ fault. (fault ≡ Fault.BadLayout)
        × ((dimensions : DimRows) (modes : List (List ℕ)) (view : View)
        → HasNoCell dimensions modes view (row_at (F.rows rows.now) place))) }
{
    let Some(measures) = row_summaries(rows, place) else {
        return Err(Fault::BadLayout);
    };
    Ok(Cell {
        key,
        count: 1,
        measures,
    })
}

// What is kept of the measures of the row at a place. Nothing where a number passes its type.
#[inline(always)]
fn row_summaries<F: FactRows>(rows: &F, place: usize) -> Option<Summaries>
    requires { place < length (F.rows rows.now) }
    ensures some { IfSome result (λ measures. measures ≡ summaries_over (row_at (F.rows rows.now) place ∷ [])) }
    ensures fit { IfSome result SummariesFit }
    ensures none { IfNone result (SummariesFit (summaries_over (row_at (F.rows rows.now) place ∷ [])) → ⊥) }
{
    let (quantity, extendedprice, revenue) = three_summaries(
        rows,
        place,
        Measure::Quantity,
        Measure::ExtendedPrice,
        Measure::Revenue,
    )?;
    let (supplycost, discounted, profit) = three_summaries(
        rows,
        place,
        Measure::SupplyCost,
        Measure::Discounted,
        Measure::Profit,
    )?;
    Some(Summaries {
        quantity,
        extendedprice,
        revenue,
        supplycost,
        discounted,
        profit,
    })
}

// What is kept of three of them.
#[inline(always)]
fn three_summaries<F: FactRows>(
    rows: &F,
    place: usize,
    first: Measure,
    second: Measure,
    third: Measure,
) -> Option<(Summary, Summary, Summary)>
    requires { place < length (F.rows rows.now) }
    ensures some { IfSome result (λ three. (three.0 ≡ summary_over first (row_at (F.rows rows.now) place ∷ []))
        × (three.1 ≡ summary_over second (row_at (F.rows rows.now) place ∷ []))
        × (three.2 ≡ summary_over third (row_at (F.rows rows.now) place ∷ []))) }
    ensures fit { IfSome result (λ three. SummaryFits three.0 × SummaryFits three.1 × SummaryFits three.2) }
    ensures none { IfNone result (SummaryFits (summary_over first (row_at (F.rows rows.now) place ∷ []))
        → SummaryFits (summary_over second (row_at (F.rows rows.now) place ∷ []))
        → SummaryFits (summary_over third (row_at (F.rows rows.now) place ∷ [])) → ⊥) }
{
    Some((
        row_summary(rows, place, first)?,
        row_summary(rows, place, second)?,
        row_summary(rows, place, third)?,
    ))
}

// What is kept of one measure of the row at a place.
#[inline(always)]
fn row_summary<F: FactRows>(rows: &F, place: usize, measure: Measure) -> Option<Summary>
    requires { place < length (F.rows rows.now) }
    ensures some { IfSome result (λ summary. summary ≡ summary_over measure (row_at (F.rows rows.now) place ∷ [])) }
    ensures fits { IfSome result SummaryFits }
    ensures none { IfNone result (SummaryFits (summary_over measure (row_at (F.rows rows.now) place ∷ [])) → ⊥) }
{
    let number = i64::try_from(rows.measure(place, measure)).ok()?;
    Some(Summary {
        sum: number,
        least: number,
        greatest: number,
    })
}
