//! The lines of a query's answer, of those of its partial answer over all rows.
ghost use Rattle.std.specs.Prelude.{◌≡◌, ◌≤◌, ◌≤ℤ◌, ◌⊎◌, ◌++◌, pos, map, IfErr, IfOk, OnOk};
ghost use Rattle.cube_model.specs.declared.answer.Value.TheVariants.{Whole};
ghost use Rattle.partial_reports.specs.Finishing.{FinishRefuses, IsPastRange, LineRefuses};
ghost use Rattle.partial_reports.specs.Readable.{IsWholeNumber};
ghost use Rattle.partial_reports.specs.Parts.{finished_line, finished_value, finished_values};
ghost use Rattle.partial_reports.specs.Wide.{IsRangeFault, narrow_line, narrow_lines, range_fault};

use crate::wide::WideLine;
use cube_model::{Agg, Fault, Items, Line, Value};
use group_tallies::fraction_of;
use std::alloc::Global;

/// Each line with the values that a query asks for: averages of sums and counts. The lines keep their order.
///
/// `SumRange` where what is kept of a measure passes 64 bits, `TooManyRows` where a count does, `BadLayout` where a
/// line counts no row; or `Memory`.
pub fn finished_lines(
    alloc: Global,
    aggs: &[Agg],
    lines: Vec<WideLine>,
) -> Result<Items<Line>, Fault>
    ensures ok { IfOk result (λ done. done ≡ map (finished_line aggs.now) (narrow_lines lines.items)) }
    ensures refused { IfErr result (FinishRefuses aggs.now (narrow_lines lines.items)) }
{
    let mut done = Items::new(alloc);
    for line in lines {
        done.push(finished_line(alloc, aggs, line)?)?;
    }
    Ok(done)
}

fn finished_line(alloc: Global, aggs: &[Agg], line: WideLine) -> Result<Line, Fault>
    ensures ok { IfOk result (λ done. done ≡ finished_line aggs.now (narrow_line line)) }
    ensures refused { IfErr result (λ fault. (fault ≡ Fault.Memory) ⊎ LineRefuses aggs.now fault (narrow_line line)) }
{
    let WideLine { key, numbers } = line;
    let mut values = Items::new(alloc);
    if let Some((count, kept)) = numbers.as_slice().split_first() {
        push_values(aggs, row_count(*count)?, kept, &mut values)?;
    }
    Ok(Line { key, values })
}

// The count of a line's rows.
fn row_count(count: i128) -> Result<u64, Fault>
    ensures ok { IfOk result (λ rows. count ≡ pos rows) }
    ensures some { IfOk result (λ rows. 1 ≤ rows) }
    ensures refused { IfErr result (λ fault. ((fault ≡ Fault.BadLayout) × (count ≤ℤ pos 0))
        ⊎ ((fault ≡ Fault.TooManyRows) × (IsWholeNumber (Whole count) → ⊥))) }
{
    if count < 1 {
        return Err(Fault::BadLayout);
    }
    if count > i64::MAX as i128 {
        return Err(Fault::TooManyRows);
    }
    Ok(count as u64)
}

// Adds the value of each aggregate.
fn push_values(
    aggs: &[Agg],
    count: u64,
    kept: &[i128],
    values: &mut Items<Value>,
) -> Result<(), Fault>
    requires { 1 ≤ count }
    ensures ok { OnOk result
        (values.new ≡ values.old ++ finished_values aggs.now (Whole (pos count)) (map Whole kept.now)) }
    ensures refused { IfErr result (λ fault. (fault ≡ Fault.Memory) ⊎ IsPastRange fault aggs.now (map Whole kept.now)) }
{
    let Some((agg, aggs)) = aggs.split_first() else {
        return Ok(());
    };
    let Some((first, kept)) = kept.split_first() else {
        return Ok(());
    };
    values.push(finished_value(*agg, count, *first)?)?;
    push_values(aggs, count, kept, values)
}

// The value of an aggregate.
fn finished_value(agg: Agg, count: u64, kept: i128) -> Result<Value, Fault>
    requires { 1 ≤ count }
    ensures ok { IfOk result (λ value. value ≡ finished_value agg (Whole (pos count)) (Whole kept)) }
    ensures refused { IfErr result (IsRangeFault agg kept) }
{
    let Ok(kept) = i64::try_from(kept) else {
        return Err(range_fault(agg));
    };
    match agg {
        Agg::Avg(_) => Ok(Value::Ratio(fraction_of(kept, count))),
        _ => Ok(Value::Whole(kept)),
    }
}

// What is wrong where a number of an aggregate passes 64 bits.
fn range_fault(agg: Agg) -> Fault
    ensures { result ≡ range_fault agg }
{
    match agg {
        Agg::Count => Fault::TooManyRows,
        Agg::Sum(measure) | Agg::Min(measure) | Agg::Max(measure) | Agg::Avg(measure) => {
            Fault::SumRange { measure }
        }
    }
}
