//! Merged lines with numbers of 64 bits.
ghost use Rattle.std.specs.Prelude.{◌≡◌, map, IfErr, IfOk};
ghost use Rattle.cube_model.specs.declared.answer.Value.TheVariants.{Whole};
ghost use Rattle.partial_reports.specs.Wide.{narrow_line, narrow_lines};
ghost use Rattle.report_merge.specs.Ranges.{IsRangeOrMemory};

use cube_model::{Agg, Fault, Items, Line, Member, Value};
use partial_reports::WideLine;
use std::alloc::Global;

/// The lines of a partial answer with a number for each of some aggregates.
///
/// `SumRange` where what is kept of a measure passes 64 bits, `TooManyRows` where a count does; or `Memory`.
pub(crate) fn narrow_lines(
    alloc: Global,
    aggs: &[Agg],
    lines: &[WideLine],
) -> Result<Items<Line>, Fault>
    ensures ok { IfOk result (λ narrow. narrow ≡ narrow_lines lines.now) }
    ensures only { IfErr result IsRangeOrMemory }
{
    let mut narrow = Items::new(alloc);
    for line in lines {
        narrow.push(narrow_line(alloc, aggs, line)?)?;
    }
    Ok(narrow)
}

fn narrow_line(alloc: Global, aggs: &[Agg], line: &WideLine) -> Result<Line, Fault>
    ensures ok { IfOk result (λ narrow. narrow ≡ narrow_line line.now) }
    ensures only { IfErr result IsRangeOrMemory }
{
    let key = copied_key(alloc, line.key.as_slice())?;
    let values = values_of(alloc, aggs, line.numbers.as_slice())?;
    Ok(Line { key, values })
}

// The values that are numbers.
fn values_of(alloc: Global, aggs: &[Agg], numbers: &[i128]) -> Result<Items<Value>, Fault>
    ensures ok { IfOk result (λ values. values ≡ map Whole numbers.now) }
    ensures only { IfErr result IsRangeOrMemory }
{
    let mut values = Items::new(alloc);
    for (place, number) in numbers.iter().enumerate() {
        match i64::try_from(*number) {
            Ok(number) => values.push(Value::Whole(number))?,
            Err(_) => return Err(range_fault(aggs.get(place).copied())),
        }
    }
    Ok(values)
}

// What is wrong where a number of an aggregate passes 64 bits.
fn range_fault(agg: Option<Agg>) -> Fault
    ensures { IsRangeOrMemory result }
{
    match agg {
        None | Some(Agg::Count) => Fault::TooManyRows,
        Some(Agg::Sum(measure))
        | Some(Agg::Min(measure))
        | Some(Agg::Max(measure))
        | Some(Agg::Avg(measure)) => Fault::SumRange { measure },
    }
}

fn copied_key(alloc: Global, key: &[Member]) -> Result<Items<Member>, Fault>
    ensures ok { IfOk result (λ copy. copy ≡ key.now) }
    ensures only { IfErr result IsRangeOrMemory }
{
    let mut copy = Items::new(alloc);
    for member in key {
        copy.push(copied_member(alloc, member)?)?;
    }
    Ok(copy)
}

fn copied_member(alloc: Global, member: &Member) -> Result<Member, Fault>
    ensures ok { IfOk result (λ copy. copy ≡ member.now) }
    ensures only { IfErr result IsRangeOrMemory }
{
    match member {
        Member::Text(text) => {
            let text = Vec::from_slice(alloc, text.as_slice())?;
            Ok(Member::Text(Items::from_vec(text)))
        }
        Member::All => Ok(Member::All),
    }
}
