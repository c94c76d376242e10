//! The answer that is made of merged lines.
ghost use Rattle.std.specs.Prelude.{◌≡◌, if◌then◌else◌, [], ◌∷◌, map, IfErr, IfOk, MatchOption, IsOkUnless};
ghost use Rattle.std.specs.List.{list_any};
ghost use Rattle.cube_model.specs.declared.answer.Value.TheVariants.{Whole};
ghost use Rattle.cube_model.specs.Proper.{is_average};
ghost use Rattle.partial_reports.specs.Finishing.{FinishRefuses};
ghost use Rattle.partial_reports.specs.Parts.{finished};
ghost use Rattle.partial_reports.specs.Wide.{Rise, narrow_line, narrow_lines};
ghost use Rattle.report_formats.specs.Rows.{counts_averages};
ghost use Rattle.report_merge.specs.Finishing.{asks_for_counts, count_alone, recounted_line};

use crate::ordering::in_order;
use cube_model::{Agg, Answer, Fault, Query};
use partial_reports::{WideLine, finished_lines};
use report_formats::{Format, Layout};
use std::alloc::Global;

/// The report in a layout has the counts of the averages that a query asks for.
pub(crate) fn asks_for_counts(layout: Layout, query: &Query) -> bool
    ensures { result ≡ asks_for_counts layout query.now }
{
    counts_averages(layout) && has_average(query.aggregates.as_slice())
}

// Whether averages are written as their sum and their count.
fn counts_averages(layout: Layout) -> bool
    ensures { result ≡ counts_averages layout }
{
    matches!(layout.format, Format::Json) && layout.decimals.is_none()
}

fn has_average(aggregates: &[Agg]) -> bool
    ensures { result ≡ list_any is_average aggregates.now }
{
    aggregates.iter().any(|agg| agg.is_average())
}

/// The lines of a partial answer as they are, or with the count of each once more after all numbers. It can only fail
/// when out of memory.
#[tactic(auto, using(crate::proofs::FinishingLemmas::recounted_rise))]
pub(crate) fn counted_lines(
    alloc: Global,
    counts: bool,
    lines: Vec<WideLine>,
) -> Result<Vec<WideLine>, Fault>
    requires { Rise lines.items }
    ensures lines { IfOk result
        (λ found. narrow_lines found.items
        ≡ (if counts then map recounted_line (narrow_lines lines.items) else narrow_lines lines.items)) }
    ensures rise { IfOk result (λ found. Rise found.items) }
    ensures only { IsOkUnless result Fault.Memory }
{
    if counts {
        recounted(alloc, lines)
    } else {
        Ok(lines)
    }
}

// The lines with the count of each once more after all numbers.
fn recounted(alloc: Global, lines: Vec<WideLine>) -> Result<Vec<WideLine>, Fault>
    ensures ok { IfOk result (λ found. narrow_lines found.items ≡ map recounted_line (narrow_lines lines.items)) }
    ensures only { IsOkUnless result Fault.Memory }
{
    let mut found = Vec::new(alloc);
    for line in lines {
        found.push(recounted_line(line)?)?;
    }
    Ok(found)
}

fn recounted_line(line: WideLine) -> Result<WideLine, Fault>
    ensures ok { IfOk result (λ found. narrow_line found ≡ recounted_line (narrow_line line)) }
    ensures only { IsOkUnless result Fault.Memory }
{
    let WideLine { key, mut numbers } = line;
    if let Some(count) = count_in(numbers.as_slice()) {
        numbers.push(count)?;
    }
    Ok(WideLine { key, numbers })
}

// The count, which is the first of a line's numbers.
fn count_in(numbers: &[i128]) -> Option<i128>
    ensures { MatchOption result (count_alone (map Whole numbers.now) ≡ [])
        (λ count. count_alone (map Whole numbers.now) ≡ Whole count ∷ []) }
{
    match numbers.split_first() {
        Some((count, _)) => Some(*count),
        None => None,
    }
}

/// The answer to a query over all rows, of the lines of its partial answer. They are in the order of their keys.
///
/// `SumRange` and `TooManyRows` where a number passes 64 bits, `BadLayout` where a line counts no row; or `Memory`.
#[tactic(auto, using(crate::proofs::FinishingLemmas::finished_rise))]
pub(crate) fn finished(alloc: Global, query: &Query, lines: Vec<WideLine>) -> Result<Answer, Fault>
    requires { Rise lines.items }
    ensures ok { IfOk result (λ answer. answer ≡ finished query.now (record { lines = narrow_lines lines.items })) }
    ensures refused { IfErr result (FinishRefuses query.now.aggregates (narrow_lines lines.items)) }
{
    let lines = finished_lines(alloc, query.aggregates.as_slice(), lines)?;
    Ok(Answer {
        lines: in_order(query.order, lines),
    })
}
