//! Merging partial answers.
ghost use Rattle.std.specs.Prelude.{◌≡◌, ◌⊎◌, None, [], ◌++◌, map, IfErr, IfOk, IfSome, IfNone, OnOk};
ghost use Rattle.cube_model.specs.Ascending.{IsAscending};
ghost use Rattle.cube_model.specs.Orders.{answer_cmp};
ghost use Rattle.cube_model.specs.declared.answer.Value.TheVariants.{Whole};
ghost use Rattle.partial_reports.specs.Merges.{merged_answer, merged_line, merged_lines, merged_number, merged_values};
ghost use Rattle.partial_reports.specs.Wide.{IsMergeOfBoth, IsMergeStep, Rise, front_cmp, narrow_line, narrow_lines};

use crate::wide::{WideLine, widened};
use cube_model::{Agg, Answer, Fault, Items, Query};
use std::alloc::Global;
use std::cmp::Ordering;
use std::collections::VecDeque;

/// The lines of two partial answers as one: the line of a key is the merge of the lines of that key. No line of one key
/// alone is copied.
///
/// `Memory`; and `TooManyRows` where a number would pass 128 bits, which those of 1,024 parts do not.
#[tactic(auto, using(crate::proofs::MergingLemmas::lines_merged))]
pub fn merge(
    alloc: Global,
    aggs: &[Agg],
    ones: Vec<WideLine>,
    others: Vec<WideLine>,
) -> Result<Vec<WideLine>, Fault>
    requires ones { Rise ones.items }
    requires others { Rise others.items }
    ensures ok { IfOk result
        (λ lines. narrow_lines lines.items ≡ merged_lines aggs.now (narrow_lines ones.items)
        (narrow_lines others.items)) }
    ensures rising { IfOk result (λ lines. Rise lines.items) }
    ensures only { IfErr result (λ fault. (fault ≡ Fault.Memory) ⊎ (fault ≡ Fault.TooManyRows)) }
{
    let mut lines = Vec::new(alloc);
    let mut left = VecDeque::from_vec(ones);
    let mut right = VecDeque::from_vec(others);
    for _ in 0..u64::MAX {
        let Some(line) = next_line(alloc, aggs, &mut left, &mut right)? else {
            return Ok(lines);
        };
        lines.push(line)?;
    }
    Err(Fault::Memory)
}

/// The lines of some partial answers merged, and of one more. The answer's lines are in the order of their keys.
///
/// `Memory`; `BadLayout` where a value is no whole number; and `TooManyRows` where a number would pass 128 bits.
#[tactic(auto, using(crate::proofs::MergingLemmas::same_rise))]
pub fn merge_in(
    alloc: Global,
    query: &Query,
    merged: Vec<WideLine>,
    answer: Answer,
) -> Result<Vec<WideLine>, Fault>
    requires merged { Rise merged.items }
    requires answer { IsAscending (answer_cmp None) answer.lines }
    ensures ok { IfOk result
        (λ lines. narrow_lines lines.items
        ≡ (merged_answer query.now (record { lines = narrow_lines merged.items }) answer).lines) }
    ensures rising { IfOk result (λ lines. Rise lines.items) }
{
    let others = widened(alloc, answer.lines)?;
    merge(alloc, query.aggregates.as_slice(), merged, others)
}

// Takes the next line of the merge of two lists, if either has one.
fn next_line(
    alloc: Global,
    aggs: &[Agg],
    ones: &mut VecDeque<WideLine>,
    others: &mut VecDeque<WideLine>,
) -> Result<Option<WideLine>, Fault>
    requires ones { Rise ones.old.items }
    requires others { Rise others.old.items }
    ensures some { IfOk result
        (λ line. IfSome line
        (λ line. IsMergeStep aggs.now ones.old.items others.old.items line ones.new.items others.new.items)) }
    ensures none { IfOk result (λ line. IfNone line ((ones.old.items ≡ []) × (others.old.items ≡ []))) }
    ensures only { IfErr result (λ fault. (fault ≡ Fault.Memory) ⊎ (fault ≡ Fault.TooManyRows)) }
{
    match compare_fronts(ones, others) {
        Ordering::Less => Ok(ones.pop_front()),
        Ordering::Greater => Ok(others.pop_front()),
        Ordering::Equal => merged_if_both(alloc, aggs, ones.pop_front(), others.pop_front()),
    }
}

// Compares the first lines of two lists by their keys. What is missing comes last.
fn compare_fronts(ones: &VecDeque<WideLine>, others: &VecDeque<WideLine>) -> Ordering
    ensures { result ≡ front_cmp ones.now.items others.now.items }
{
    match (ones.front(), others.front()) {
        (Some(one), Some(other)) => one.key.cmp(&other.key),
        (Some(_), None) => Ordering::Less,
        (None, _) => Ordering::Greater,
    }
}

// Two lines of one key as one, where both are there.
fn merged_if_both(
    alloc: Global,
    aggs: &[Agg],
    one: Option<WideLine>,
    other: Option<WideLine>,
) -> Result<Option<WideLine>, Fault>
    ensures ok { IfOk result (λ line. IsMergeOfBoth aggs.now one other line) }
    ensures only { IfErr result (λ fault. (fault ≡ Fault.Memory) ⊎ (fault ≡ Fault.TooManyRows)) }
{
    match (one, other) {
        (Some(one), Some(other)) => Ok(Some(merged_line(alloc, aggs, one, &other)?)),
        _ => Ok(None),
    }
}

// Two lines of one key as one. The key is that of the first.
fn merged_line(
    alloc: Global,
    aggs: &[Agg],
    one: WideLine,
    other: &WideLine,
) -> Result<WideLine, Fault>
    ensures ok { IfOk result
        (λ line. narrow_line line ≡ merged_line aggs.now (narrow_line one) (narrow_line other.now)) }
    ensures only { IfErr result (λ fault. (fault ≡ Fault.Memory) ⊎ (fault ≡ Fault.TooManyRows)) }
{
    let WideLine { key, numbers: ones } = one;
    let mut numbers = Items::new(alloc);
    push_merged(
        aggs,
        ones.as_slice(),
        other.numbers.as_slice(),
        &mut numbers,
    )?;
    Ok(WideLine { key, numbers })
}

// Adds the numbers of two lines, one for each aggregate.
fn push_merged(
    aggs: &[Agg],
    ones: &[i128],
    others: &[i128],
    numbers: &mut Items<i128>,
) -> Result<(), Fault>
    ensures ok { OnOk result
        (map Whole numbers.new ≡ map Whole numbers.old
        ++ merged_values aggs.now (map Whole ones.now) (map Whole others.now)) }
    ensures only { IfErr result (λ fault. (fault ≡ Fault.Memory) ⊎ (fault ≡ Fault.TooManyRows)) }
{
    let Some((agg, aggs)) = aggs.split_first() else {
        return Ok(());
    };
    let Some((one, ones)) = ones.split_first() else {
        return Ok(());
    };
    let Some((other, others)) = others.split_first() else {
        return Ok(());
    };
    numbers.push(merged_number(*agg, *one, *other)?)?;
    push_merged(aggs, ones, others, numbers)
}

// Two numbers of one aggregate as one.
fn merged_number(agg: Agg, one: i128, other: i128) -> Result<i128, Fault>
    ensures ok { IfOk result (λ number. number ≡ merged_number agg one other) }
    ensures only { IfErr result (λ fault. fault ≡ Fault.TooManyRows) }
{
    match agg {
        Agg::Count | Agg::Sum(_) => one.checked_add(other).ok_or(Fault::TooManyRows),
        Agg::Min(_) => Ok(one.min(other)),
        Agg::Max(_) => Ok(one.max(other)),
        Agg::Avg(_) => Ok(one),
    }
}
