//! The numbers of parts.
ghost use Rattle.std.specs.Prelude.{◌≡◌, ◌++◌, true, IfErr, IfNone, IfOk, IfSome};
ghost use Rattle.std.specs.List.{range_with_len};
ghost use Rattle.std.specs.List.Sorted.{IsPermutation, IsStrictlyIncreasing};
ghost use Rattle.partial_reports.specs.Head.{ascend_between};
ghost use Rattle.report_merge.specs.Numbers.{IsFirstGap};
ghost use Rattle.report_merge.specs.Refusals.{AreDisjoint, IsLeastOfBoth, NumbersRefuse};

use crate::refused::Refused;
use cube_model::Items;
use std::alloc::Global;

/// The numbers of some parts of a whole and of others, in ascending order. `Twice` with the least that is in both; or
/// `Memory`.
pub(crate) fn merged_numbers(
    alloc: Global,
    parts: u32,
    ones: &[u32],
    others: &[u32],
) -> Result<Items<u32>, Refused>
    requires ones { ascend_between 0 parts ones.now ≡ true }
    requires others { ascend_between 0 parts others.now ≡ true }
    ensures all { IfOk result (λ both. IsPermutation (ones.now ++ others.now) both) }
    ensures ascend { IfOk result (λ both. ascend_between 0 parts both ≡ true) }
    ensures refused { IfErr result (NumbersRefuse ones.now others.now) }
{
    if let Some(number) = first_in_both(ones, others) {
        return Err(Refused::Twice { number });
    }
    let mut both = Vec::from_slice(alloc, ones)?;
    both.extend_from_slice(others)?;
    both.sort_unstable();
    Ok(Items::from_vec(both))
}

// The first of some numbers in ascending order that is among others, which is the least.
fn first_in_both(ones: &[u32], others: &[u32]) -> Option<u32>
    requires { IsStrictlyIncreasing ones.now }
    ensures some { IfSome result (IsLeastOfBoth ones.now others.now) }
    ensures none { IfNone result (AreDisjoint ones.now others.now) }
{
    for number in ones {
        if others.contains(number) {
            return Some(*number);
        }
    }
    None
}

/// The first number of a part of a whole that is not among some.
pub(crate) fn first_missing(parts: u32, numbers: &[u32]) -> Option<u32>
    requires { ascend_between 0 parts numbers.now ≡ true }
    ensures none { IfNone result (numbers.now ≡ range_with_len 1 parts) }
    ensures some { IfSome result (IsFirstGap parts numbers.now) }
{
    let mut low = 0;
    for number in numbers {
        if *number - low > 1 {
            return Some(low + 1);
        }
        low = *number;
    }
    if low < parts { Some(low + 1) } else { None }
}
