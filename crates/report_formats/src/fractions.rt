//! Fractions by size.
ghost use Rattle.std.specs.Prelude.{◌≡◌, ◌*ℤ◌, max, pos};
ghost use Rattle.report_formats.specs.Sorting.{fraction_cmp, fraction_in, quotient};

use cube_model::{Fraction, Value};
use std::cmp::Ordering;

/// A value as a fraction.
pub(crate) fn fraction_in(value: Value) -> Fraction
    ensures { result ≡ fraction_in value }
{
    match value {
        Value::Whole(number) => Fraction {
            numerator: number,
            denominator: 1,
        },
        Value::Ratio(fraction) => fraction,
    }
}

/// The average of a sum over a count.
pub(crate) fn quotient(sum: Value, count: Value) -> Fraction
    ensures { result ≡ quotient sum count }
{
    Fraction {
        numerator: fraction_in(sum).numerator,
        denominator: fraction_in(count).numerator.unsigned_abs(),
    }
}

/// Compares fractions exactly: nothing is divided.
pub(crate) fn compare_fractions(left: Fraction, right: Fraction) -> Ordering
    ensures { result ≡ fraction_cmp left right }
{
    cross(left.numerator, right.denominator).cmp(&cross(right.numerator, left.denominator))
}

// A numerator times the other denominator.
fn cross(numerator: i64, denominator: u64) -> i128
    ensures { result ≡ numerator *ℤ pos (max denominator 1) }
{
    i128::from(numerator) * i128::from(denominator.max(1))
}
