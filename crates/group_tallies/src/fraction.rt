//! Averages, as fractions in lowest terms.
ghost use Rattle.std.specs.Prelude.{◌≡◌, ◌≤◌, ◌<◌, ◌+◌, ℕ, unsigned_abs};
ghost use Rattle.cube_model.specs.Fractions as spec;

use cube_model::Fraction;

// The greatest common divisor, by Euclid's steps.
fn gcd(a: u64, b: u64) -> u64
    ensures value { (steps : ℕ) → b < steps → result ≡ spec.gcd_in steps a b }
    ensures some { 0 < a + b → 0 < result }
{
    if b == 0 { a } else { gcd(b, a % b) }
}

/// The average of a sum over a count, as a fraction in lowest terms.
pub fn fraction_of(sum: i64, count: u64) -> Fraction
    requires { 1 ≤ count }
    ensures { result ≡ spec.fraction_of sum count }
{
    let size = sum.unsigned_abs();
    let divisor = gcd(size, count);
    Fraction {
        numerator: signed(sum, size / divisor),
        denominator: count / divisor,
    }
}

// A size with the sign of a number that is no smaller.
fn signed(number: i64, size: u64) -> i64
    requires { size ≤ unsigned_abs number }
    ensures { result ≡ spec.with_sign_of number size }
{
    if number < 0 {
        (-(size as i128)) as i64
    } else {
        size as i64
    }
}
