//! Averages as decimals.
ghost use Rattle.std.specs.Prelude.{◌≡◌, ◌≤◌, ◌^◌, drop};
ghost use Rattle.report_formats.specs.Decimals.{decimal_text, point_of, rounded, sign_of, units_text};
ghost use Rattle.ssb_reports.specs.Writing.{Writes};

use cube_model::{Fault, Fraction};
use itoa::Buffer;
use ssb_reports::{write_bytes, write_parts};
use std::io::Write;

/// Hands a writer a fraction with so many digits after the point, rounded to the nearest, and to the greater size where
/// two are as near.
pub(crate) fn write_decimal<W: Write>(
    out: &mut W,
    digits: u32,
    fraction: Fraction,
) -> Result<(), Fault>
    requires { digits ≤ 18 }
    ensures { Writes (W.contents out.old) (W.contents out.new) result (decimal_text digits fraction) }
{
    let units = rounded(scale_of(digits), fraction);
    write_bytes(out, sign_of(fraction, units))?;
    write_units(out, digits, units)
}

// How many units make 1.
fn scale_of(digits: u32) -> u64
    requires { digits ≤ 18 }
    ensures value { result ≡ 10 ^ digits }
    ensures some { 1 ≤ result }
    ensures few { result ≤ 10 ^ 18 }
{
    10u64.pow(digits)
}

fn rounded(scale: u64, fraction: Fraction) -> u128
    ensures { result ≡ rounded scale fraction }
{
    let size = u128::from(fraction.numerator.unsigned_abs()) * u128::from(scale);
    let divisor = u128::from(fraction.denominator.max(1));
    size / divisor + u128::from(divisor <= 2 * (size % divisor))
}

fn sign_of(fraction: Fraction, units: u128) -> &'static [u8]
    ensures { result.now ≡ sign_of fraction.numerator units }
{
    if fraction.numerator < 0 && units > 0 {
        b"-"
    } else {
        b""
    }
}

// Hands a writer so many units as a decimal.
fn write_units<W: Write>(out: &mut W, digits: u32, units: u128) -> Result<(), Fault>
    requires { digits ≤ 18 }
    ensures { Writes (W.contents out.old) (W.contents out.new) result (units_text digits units) }
{
    let scale = u128::from(scale_of(digits));
    let (mut whole, mut rest) = (Buffer::new(), Buffer::new());
    let parts: [&[u8]; 3] = [
        whole.format(units / scale).as_bytes(),
        point(digits),
        after_first(rest.format(scale + units % scale).as_bytes()),
    ];
    write_parts(out, &parts)
}

// What is between the whole part and the digits after it.
fn point(digits: u32) -> &'static [u8]
    ensures { result.now ≡ point_of digits }
{
    if digits == 0 { b"" } else { b"." }
}

fn after_first(text: &[u8]) -> &[u8]
    ensures { result.now ≡ drop 1 text.now }
{
    match text {
        [_, rest @ ..] => rest,
        [] => text,
    }
}
