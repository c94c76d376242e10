//! Numbers of one digit or two.
ghost use Rattle.std.specs.Prelude.{◌≡◌, ◌≤◌, ◌-◌, ◌∷◌, [], None, true, false, IfSome, length, slice_range};
ghost use Rattle.batch_loader.specs.Numbers.{is_digit, number_spelled};

use super::number_between;

/// The number up to a limit that a part of a text spells, if it spells one. It is decided sooner where it has one digit
/// or two.
#[inline(always)]
pub fn few_digits_between(text: &[u8], start: usize, end: usize, limit: u64) -> Option<u64>
    requires order { start ≤ end }
    requires within { end ≤ length text.now }
    ensures { result ≡ number_spelled limit (slice_range text.now start end) }
{
    match end - start {
        1 => one_digit(text[start], limit),
        2 => two_digits(text[start], text[start + 1], limit),
        _ => other_number(text, start, end, limit),
    }
}

/// The number up to a limit that one byte spells, if it spells one.
#[inline(always)]
fn one_digit(byte: u8, limit: u64) -> Option<u64>
    ensures { result ≡ number_spelled limit (byte ∷ []) }
{
    let value = digit(byte)?;
    if value > limit {
        return None;
    }
    Some(value)
}

/// The same of two bytes.
#[inline(always)]
fn two_digits(first: u8, second: u8, limit: u64) -> Option<u64>
    ensures { result ≡ number_spelled limit (first ∷ second ∷ []) }
{
    let value = 10 * digit(first)? + digit(second)?;
    if value > limit {
        return None;
    }
    Some(value)
}

/// The same of more bytes, or none.
#[inline(never)]
fn other_number(text: &[u8], start: usize, end: usize, limit: u64) -> Option<u64>
    requires order { start ≤ end }
    requires within { end ≤ length text.now }
    ensures { result ≡ number_spelled limit (slice_range text.now start end) }
{
    number_between(text, start, end, limit)
}

/// The value of a digit, if a byte is one.
#[inline(always)]
fn digit(byte: u8) -> Option<u64>
    ensures is { IfSome result (λ value. is_digit byte ≡ true × value ≡ byte - 48) }
    ensures none { result ≡ None → is_digit byte ≡ false }
    ensures small { IfSome result (λ value. value ≤ 9) }
{
    if byte < b'0' || byte > b'9' {
        return None;
    }
    Some(u64::from(byte - b'0'))
}
