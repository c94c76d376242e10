//! Number fields.
ghost use Rattle.std.specs.Prelude.{◌≡◌, ◌≤◌, ◌<◌, ◌+◌, length, slice_range};
ghost use Rattle.batch_loader.specs.Numbers.{number_spelled};

mod few;
mod short;

pub use few::few_digits_between;
use short::{are_digits, short_value};

/// The number up to a limit that a part of a text spells, if it spells one.
#[inline(always)]
pub fn number_between(text: &[u8], start: usize, end: usize, limit: u64) -> Option<u64>
    requires order { start ≤ end }
    requires within { end ≤ length text.now }
    ensures { result ≡ number_spelled limit (slice_range text.now start end) }
{
    let count = end - start;
    if count == 0 || count > 8 || start + 8 > text.len() || !are_digits(text, start, count) {
        return number(&text[start..end], limit);
    }
    let value = short_value(text, start, count);
    if value > limit {
        return None;
    }
    Some(value)
}

/// The number up to a limit that a field spells, if it spells one.
fn number(text: &[u8], limit: u64) -> Option<u64>
    ensures { result ≡ number_spelled limit text.now }
{
    if text.is_empty() {
        return None;
    }
    let mut value = 0u64;
    for i in 0..text.len() {
        let byte = text[i];
        if byte < b'0' || byte > b'9' {
            return None;
        }
        let Some(tens) = value.checked_mul(10) else {
            return None;
        };
        let Some(next) = tens.checked_add(u64::from(byte - b'0')) else {
            return None;
        };
        value = next;
    }
    if value > limit {
        return None;
    }
    Some(value)
}
