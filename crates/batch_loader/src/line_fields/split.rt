//! Splitting a line at its bars.
ghost use Rattle.std.specs.Prelude.{◌≡◌, Some, None, IfSome, MatchOption, MatchResult};
ghost use Rattle.batch_loader.specs.Fields.{AreEnds, fields_of, parts_at, without_cr};
ghost use Rattle.batch_loader.specs.LineFields.{field_texts};

use super::LineFields;
use super::bars::{first_window, next_end};
use cube_model::Fault;

/// The fields of a line with a number. A line spells N fields where it has N parts between its bars, or one more that
/// is empty.
#[inline(always)]
pub fn fields<const N: usize>(line: &[u8], number: u64) -> Result<LineFields<'_, N>, Fault>
    ensures { MatchResult result (λ fields. fields_of N line.now ≡ Some (field_texts fields))
        (λ fault. (fields_of N line.now ≡ None) × (fault ≡ Fault.FieldCount number)) }
{
    let mut ends = [0usize; N];
    match split(line, &mut ends) {
        Some(text) => Ok(LineFields { line: text, ends }),
        None => Err(Fault::FieldCount { line: number }),
    }
}

/// Splits a line, if it spells N fields: the line without its CR, and in `ends` where each field ends.
#[inline(always)]
pub fn split<'a, const N: usize>(line: &'a [u8], ends: &mut [usize; N]) -> Option<&'a [u8]>
    ensures split { MatchOption result (fields_of N line.now ≡ None)
        (λ text. fields_of N line.now ≡ Some (parts_at text.now 0 ends.new)) }
    ensures within { IfSome result (λ text. AreEnds text.now ends.new) }
{
    let text = without_cr(line);
    let mut from = 0;
    let mut window = first_window(text);
    for place in 0..N {
        let Some((end, after)) = next_end(text, from, window) else {
            return None;
        };
        ends[place] = end;
        from = end + 1;
        window = after;
    }
    if from < text.len() {
        return None;
    }
    Some(text)
}

/// A line without its carriage return, if it ends with one.
pub fn without_cr(line: &[u8]) -> &[u8]
    ensures { result.now ≡ without_cr line.now }
{
    let len = line.len();
    if len > 0 && line[len - 1] == b'\r' {
        &line[..len - 1]
    } else {
        line
    }
}
