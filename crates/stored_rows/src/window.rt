//! Passing over the texts of a dictionary that are whole in bytes read ahead.
ghost use Rattle.std.specs.Prelude.{◌≡◌, ◌+◌, ◌-◌, ◌<◌, ◌≤◌, ℕ, List, drop, length, slice_index, take, IfSome, IsNone};
ghost use Rattle.stored_rows.specs.Passing.{BeginsWithTexts, window_bytes};

/// How many bytes of a dictionary are read at a time: a sector. The longest text and its length have 256.
pub(crate) const WINDOW_BYTES: usize = 512;

/// What was passed over: how many texts, and how many bytes they take.
#[derive(Clone, Copy)]
pub(crate) struct Passed {
    pub(crate) texts: u32,
    pub(crate) bytes: usize,
}

/// Passes over the texts at the front of a window, as many as are whole in it, or as many as are wanted.
pub(crate) fn pass_texts(window: &[u8], wanted: u32) -> Passed
    ensures few { result.texts ≤ wanted }
    ensures within { result.bytes ≤ length window.now }
    ensures passed { (all rest : List ℕ) → window.now ≡ take window_bytes all → BeginsWithTexts wanted all rest
        → BeginsWithTexts (wanted - result.texts) (drop result.bytes all) rest }

    // One text at least is whole.
    ensures none { result.texts ≡ 0 → 0 < wanted → (all rest : List ℕ) → window.now ≡ take window_bytes all
        → BeginsWithTexts wanted all rest → ⊥ }
{
    let mut texts = 0;
    let mut bytes = 0;
    while texts < wanted {
        let Some(end) = text_end(window, bytes) else {
            break;
        };
        texts += 1;
        bytes = end;
    }
    Passed { texts, bytes }
}

// Where the text ends that begins at a place, if it is whole.
fn text_end(window: &[u8], at: usize) -> Option<usize>
    ensures some { IfSome result (λ end. (end ≡ at + (1 + slice_index window.now at)) × (at < length window.now)
        × (end ≤ length window.now)) }
    ensures none { IsNone result → length window.now < at + (1 + slice_index window.now at) }
{
    let count = window.get(at)?;
    let end = at + 1 + usize::from(*count);
    if end > window.len() {
        return None;
    }
    Some(end)
}
