//! Keys that are consecutive from a first one, as those of the generator's customers, suppliers and parts are.
ghost use Rattle.std.specs.Prelude.{◌≡◌, ◌==◌, ◌+◌, ◌^◌, ◌≤◌, ℕ, List, IfSome, IsTrue, length};
ghost use Rattle.std.specs.List.{position_or_len};
ghost use Rattle.dimensions.specs.RowIndexes.{CountOn};

/// The first of some keys, if each other is one more than the one before it.
pub fn first_counted(keys: &[u32]) -> Option<u32>
    ensures { IfSome result (λ first. CountOn first keys.now) }
{
    let first = *keys.first()?;
    let last = *keys.last()?;
    if last < first || (last - first) as usize + 1 != keys.len() {
        return None;
    }
    if !count_on(keys, first) {
        return None;
    }
    Some(first)
}

// Whether keys are consecutive from a first one. The loop never ends early, so that it works on many keys at once.
fn count_on(keys: &[u32], first: u32) -> bool
    requires { first + length keys.now ≤ 2 ^ 32 }
    ensures { IsTrue result → CountOn first keys.now }
{
    let mut fine = true;
    for (row, key) in keys.iter().enumerate() {
        fine = fine & (*key == first + row as u32);
    }
    fine
}

/// Whether a key is the next one after so many that are consecutive from a first one.
pub fn counts_next(first: u32, count: usize, key: u32) -> bool
    ensures { IsTrue result → key ≡ first + count }
{
    first <= key && (key - first) as usize == count
}

/// Where a key is among so many that are consecutive from a first one, or how many they are where it is none of them.
/// No memory is read.
#[inline(always)]
pub fn place_counted(first: u32, count: usize, key: u32) -> usize
    ensures { (keys : List ℕ) → CountOn first keys → length keys ≡ count
        → result ≡ position_or_len (λ other. other == key) keys }
{
    if key < first {
        return count;
    }
    let place = (key - first) as usize;
    place.min(count)
}
