//! Row indexes in entries, one for each number from a first key on.
//!
//! An entry is 0 for a key that is not there, and otherwise one more than the key's row index.
ghost use Rattle.std.specs.Prelude.{◌≡◌, ◌<◌, ◌≤◌, ◌+◌, ◌^◌, length, nat_eq, vec_len};
ghost use Rattle.std.specs.Prelude.{slice_index, slice_set, if◌then◌else◌, IfOk, IfSome};
ghost use Rattle.std.specs.List.{AllWithin};
ghost use Rattle.dimensions.specs.RowIndexes.{AreRowIndexes, has_entry, row_entered};

use std::alloc::{AllocError, Global};

/// Whether there is an entry for a key.
#[inline(always)]
pub fn has_entry(first: u32, entries: &[u32], key: u32) -> bool
    ensures { result ≡ has_entry first entries.now key }
{
    first <= key && ((key - first) as usize) < entries.len()
}

/// The row index of a key, if it is there.
#[inline(always)]
pub fn row_entered(first: u32, entries: &[u32], key: u32) -> Option<u32>
    ensures { result ≡ row_entered first entries.now key }
{
    if !has_entry(first, entries, key) {
        return None;
    }
    match entries[(key - first) as usize] {
        0 => None,
        entry => Some(entry - 1),
    }
}

/// The first and the last of some keys, if there are any.
pub fn span(keys: &[u32]) -> Option<(u32, u32)>
    ensures order { IfSome result (λ span. span.0 ≤ span.1) }
    ensures within { IfSome result
        (λ span. AllWithin (λ key. (span.0 ≤ key) × (key ≤ span.1)) keys.now 0 (length keys.now)) }
{
    let mut first = *keys.first()?;
    let mut last = first;
    for key in keys {
        first = first.min(*key);
        last = last.max(*key);
    }
    Some((first, last))
}

/// The entries of keys that lie from a first key on, each for its first row.
pub fn entries_of(
    alloc: Global,
    keys: &[u32],
    first: u32,
    width: usize,
) -> Result<Vec<u32>, AllocError>
    requires within { AllWithin (λ key. (first ≤ key) × (key < first + width)) keys.now 0 (length keys.now) }
    requires few { length keys.now < 2 ^ 32 }
    ensures { IfOk result (λ entries. AreRowIndexes (row_entered first entries.items) keys.now) }
{
    let mut entries = vec![in alloc; 0; width]?;
    for row in 0..keys.len() {
        let at = (keys[row] - first) as usize;
        set_entry(&mut entries, at, row as u32);
    }
    Ok(entries)
}

// Writes an entry for a row where there is none.
fn set_entry(entries: &mut Vec<u32>, at: usize, row: u32)
    requires within { at < vec_len entries.old }
    requires few { row < 4294967295 }
    ensures { entries.new.items
        ≡ (if nat_eq (slice_index entries.old.items at) 0 then slice_set entries.old.items at (row + 1) else
        entries.old.items) }
{
    if entries[at] == 0 {
        entries[at] = row + 1;
    }
}
