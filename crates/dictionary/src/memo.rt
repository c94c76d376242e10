//! Where texts were found, so that a text that comes again is looked for there first.

use std::alloc::Global;

// How many places are kept.
const PLACES: usize = 8192;

// Spreads numbers that lie close together: 2 to the power of 64 by the golden ratio.
const SPREAD: u64 = 11_400_714_819_323_198_485;

/// A place for each of some thousand marks, where a text of that mark was found last. It is a guess, and nothing rests
/// on it: a text has to be compared with the one that is there.
#[derive(Drop)]
pub(crate) struct Memo {
    places: Vec<u16>,
}

impl Memo {
    // No place. It needs no memory until the first one is kept.
    pub(crate) fn new(alloc: Global) -> Memo {
        Memo {
            places: Vec::new(alloc),
        }
    }

    // Where a text may be.
    #[inline(always)]
    pub(crate) fn guess(&self, text: &[u8]) -> usize {
        match self.places.get(mark_of(text)) {
            Some(place) => usize::from(*place),
            None => 0,
        }
    }

    // Keeps where a text is, if there is memory for it.
    pub(crate) fn keep(&mut self, text: &[u8], place: usize) {
        if self.places.is_empty() && self.places.resize(PLACES, 0).is_err() {
            return;
        }
        if let Some(kept) = self.places.get_mut(mark_of(text)) {
            *kept = u16::try_from(place).unwrap_or(0);
        }
    }
}

// A number below that of the places, made of a text's ends: mostly another one for another text.
#[inline(always)]
fn mark_of(text: &[u8]) -> usize {
    (word_of(text).wrapping_mul(SPREAD) >> 51) as usize
}

// The last eight bytes of a text, or of a short one its first and last four, or its last alone.
#[inline(always)]
fn word_of(text: &[u8]) -> u64 {
    if let Some(end) = text.last_chunk::<8>() {
        return u64::from_le_bytes(*end);
    }
    match (text.first_chunk::<4>(), text.last_chunk::<4>()) {
        (Some(start), Some(end)) => {
            u64::from(u32::from_le_bytes(*start)) << 32 | u64::from(u32::from_le_bytes(*end))
        }
        _ => text.last().map_or(0, |byte| u64::from(*byte)),
    }
}
