//! Where a life crashes, and what the disk has kept then.
use rand_core::Rng;
use rand_pcg::Pcg32;
use std::fmt;

/// How many sectors are picked for. Fewer are written between two syncs.
const PICKS: usize = 16;

/// How many ways there are to keep writes at a call.
pub(crate) const WAYS: u64 = 4;

/// A crash: the call of the disk from which on each fails, counted from 1, and which of its contents the disk has kept
/// of each sector that was written since the last sync: 0 for the oldest.
#[derive(Clone, Copy)]
pub(crate) struct Crash {
    pub(crate) call: u64,
    pub(crate) picks: [u32; PICKS],
}

/// Of the sectors that were written since the last sync none was kept, each was, every second one was, or each other
/// one.
static KEPT: [[u32; PICKS]; 4] = [
    [0; PICKS],
    [1; PICKS],
    [0, 1, 0, 1, 0, 1, 0, 1, 0, 1, 0, 1, 0, 1, 0, 1],
    [1, 0, 1, 0, 1, 0, 1, 0, 1, 0, 1, 0, 1, 0, 1, 0],
];

impl Crash {
    /// The crash at a place, from 0: each call in turn, in four ways.
    pub(crate) fn in_turn(place: u64) -> Crash {
        let way = (place % WAYS) as usize;
        Crash {
            call: (place / WAYS).saturating_add(1),
            picks: KEPT[way],
        }
    }

    /// A random crash at one of so many calls.
    pub(crate) fn drawn(draw: &mut Pcg32, calls: u64) -> Crash {
        let call = u64::from(draw.next_u32()).checked_rem(calls).unwrap_or(0);
        let mut picks = [0; PICKS];
        for pick in picks.iter_mut() {
            *pick = draw.next_u32() % 3;
        }
        Crash {
            call: call.saturating_add(1),
            picks,
        }
    }
}

impl fmt::Display for Crash {
    fn fmt<W: fmt::Write>(&self, f: &mut fmt::Formatter<W>) -> fmt::Result {
        let call = self.call;
        let picks = &self.picks;
        write!(f, "call {call}, kept {picks:?}")
    }
}
