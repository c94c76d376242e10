//! Random numbers.
ghost use Rattle.std.specs.Prelude.{◌≤◌, ◌<◌, ◌^◌};

use std::marker::Model;

/// SplitMix64 (Steele, Lea, Flood 2014): the same seed gives the same numbers.
#[derive(Clone, Copy)]
pub struct Random {
    state: u64,
}

impl Random {
    /// The numbers of a seed.
    pub fn new(seed: u64) -> Random {
        Random { state: seed }
    }

    fn next(&mut self) -> u64 {
        self.state = self.state.wrapping_add(0x9E37_79B9_7F4A_7C15);
        let x = (self.state ^ (self.state >> 30)).wrapping_mul(0xBF58_476D_1CE4_E5B9);
        let x = (x ^ (x >> 27)).wrapping_mul(0x94D0_49BB_1331_11EB);
        x ^ (x >> 31)
    }

    /// A number from `low` to `high`, both included.
    pub(crate) fn between(&mut self, low: u64, high: u64) -> u64
        requires order { low ≤ high }
        requires few { high ≤ 2 ^ 32 }
        ensures least { low ≤ result }
        ensures most { result ≤ high }
    {
        low + self.next() % (high - low + 1)
    }

    /// A place among so many, which count from 0.
    pub(crate) fn place(&mut self, count: usize) -> usize
        requires some { 1 ≤ count }
        requires few { count ≤ 2 ^ 32 }
        ensures { result < count }
    {
        self.between(0, count as u64 - 1) as usize
    }
}
