//! Random choices, the same in each run.
ghost use Rattle.std.specs.Prelude.{◌<◌};

use rand_core::Rng;
use rand_pcg::Pcg32;

/// A source of random choices.
#[derive(Drop)]
pub struct Draw {
    words: Pcg32,
}

impl Draw {
    /// The source of a number.
    pub fn new(seed: u64) -> Draw {
        Draw {
            words: Pcg32::new(seed, 54),
        }
    }

    /// A number below a limit.
    pub fn below(&mut self, limit: u32) -> u32
        requires { 0 < limit }
        ensures { result < limit }
    {
        self.words.next_u32() % limit
    }

    /// A number up to another.
    pub fn up_to(&mut self, most: u32) -> u32 {
        match most.checked_add(1) {
            Some(limit) => self.below(limit),
            None => self.words.next_u32(),
        }
    }

    /// A number of money below a limit.
    pub fn money(&mut self, limit: u64) -> u64
        requires { 0 < limit }
    {
        self.words.next_u64() % limit
    }

    /// One of some items, if there are any.
    pub fn pick<'a, T>(&mut self, items: &'a [T]) -> Option<&'a T> {
        let place = self.words.next_u32() as usize;
        if items.is_empty() {
            return None;
        }
        items.get(place % items.len())
    }
}
