//! Numbers in the order that they came.
ghost use Rattle.std.specs.Prelude.{◌≡◌, ◌<◌, ◌^◌, [], length, map, nat_eq, IfOk, OnErr};
ghost use Rattle.std.specs.List.{IsDistinct, position_or_len};
ghost use Rattle.group_tallies.specs.Numbered.{TakesPlace, entries_in};

use indexmap::IndexSet;
use std::alloc::{AllocError, Global};
use std::marker::Model;

/// Numbers in the order of their first sight, each once, fewer than 2^32. Contracts see it as the list of them.
///
/// A number is found in a hash table, in the same time among few and among many.
#[derive(Drop)]
pub struct Numbers {
    seen: IndexSet<u128>,
}

impl Model for Numbers {
    ghost use Rattle.std.specs.Prelude.{ℕ, List, length, nat_eq, ◌<◌, ◌^◌};
    ghost use Rattle.std.specs.List.{IsDistinct};

    ghost Value = { List ℕ };

    ghost view = { λ numbers. numbers.seen.keys };

    ghost invariant = { λ numbers. (length numbers.seen.keys < 2 ^ 32) × IsDistinct nat_eq numbers.seen.keys };
}

impl Numbers {
    /// No number yet.
    pub fn new(alloc: Global) -> Numbers
        ensures { result ≡ [] }
    {
        Numbers {
            seen: IndexSet::new(alloc),
        }
    }

    /// How many numbers there are.
    pub fn len(&self) -> usize
        ensures count { result ≡ length self.now }
        ensures once { IsDistinct nat_eq self.now }
    {
        self.seen.len()
    }

    /// The place of a number. One that was not seen gets the next.
    ///
    /// It can only fail when out of memory, and then changes nothing.
    pub fn place(&mut self, number: u128) -> Result<u32, AllocError>
        ensures ok { IfOk result (λ place. TakesPlace self.old number place self.new) }
        ensures err { OnErr result (self.new ≡ self.old) }
        ensures once { IsDistinct nat_eq self.old }
        ensures still { IsDistinct nat_eq self.new }
    {
        if self.seen.len() < u32::MAX as usize {
            return match self.seen.insert_full(number) {
                Ok((place, _)) => Ok(place as u32),
                Err(_) => Err(AllocError),
            };
        }
        match self.seen.get_index_of(&number) {
            Some(place) => Ok(place as u32),
            None => Err(AllocError),
        }
    }

    /// The same numbers once more.
    pub fn copy(&self) -> Result<Numbers, AllocError>
        ensures { IfOk result (λ copy. copy ≡ self.now) }
    {
        let seen = self.seen.clone()?;
        Ok(Numbers { seen })
    }

    /// The numbers, each with its place, ascending by number.
    pub fn entries(&self, alloc: Global) -> Result<Vec<(u128, u32)>, AllocError>
        ensures { IfOk result (λ entries. entries.items ≡ entries_in self.now) }
    {
        sorted_entries(alloc, self.seen.as_slice())
    }
}

/// Numbers, each with its place among them, ascending by number.
pub fn sorted_entries(alloc: Global, numbers: &[u128]) -> Result<Vec<(u128, u32)>, AllocError>
    requires few { length numbers.now < 2 ^ 32 }
    requires once { IsDistinct nat_eq numbers.now }
    ensures { IfOk result (λ entries. entries.items ≡ entries_in numbers.now) }
{
    let mut entries = placed(alloc, numbers)?;
    entries.sort_unstable();
    Ok(entries)
}

// Numbers, each with its place, in the order that they came.
fn placed(alloc: Global, numbers: &[u128]) -> Result<Vec<(u128, u32)>, AllocError>
    requires few { length numbers.now < 2 ^ 32 }
    requires once { IsDistinct nat_eq numbers.now }
    ensures { IfOk result
        (λ entries. entries.items ≡ map (λ number. (number, position_or_len (nat_eq number) numbers.now)) numbers.now) }
{
    let mut entries = Vec::with_capacity(alloc, numbers.len())?;
    for place in 0..numbers.len() {
        entries.push((numbers[place], place as u32))?;
    }
    Ok(entries)
}
