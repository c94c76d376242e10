//! The slots of groups.
ghost use Rattle.std.specs.Prelude.{◌≡◌, ℕ, ◌<◌, length, IfOk, OnErr};
ghost use Rattle.group_tallies.specs.Slots.{entries_of, numbers_from, AreSlots, CanPlace, Cover, Places};

use crate::numbers::Numbers;
use crate::place_table::PlaceTable;
use std::alloc::{AllocError, Global};

/// Up to how many numbers each has its slot from the start.
const MOST_FROM_THE_START: u128 = 65_536;

/// Up to how many numbers a table tells their slots: one of 16 megabytes.
const MOST_IN_A_TABLE: u128 = 4_194_304;

/// Which slot the number of a group has. The number is made of the codes of its members, so that no two groups have the
/// same one: it is a perfect hash of the group.
#[derive(Drop)]
pub enum Slots {
    /// Each number below the count has the slot with that number, from the start.
    Direct(u32),
    /// The numbers that were seen, of those below a bound, in a table with an entry for each that may come. The place
    /// of each in the order of their first sight is its slot.
    Below(PlaceTable),
    /// The same with no bound, in a hash table.
    Seen(Numbers),
}

impl Slots {
    /// Slots for the numbers below a bound.
    pub fn new(alloc: Global, bound: u128) -> Result<Slots, AllocError>
        ensures numbers { IfOk result (λ slots. AreSlots bound (entries_of slots)) }
        ensures cover { IfOk result (Cover bound) }
    {
        if bound <= MOST_FROM_THE_START {
            return Ok(Slots::Direct(bound as u32));
        }
        if bound <= MOST_IN_A_TABLE {
            let table = PlaceTable::new(alloc, bound as usize)?;
            return Ok(Slots::Below(table));
        }
        Ok(Slots::Seen(Numbers::new(alloc)))
    }

    /// How many slots there are.
    pub fn len(&self) -> usize
        ensures { result ≡ length (entries_of self.now) }
    {
        match self {
            Slots::Direct(count) => *count as usize,
            Slots::Below(table) => table.len(),
            Slots::Seen(numbers) => numbers.len(),
        }
    }

    /// The slot of a number. A number that has none gets the next.
    pub fn place(&mut self, number: u128) -> Result<u32, AllocError>
        requires { CanPlace self.old number }
        ensures ok { IfOk result (λ slot. Places (entries_of self.old) number slot (entries_of self.new)) }
        ensures err { OnErr result (entries_of self.new ≡ entries_of self.old) }
        ensures cover { (bound : ℕ) → Cover bound self.old → Cover bound self.new }
    {
        match self {
            Slots::Direct(count) => {
                prove!(number < u128::from(*count));
                Ok(number as u32)
            }
            Slots::Below(table) => table.place(number),
            Slots::Seen(numbers) => numbers.place(number),
        }
    }

    /// Makes room for the slots of so many numbers more, where a table tells them. It can only fail when out of memory.
    pub fn reserve(&mut self, more: usize) -> Result<(), AllocError>
        ensures { self.new ≡ self.old }
    {
        match self {
            Slots::Direct(_) | Slots::Seen(_) => Ok(()),
            Slots::Below(table) => table.reserve(more),
        }
    }

    /// The same slots once more.
    pub fn copy(&self) -> Result<Slots, AllocError>
        ensures entries { IfOk result (λ copy. entries_of copy ≡ entries_of self.now) }
        ensures cover { IfOk result (λ copy. (bound : ℕ) → Cover bound self.now → Cover bound copy) }
    {
        match self {
            Slots::Direct(count) => Ok(Slots::Direct(*count)),
            Slots::Below(table) => Ok(Slots::Below(table.copy()?)),
            Slots::Seen(numbers) => Ok(Slots::Seen(numbers.copy()?)),
        }
    }

    /// The numbers that have a slot, ascending, each with its slot.
    pub fn entries(&self, alloc: Global) -> Result<Vec<(u128, u32)>, AllocError>
        ensures { IfOk result (λ entries. entries.items ≡ entries_of self.now) }
    {
        match self {
            Slots::Direct(count) => direct_entries(alloc, *count),
            Slots::Below(table) => table.entries(alloc),
            Slots::Seen(numbers) => numbers.entries(alloc),
        }
    }
}

// Each number below a count, with itself for its slot.
fn direct_entries(alloc: Global, count: u32) -> Result<Vec<(u128, u32)>, AllocError>
    ensures { IfOk result (λ entries. entries.items ≡ numbers_from 0 count) }
{
    let mut entries = Vec::with_capacity(alloc, count as usize)?;
    for number in 0..count {
        entries.push((u128::from(number), number))?;
    }
    Ok(entries)
}
