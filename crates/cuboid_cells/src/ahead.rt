//! Bytes of a text that are read ahead.
ghost use Rattle.std.specs.Prelude.{◌≡◌, ◌+◌, ◌-◌, ◌≤◌, [], Some, length, drop, take, min, IfOk, IsSomeAnd};
ghost use Rattle.std.specs.Prelude.{OnOk};
ghost use Rattle.wire.specs.Parts.{Gives};
ghost use Rattle.wire.specs.Runs.{ReadsSource};
ghost use Rattle.cuboid_cells.specs.Pieces.{most_ahead};

use cube_model::Fault;
use std::alloc::{AllocError, Global};
use std::marker::Model;
use wire::{Source, read_part};

// How many bytes are read at a time: each read of a file is a system call.
const PART: usize = 65_536;

// Bytes that were read and not yet taken. Contracts see them alone.
#[derive(Drop)]
pub(crate) struct Ahead {
    bytes: Vec<u8>,
    from: usize,
    to: usize,
}

impl Model for Ahead {
    ghost use Rattle.std.specs.Prelude.{ℕ, List, ◌≡◌, ◌≤◌, length, slice_range};
    ghost use Rattle.cuboid_cells.specs.Pieces.{most_ahead};

    ghost Value = { List ℕ };

    ghost view = { λ ahead. slice_range ahead.bytes.items ahead.from ahead.to };

    ghost invariant = { λ ahead. (ahead.from ≤ ahead.to) × (ahead.to ≤ most_ahead)
        × (length ahead.bytes.items ≡ most_ahead) };
}

impl Ahead {
    // No byte, with room for some.
    pub(crate) fn new(alloc: Global) -> Result<Self, AllocError>
        ensures { IfOk result (λ ahead. ahead ≡ []) }
    {
        let mut bytes = Vec::with_capacity(alloc, PART)?;
        bytes.resize(PART, 0u8)?;
        Ok(Ahead {
            bytes,
            from: 0,
            to: 0,
        })
    }

    // The bytes.
    pub(crate) fn rest(&self) -> &[u8]
        ensures { result.now ≡ self.now }
    {
        &self.bytes.as_slice()[self.from..self.to]
    }

    // Drops bytes at the front.
    pub(crate) fn skip(&mut self, count: usize)
        requires { count ≤ length self.old }
        ensures { self.new ≡ drop count self.old }
    {
        self.from += count;
    }

    // Reads the bytes of a text from a place on in place of those that are ahead: up to the end of the text, or as many
    // as there is room for. Which are ahead after an error is not said.
    pub(crate) fn refill<S: Source>(
        &mut self,
        source: &mut S,
        id: u32,
        at: usize,
        total: usize,
    ) -> Result<(), Fault>
        requires total { S.totals source.old id ≡ Some total }
        requires within { at ≤ total }
        ensures many { OnOk result (length self.new ≡ min most_ahead (total - at)) }
        ensures bytes { OnOk result (S.keeps_word source.new → Gives (S.texts source.old id) at self.new) }
        ensures run { ReadsSource S.Source source.old source.new result }
    {
        let count = (total - at).min(PART);
        read_front(source, id, at, count, self.bytes.as_mut_slice())?;
        self.from = 0;
        self.to = count;
        Ok(())
    }
}

// Reads bytes of a text from a place on over the first ones that are there.
fn read_front<S: Source>(
    source: &mut S,
    id: u32,
    at: usize,
    count: usize,
    bytes: &mut [u8],
) -> Result<(), Fault>
    requires within { IsSomeAnd (S.totals source.old id) (λ total. at + count ≤ total) }
    requires room { count ≤ length bytes.old }
    ensures bytes { OnOk result (S.keeps_word source.new → Gives (S.texts source.old id) at (take count bytes.new)) }
    ensures run { ReadsSource S.Source source.old source.new result }
{
    read_part(source, id, at as u64, &mut bytes[..count])
}
