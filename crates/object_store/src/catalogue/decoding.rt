//! Reading a catalogue.
ghost use Rattle.std.specs.Prelude.{◌≡◌, ◌⊎◌, ◌↔◌, ℕ, List, All, IsTrue, IfErr, IfOk};
ghost use Rattle.cube_model.specs.declared.fault.Fault.{Fault};
ghost use Rattle.object_store.specs.declared.catalogue.entry.Entry.{Entry};
ghost use Rattle.object_store.specs.Catalogue.{IdsAscend, IsCatalogue, IsProperEntry};

use crate::catalogue::reading::{read_entries, read_header};
use crate::catalogue::{Catalogue, Entry};
use cube_model::Fault;
use std::alloc::Global;
use wire::Cursor;

/// The catalogue that the bytes spell. `BadLayout` where they spell none that keeps the rules.
pub fn decode(alloc: Global, bytes: &[u8]) -> Result<Catalogue, Fault>
    ensures ok { IfOk result (λ found. IsCatalogue bytes.now found.entries.items found.root.items) }
    ensures refused { IfErr result (λ fault. (fault ≡ Fault.Memory) ⊎ ((fault ≡ Fault.BadLayout)
        × ((entries : List Entry) (root : List ℕ) → ¬ IsCatalogue bytes.now entries root))) }
{
    let mut cursor = Cursor::new(bytes);
    let header = read_header(&mut cursor)?;
    if !header.is_of(bytes.len()) {
        return Err(Fault::BadLayout);
    }
    let entries = read_entries(alloc, &mut cursor, header.entries as usize)?;
    if !are_proper(&entries) || !ascend(&entries) {
        return Err(Fault::BadLayout);
    }
    let root = Vec::from_slice(alloc, cursor.bytes(header.root as usize)?)?;
    Ok(Catalogue { entries, root })
}

// Whether each entry keeps its rule.
fn are_proper(entries: &[Entry]) -> bool
    ensures { IsTrue result ↔ All IsProperEntry entries.now }
{
    entries.iter().all(|entry| entry.is_proper())
}

// Whether each id is below the next.
fn ascend(entries: &[Entry]) -> bool
    ensures { IsTrue result ↔ IdsAscend entries.now }
{
    entries.is_sorted_by(|one, other| one.id < other.id)
}
