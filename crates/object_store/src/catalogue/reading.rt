//! Reading the parts of a catalogue from the front of bytes.
ghost use Rattle.std.specs.Prelude.{◌≢◌, ◌*◌, ◌≤◌, ◌<◌, ◌++◌, ℕ, List, length, IfOk, IsErr};
ghost use Rattle.std.specs.Prelude.{IsOkUnless, IsTrue, ◌↔◌};
ghost use Rattle.cube_model.specs.declared.fault.Fault.{Fault};
ghost use Rattle.object_store.specs.Catalogue.{catalogue_header};
ghost use Rattle.object_store.specs.CatalogueReading.{ReadsEntries, ReadsEntry, ReadsCatalogueHeader};

use crate::catalogue::Entry;
use cube_model::Fault;
use std::alloc::Global;
use wire::Cursor;
use wire::limits::{MOST_OBJECTS, MOST_ROOT_BYTES};

// What is before the entries: how many there are, and how many bytes the root has.
#[derive(Clone, Copy)]
pub(crate) struct Header {
    pub(crate) entries: u32,
    pub(crate) root: u32,
}

impl Header {
    ghost use Rattle.object_store.specs.CatalogueReading.{IsCatalogueHeader};

    // Whether it keeps the limits, and a catalogue with it has so many bytes.
    pub(crate) fn is_of(&self, bytes: usize) -> bool
        ensures { IsTrue result ↔ IsCatalogueHeader bytes self.now.entries self.now.root }
    {
        let (entries, root) = (self.entries as usize, self.root as usize);
        entries <= MOST_OBJECTS && root <= MOST_ROOT_BYTES && bytes == 12 + 16 * entries + root
    }
}

// The header at the front of bytes.
pub(crate) fn read_header(cursor: &mut Cursor<'_>) -> Result<Header, Fault>
    ensures ok { IfOk result (λ header. ReadsCatalogueHeader cursor.old cursor.new header.entries header.root) }
    ensures fault { IsOkUnless result Fault.BadLayout }
    ensures none { IsErr result
        → (entries root : ℕ) (rest : List ℕ) → cursor.old ≢ catalogue_header entries root ++ rest }
{
    if cursor.bytes(4)? != b"CAT1".as_slice() {
        return Err(Fault::BadLayout);
    }
    Ok(Header {
        entries: cursor.u32()?,
        root: cursor.u32()?,
    })
}

// The entries at the front of bytes.
pub(crate) fn read_entries(
    alloc: Global,
    cursor: &mut Cursor<'_>,
    count: usize,
) -> Result<Vec<Entry>, Fault>
    requires { 16 * count ≤ length cursor.old }
    ensures ok { IfOk result (λ entries. ReadsEntries count cursor.old cursor.new entries.items) }
    ensures memory { IsOkUnless result Fault.Memory }
{
    let mut entries = Vec::with_capacity(alloc, count)?;
    for _ in 0..count {
        let entry = read_entry(cursor)?;
        entries.push(entry)?;
    }
    Ok(entries)
}

// The entry at the front of bytes.
fn read_entry(cursor: &mut Cursor<'_>) -> Result<Entry, Fault>
    ensures ok { IfOk result (ReadsEntry cursor.old cursor.new) }
    ensures short { IsErr result ↔ (length cursor.old < 16) }
{
    Ok(Entry {
        id: cursor.u32()?,
        first: cursor.u32()?,
        bytes: cursor.u64()?,
    })
}
