//! Where an object is.
ghost use Rattle.std.specs.Prelude.{◌↔◌, IsTrue};

use wire::limits::MOST_OBJECT_BYTES;

/// Where an object is.
#[derive(Clone, Copy, PartialEq, Eq)]
pub struct Entry {
    /// The number of the object.
    pub id: u32,
    /// The first of its sectors.
    pub first: u32,
    /// How many bytes it has.
    pub bytes: u64,
}

impl Entry {
    ghost use Rattle.object_store.specs.Catalogue.{IsProperEntry};

    /// Whether it keeps the rules of an entry.
    pub fn is_proper(&self) -> bool
        ensures { IsTrue result ↔ IsProperEntry self.now }
    {
        self.bytes >= 1 && self.bytes <= MOST_OBJECT_BYTES
    }
}
