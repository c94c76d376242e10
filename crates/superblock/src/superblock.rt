//! What a superblock says.
ghost use Rattle.std.specs.Prelude.{◌↔◌, IsTrue};

use wire::limits::{LEAST_SECTORS, MOST_OBJECT_BYTES, SECTOR_BYTES};

// The newest layout.
const NEWEST_LAYOUT: u32 = 2;
// The fewest bytes of a catalogue.
const LEAST_BYTES: u32 = 12;

/// What a superblock says of the store.
#[derive(Clone, Copy, PartialEq, Eq)]
pub struct Super {
    /// The number of the layout of the objects, 1 or 2.
    pub layout: u32,
    /// How many sectors the device has.
    pub sectors: u32,
    /// The number of the commit that made it, from 1.
    pub generation: u64,
    /// The first sector of the catalogue.
    pub catalogue: u32,
    /// How many bytes the catalogue has.
    pub bytes: u32,
}

impl Super {
    ghost use Rattle.superblock.specs.Superblock.{IsProperSuperblock};

    /// Whether it keeps the rules of a superblock.
    pub fn is_proper(&self) -> bool
        ensures { IsTrue result ↔ IsProperSuperblock self.now }
    {
        self.layout >= 1
            && self.layout <= NEWEST_LAYOUT
            && self.sectors >= LEAST_SECTORS
            && self.generation >= 1
            && self.catalogue >= 2
            && self.bytes >= LEAST_BYTES
            && u64::from(self.bytes) <= MOST_OBJECT_BYTES
            && u64::from(self.catalogue) + u64::from(self.bytes).div_ceil(SECTOR_BYTES as u64)
                <= u64::from(self.sectors)
    }
}
