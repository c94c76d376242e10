//! The limits of what is stored on a device.

/// The bytes of a sector.
pub const SECTOR_BYTES: usize = 512;

/// The fewest sectors of a device.
pub const LEAST_SECTORS: u32 = 64;

/// The most bytes of an object, and of a catalogue. An object has at least one.
pub const MOST_OBJECT_BYTES: u64 = 134_217_728;

/// The most objects of a store.
pub const MOST_OBJECTS: usize = 65_536;

/// The most bytes of a root.
pub const MOST_ROOT_BYTES: usize = 65_536;
