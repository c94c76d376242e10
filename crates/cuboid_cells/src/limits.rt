//! The limits of cells.

/// The most cells of a cuboid.
pub const MOST_CELLS: usize = 262_144;

/// The code that means every member of an axis. Those of members are below it.
pub const ALL_CODE: u16 = 65_535;
