//! The limits of what a root says, besides those of rows and batches.

/// The most times that rows were added to dimensions.
pub const MOST_ADDITIONS: u32 = 4096;

/// The greatest sum of the absolute values of a measure.
pub const GREATEST_TOTAL: u64 = 9_223_372_036_854_775_807;

/// The most cuboids that are stored.
pub const MOST_CUBOIDS: usize = 16;

/// The most runs of a cuboid.
pub const MOST_RUNS: u16 = 8;

/// The most cells of a cuboid.
pub const MOST_CELLS: u32 = 262_144;
