//! Tests of stored cuboids: runs of commands that choose, fill and audit them, random calls against plain counting,
//! openings that finish an upkeep, and cuboids of as many runs and cells as there may be.
mod finishing;
mod many_runs;
mod most_cells;
mod plain;
mod random;
pub(crate) mod scripts;
