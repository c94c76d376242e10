//! Tests of runs of cells, of their merges, and of the cells of rows.
mod grouped;
mod merges;
mod most_cells;
mod runs;
mod sample;
mod skips;
