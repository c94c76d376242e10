//! The rows of the dimensions from the texts of their tables.
#![tactic(auto)]

mod reading;
mod tables;

pub use reading::read_dimensions;
pub use tables::{DimensionTables, RefusedLine};
