//! Whether the content of a store is that of a warehouse: its objects, its batches and its stored cuboids.
#![tactic(auto)]

mod batches;
mod checking;
mod cuboids;
mod finding;
mod rows;

pub use checking::checked;
pub use finding::Finding;
