//! The stored cuboids of a store: the cells of a view, made of its batches; the runs of cells of a cuboid, merged or
//! folded, and whether they are what they are to be; and commits of cuboids, each of which leaves a warehouse before or
//! after it, at a crash at any point.
#![tactic(auto)]

mod aiming;
mod audit;
mod batches;
mod bringing;
mod catching;
mod folding;
mod keeping;
pub mod laws;
mod making;
mod nexts;
mod reading;
mod replacing;
mod runs;
mod upkeep;
mod viewing;

pub use aiming::aim;
pub use audit::{audited, is_sound};
pub use batches::cells_of_batches;
pub use catching::catch_up;
pub use folding::fold_runs;
pub use keeping::{Next, keep_one};
pub use runs::merged_runs;
pub use upkeep::keep_up;
pub use viewing::set_views;
