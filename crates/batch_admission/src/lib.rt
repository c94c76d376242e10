//! The check of a batch of fact rows after the batches that were accepted.
#![tactic(auto)]

mod admission;
mod findings;
mod rows;
mod ship_modes;
mod sums;

pub use admission::Admission;
pub use findings::Findings;
pub use ship_modes::{add_modes, reserved_row};
