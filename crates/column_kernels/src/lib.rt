//! Columns of a batch as they are in its bytes: checks, masks of rows, and sums, the least and the greatest of
//! the selected rows.
#![tactic(auto)]

mod block;
mod checks;
mod column;
mod extremes;
mod lanes;
mod mask;

pub use block::block_mask;
pub use checks::{are_amounts, are_below};
pub use mask::Mask;
