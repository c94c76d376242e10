//! Folds of queries that look at ship modes: folds of the query without them, one for each ship mode.
#![tactic(auto)]

mod answered;
mod cell_parts;
mod celling;
mod dividing;
mod folding;
mod joining;
mod parts;
mod together;

pub use answered::{Answered, AnsweredLines};
pub use folding::ModeFold;
