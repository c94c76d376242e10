//! The cells of a view: how many fact rows each groups, and what is kept of their measures.
#![tactic(auto)]

mod ahead;
mod cell;
mod cells;
mod encoding;
mod head;
mod key;
pub mod laws;
pub mod limits;
mod merging;
mod pieces;
mod reading;
mod rules;
mod skipping;
mod sources;
mod span;
mod summary;

pub use cell::Cell;
pub use cells::Cells;
pub use head::RunHead;
pub use key::Key;
pub use pieces::RunReader;
pub use sources::decode_from;
pub use span::Span;
pub use summary::{Summaries, Summary};
