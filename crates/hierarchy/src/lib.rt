//! To which upper member each member of a dimension belongs.
#![tactic(auto)]

mod hierarchy;

pub use hierarchy::Hierarchy;
