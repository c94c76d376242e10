//! A device that is watched: an observer sees how many sectors are read and written.
#![tactic(auto)]

mod observer;
mod watched;

pub use observer::Observer;
pub use watched::Watched;
