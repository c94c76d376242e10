//! A device with a cache of some of its sectors.
#![tactic(auto)]

mod cached;
mod kept;

pub use cached::Cached;
