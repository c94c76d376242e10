//! Free sectors of a device: extents that are provably disjoint from all that is used.
#![tactic(auto)]

mod extent;
mod free;
mod gaps;
mod join;

pub use extent::Extent;
pub use free::Free;
