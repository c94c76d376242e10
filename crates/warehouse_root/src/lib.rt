//! The root of a warehouse: which batches and cuboids are stored, and which objects hold them.
#![tactic(auto)]

mod cuboid;
mod decoding;
mod encoding;
pub mod laws;
mod layout;
pub mod limits;
mod modes;
mod objects;
mod reading;
mod root;
mod totals;

pub use cuboid::StoredCuboid;
pub use layout::Layout;
pub use modes::{MODES_ID, decode_modes, encode_modes};
pub use objects::{push_run_ids, run_id, segment_id};
pub use root::Root;
