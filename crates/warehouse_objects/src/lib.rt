//! What the content of a store represents, as a warehouse, and reading it.
#![tactic(auto)]

mod folding;
pub mod laws;
mod objects;
mod reading;
mod ship_modes;

pub use folding::{decoded_batch, fold_batch, fold_batches};
pub use objects::has_its_objects;
pub use reading::{read_dims, read_modes, read_object, read_root};
pub use ship_modes::ShipModes;
