//! The superblock: the sector that names the catalogue of a generation.
#![tactic(auto)]

mod choice;
mod decoding;
mod encoding;
mod superblock;

pub use choice::choose;
pub use decoding::decode;
pub use encoding::encode;
pub use superblock::Super;
