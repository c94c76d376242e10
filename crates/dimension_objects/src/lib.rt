//! The four dimensions as they are stored, each in an object of its own.
#![tactic(auto)]

mod columns;
mod decoding;
mod encoding;
mod order;
mod reading;

pub use decoding::decode;
pub use encoding::encode;
