//! The catalogue: where the objects of a store are, and the root.
mod decoding;
mod encoding;
mod entry;
mod reading;

pub use decoding::decode;
pub use encoding::encode;
pub use entry::Entry;

/// The objects of a store, by ascending id, and its root.
#[derive(Drop)]
pub struct Catalogue {
    /// Where each object is.
    pub entries: Vec<Entry>,
    /// The bytes of the root.
    pub root: Vec<u8>,
}
