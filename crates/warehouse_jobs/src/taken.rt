//! What becomes of the batches of a load.

/// What became of a batch of a load.
#[derive(Clone, Copy, PartialEq, Eq)]
pub enum Taken {
    /// It was added.
    Added,
    /// It was there already, and passed over.
    Skipped,
}
