//! Which batches a run of cells holds.

/// Batches one after the other.
#[derive(Clone, Copy, PartialEq, Eq)]
pub struct Span {
    /// The number of the batch before the first of them. Batches count from 1.
    pub from: u32,
    /// The number of the last of them.
    pub to: u32,
}
