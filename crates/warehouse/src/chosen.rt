//! What a choice of cuboids answers.
use lattice::View;

/// A view that was chosen.
#[derive(Clone, Copy, PartialEq, Eq)]
pub struct Chosen {
    pub view: View,
    /// By how many rows it lowers the costs of the views that it answers, in all, under those chosen before it.
    pub benefit: u64,
}
