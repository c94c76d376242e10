//! Why words name no list of views.

/// Why words name no list of views that a warehouse can store.
#[derive(Clone, Copy, PartialEq, Eq)]
pub enum RefusedViews {
    /// Memory was refused.
    Memory,
    /// There are more than 16.
    TooMany,
    /// The word at a place, counted from 0, names no view.
    Unknown(usize),
    /// The word at a place, counted from 0, names a view that a word before it names.
    Twice(usize),
}
