//! Sums of absolute values.

/// The sum of the absolute values of each measure over some fact rows, in the units of the rows.
#[derive(Clone, Copy, PartialEq, Eq)]
pub struct Totals {
    pub quantity: u64,
    pub extendedprice: u64,
    pub revenue: u64,
    pub supplycost: u64,
    /// Of extended price times discount.
    pub discounted: u64,
    /// Of revenue minus supply cost.
    pub profit: u64,
}
