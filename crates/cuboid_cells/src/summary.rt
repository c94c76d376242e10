//! What a cell keeps of the measures of its rows.
ghost use Rattle.std.specs.Prelude.{◌≡◌, false, IsTrue};
ghost use Rattle.cuboid_cells.specs.Cells.{SummariesFit, SummaryFits};
ghost use Rattle.cuboid_cells.specs.Merges.{merged_summaries, merged_summary};

/// The sum of the numbers of a measure, the least and the greatest of them.
#[derive(Clone, Copy, PartialEq, Eq)]
pub struct Summary {
    pub sum: i64,
    pub least: i64,
    pub greatest: i64,
}

impl Summary {
    /// Takes in what is kept of other rows. False where the sum would exceed its type; what it is then is not said.
    #[inline(always)]
    pub fn merge_in(&mut self, other: &Summary) -> bool
        ensures ok { IsTrue result → self.new ≡ merged_summary self.old other.now }
        ensures fits { IsTrue result → SummaryFits self.new }
        ensures refused { result ≡ false → SummaryFits (merged_summary self.old other.now) → ⊥ }
    {
        let Some(sum) = self.sum.checked_add(other.sum) else {
            return false;
        };
        self.sum = sum;
        self.least = self.least.min(other.least);
        self.greatest = self.greatest.max(other.greatest);
        true
    }
}

/// What is kept of each measure.
#[derive(Clone, Copy, PartialEq, Eq)]
pub struct Summaries {
    pub quantity: Summary,
    pub extendedprice: Summary,
    pub revenue: Summary,
    pub supplycost: Summary,
    /// Of extended price times discount.
    pub discounted: Summary,
    /// Of revenue minus supply cost.
    pub profit: Summary,
}

impl Summaries {
    /// Takes in those of other rows. False where a sum would exceed its type; what they are then is not said.
    #[inline(always)]
    pub fn merge_in(&mut self, other: &Summaries) -> bool
        ensures ok { IsTrue result → self.new ≡ merged_summaries self.old other.now }
        ensures fit { IsTrue result → SummariesFit self.new }
        ensures refused { result ≡ false → SummariesFit (merged_summaries self.old other.now) → ⊥ }
    {
        self.quantity.merge_in(&other.quantity)
            && self.extendedprice.merge_in(&other.extendedprice)
            && self.revenue.merge_in(&other.revenue)
            && self.supplycost.merge_in(&other.supplycost)
            && self.discounted.merge_in(&other.discounted)
            && self.profit.merge_in(&other.profit)
    }
}
