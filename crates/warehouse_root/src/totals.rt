//! Sums of absolute values, as they may be stored.
ghost use Rattle.std.specs.Prelude.{◌↔◌, IsTrue};
ghost use Rattle.warehouse_root.specs.Root.{AreProperTotals};

use crate::limits::GREATEST_TOTAL;
use cube_model::Totals;

// Whether each is at most 9,223,372,036,854,775,807.
pub(crate) fn are_proper_totals(totals: &Totals) -> bool
    ensures { IsTrue result ↔ AreProperTotals totals.now }
{
    totals.quantity <= GREATEST_TOTAL
        && totals.extendedprice <= GREATEST_TOTAL
        && totals.revenue <= GREATEST_TOTAL
        && totals.supplycost <= GREATEST_TOTAL
        && totals.discounted <= GREATEST_TOTAL
        && totals.profit <= GREATEST_TOTAL
}
