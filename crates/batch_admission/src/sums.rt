//! Sums of absolute values while the rows of a batch are looked at, when they may pass their limit.
ghost use Rattle.std.specs.Prelude.{◌≡◌, ℕ, ◌+◌, ◌<◌, ◌^◌, IfOk, OnOk};
ghost use Rattle.std.specs.Result.{result_err};
ghost use Rattle.batch_admission.specs.Totals.{AreBelow, plus_row, sum_limit, total_cause, totals_cause};

use cube_model::{Fault, LineOrder, Measure, Totals};
use std::marker::Model;

// The least sum that passes the limit.
const SUM_LIMIT: u128 = 1 << 63;

/// The sum of the absolute values of each measure, over some fact rows.
#[derive(Clone, Copy)]
pub struct Sums {
    quantity: u128,
    extendedprice: u128,
    revenue: u128,
    supplycost: u128,
    discounted: u128,
    profit: u128,
}

impl Model for Sums {
    ghost use Rattle.cube_model.specs.declared.totals.Totals.{Totals};

    ghost Value = { Totals };

    ghost view = { λ sums. record {
      quantity = sums.quantity;
      extendedprice = sums.extendedprice;
      revenue = sums.revenue;
      supplycost = sums.supplycost;
      discounted = sums.discounted;
      profit = sums.profit;
    } };

    ghost inverse = { λ totals. record {
      quantity = totals.quantity;
      extendedprice = totals.extendedprice;
      revenue = totals.revenue;
      supplycost = totals.supplycost;
      discounted = totals.discounted;
      profit = totals.profit;
    } };
}

impl Sums {
    /// The sums that accepted batches have.
    pub fn of(totals: Totals) -> Sums
        ensures { result ≡ totals }
    {
        Sums {
            quantity: u128::from(totals.quantity),
            extendedprice: u128::from(totals.extendedprice),
            revenue: u128::from(totals.revenue),
            supplycost: u128::from(totals.supplycost),
            discounted: u128::from(totals.discounted),
            profit: u128::from(totals.profit),
        }
    }

    /// The sums with those of one more fact row.
    pub fn plus_row(self, row: &LineOrder) -> Sums
        requires { AreBelow (2 ^ 127) self }
        ensures value { result ≡ plus_row self row.now }
        ensures bound { (bound : ℕ) → AreBelow bound self → AreBelow (bound + 2 ^ 71) result }
    {
        let price = row.extendedprice.get();
        let revenue = row.revenue.get();
        let cost = row.supplycost.get();
        Sums {
            quantity: self.quantity + u128::from(row.quantity),
            extendedprice: self.extendedprice + u128::from(price),
            revenue: self.revenue + u128::from(revenue),
            supplycost: self.supplycost + u128::from(cost),
            discounted: self.discounted + u128::from(price) * u128::from(row.discount),
            profit: self.profit + u128::from(revenue.abs_diff(cost)),
        }
    }

    /// The sums as totals that keep the limit, or the first measure whose sum passes it, as the fault that it is.
    pub fn totals(&self) -> Result<Totals, Fault>
        ensures cause { result_err result ≡ totals_cause self.now }
        ensures value { IfOk result (λ totals. totals ≡ self.now) }
        ensures below { IfOk result (AreBelow sum_limit) }
    {
        Ok(Totals {
            quantity: within_limit(self.quantity, Measure::Quantity)?,
            extendedprice: within_limit(self.extendedprice, Measure::ExtendedPrice)?,
            revenue: within_limit(self.revenue, Measure::Revenue)?,
            supplycost: within_limit(self.supplycost, Measure::SupplyCost)?,
            discounted: within_limit(self.discounted, Measure::Discounted)?,
            profit: within_limit(self.profit, Measure::Profit)?,
        })
    }
}

// A measure's sum, unless it passes the limit.
fn within_limit(sum: u128, measure: Measure) -> Result<u64, Fault>
    ensures cause { result_err result ≡ total_cause sum measure }
    ensures value { IfOk result (λ total. total ≡ sum) }
    ensures below { OnOk result (sum < sum_limit) }
{
    if sum >= SUM_LIMIT {
        return Err(Fault::SumRange { measure });
    }
    Ok(sum as u64)
}
