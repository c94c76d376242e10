//! The tally of some numbers.
ghost use Rattle.std.specs.Prelude.{◌≡◌, ◌+◌, ◌+ℤ◌, ◌<◌, ◌≤◌, ◌^◌, false, [], ◌∷◌, FitsSigned, IfNone, IfOk, IfSome};
ghost use Rattle.std.specs.Prelude.{OnErr};
ghost use Rattle.std.specs.Int.{w64};
ghost use Rattle.cube_model.specs.Proper.{is_average};
ghost use Rattle.cube_model.specs.declared.answer.Value.TheVariants.{Whole};
ghost use Rattle.group_tallies.specs.Columns.{no_tally, tally_after};
ghost use Rattle.group_tallies.specs.Tallies as spec;

use crate::fraction::fraction_of;
use cube_model::{Agg, Amount, Value};

/// The least count that a tally does not hold. A sum fits where its absolute value is less.
pub const LIMIT: u64 = 1 << 63;

/// A count or a sum would exceed its type.
#[derive(Clone, Copy, PartialEq, Eq)]
pub struct TooLarge;

/// The count of some numbers with their sum, the least and the greatest.
#[derive(Clone, Copy, PartialEq, Eq)]
pub struct Tally {
    pub count: Amount,
    pub sum: i64,
    pub least: i64,
    pub greatest: i64,
}

impl Tally {
    /// The tally of no number.
    pub fn none() -> Self
        ensures { result ≡ no_tally }
    {
        Tally {
            count: Amount::new(0),
            sum: 0,
            least: 0,
            greatest: 0,
        }
    }

    /// The tally of one number.
    pub fn of(number: i64) -> Self
        ensures { result ≡ spec.tally_of (number ∷ []) }
    {
        Tally {
            count: Amount::new(1),
            sum: number,
            least: number,
            greatest: number,
        }
    }

    /// The tally with one number more.
    pub fn with(self, number: i64) -> Self
        requires count { self.count + 1 < 2 ^ 63 }
        requires sum { FitsSigned w64 (self.sum +ℤ number) }
        ensures { result ≡ spec.tally_with self number }
    {
        Tally {
            count: Amount::new(self.count.get() + 1),
            sum: self.sum + number,
            least: self.least.min(number),
            greatest: self.greatest.max(number),
        }
    }

    /// The tally with one number more, where it may be that of none.
    pub fn after(self, number: i64) -> Self
        requires count { self.count + 1 < 2 ^ 63 }
        requires sum { FitsSigned w64 (self.sum +ℤ number) }
        ensures { result ≡ tally_after self number }
    {
        if self.count.get() == 0 {
            Tally::of(number)
        } else {
            self.with(number)
        }
    }

    /// Two tallies as one, where either may be that of none.
    pub fn merge(self, other: Tally) -> Result<Self, TooLarge>
        ensures ok { IfOk result (λ tally. tally ≡ spec.merged_tally self other) }
        ensures err { OnErr result (self.count + other.count < 2 ^ 63 → FitsSigned w64 (self.sum +ℤ other.sum) → ⊥) }
    {
        if self.count.get() == 0 {
            return Ok(other);
        }
        if other.count.get() == 0 {
            return Ok(self);
        }
        if self.count.get() + other.count.get() >= LIMIT {
            return Err(TooLarge);
        }
        match sum_of(self.sum, other.sum) {
            None => Err(TooLarge),
            Some(_) => Ok(self.joined(other)),
        }
    }

    /// The same where both fit one tally.
    pub fn joined(self, other: Tally) -> Self
        requires count { self.count + other.count < 2 ^ 63 }
        requires sum { FitsSigned w64 (self.sum +ℤ other.sum) }
        ensures { result ≡ spec.merged_tally self other }
    {
        if self.count.get() == 0 {
            return other;
        }
        if other.count.get() == 0 {
            return self;
        }
        let count = self.count.get() + other.count.get();
        Tally {
            count: Amount::new(count),
            sum: self.sum + other.sum,
            least: self.least.min(other.least),
            greatest: self.greatest.max(other.greatest),
        }
    }

    /// What an aggregate takes of its tally.
    pub fn value(&self, agg: Agg) -> Value
        requires { 1 ≤ self.now.count }
        ensures { result ≡ spec.value_of agg self.now }
    {
        match agg {
            Agg::Count => Value::Whole(self.count.get() as i64),
            Agg::Sum(_) => Value::Whole(self.sum),
            Agg::Min(_) => Value::Whole(self.least),
            Agg::Max(_) => Value::Whole(self.greatest),
            Agg::Avg(_) => Value::Ratio(fraction_of(self.sum, self.count.get())),
        }
    }

    /// What an aggregate that is no average takes of its tally.
    pub fn whole(&self, agg: Agg) -> i64
        requires { is_average agg ≡ false }
        ensures { spec.value_of agg self.now ≡ Whole result }
    {
        match agg {
            Agg::Count => self.count.get() as i64,
            Agg::Sum(_) => self.sum,
            Agg::Min(_) => self.least,
            Agg::Max(_) => self.greatest,
            Agg::Avg(_) => unreachable!(),
        }
    }
}

// The sum of two numbers, where it fits.
fn sum_of(left: i64, right: i64) -> Option<i64>
    ensures some { IfSome result (λ sum. sum ≡ left +ℤ right) }
    ensures none { IfNone result (FitsSigned w64 (left +ℤ right) → ⊥) }
{
    left.checked_add(right)
}
