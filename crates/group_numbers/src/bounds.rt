//! The bounds that a query puts on the numbers of a fact row.
ghost use Rattle.std.specs.Prelude.{◌≡◌, ◌<◌};
ghost use Rattle.group_numbers.specs.GroupNumbers.{AreBounds, bounds_with, is_within};

use cube_model::Cond;

/// Between which bounds the quantity and the discount of a fact row lie, all included.
#[derive(Clone, Copy, PartialEq, Eq)]
pub struct Bounds {
    pub least_quantity: u8,
    pub greatest_quantity: u8,
    pub least_discount: u8,
    pub greatest_discount: u8,
}

impl Bounds {
    /// The bounds that conditions put together.
    pub fn of(conditions: &[Cond]) -> Bounds
        ensures { AreBounds conditions.now result }
    {
        match conditions {
            [] => Bounds {
                least_quantity: 0,
                greatest_quantity: u8::MAX,
                least_discount: 0,
                greatest_discount: u8::MAX,
            },
            [condition, others @ ..] => Bounds::of(others).and(condition),
        }
    }

    // The bounds with those of one condition more.
    fn and(self, condition: &Cond) -> Bounds
        ensures { result ≡ bounds_with self condition.now }
    {
        match condition {
            Cond::OneOf(_, _) | Cond::Between(_, _, _) => self,
            Cond::Quantity(least, greatest) => Bounds {
                least_quantity: self.least_quantity.max(*least),
                greatest_quantity: self.greatest_quantity.min(*greatest),
                ..self
            },
            Cond::Discount(least, greatest) => Bounds {
                least_discount: self.least_discount.max(*least),
                greatest_discount: self.greatest_discount.min(*greatest),
                ..self
            },
        }
    }

    /// Whether a quantity and a discount lie within the bounds.
    pub fn hold(&self, quantity: u8, discount: u8) -> bool
        ensures value { result ≡ is_within self.now quantity discount }
        ensures quantity { quantity < 256 }
        ensures discount { discount < 256 }
    {
        self.least_quantity <= quantity
            && quantity <= self.greatest_quantity
            && self.least_discount <= discount
            && discount <= self.greatest_discount
    }
}
