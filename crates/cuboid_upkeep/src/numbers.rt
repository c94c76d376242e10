//! The numbers of keys.
ghost use Rattle.std.specs.Prelude.{◌≡◌, ◌+◌, ◌*◌, ◌<◌, ◌≤◌, ℕ, IfSome};
ghost use Rattle.cuboid_cells.specs.Limits.{most_cells};
ghost use Rattle.cuboid_upkeep.specs.Numbers.{AreFew, LiesIn, code_digit, key_place, numbers_count};

use crate::member_codes::ViewMembers;
use cuboid_cells::Key;
use cuboid_cells::limits::{ALL_CODE, MOST_CELLS};

impl ViewMembers {
    // How many numbers the keys of a view have, if there are no more than a cuboid can have cells.
    pub(crate) fn size(&self) -> Option<usize>
        ensures size { IfSome result (λ size. size ≡ numbers_count self.now) }
        ensures few { IfSome result (λ _. AreFew self.now) }
    {
        let two = times(self.customers.count, self.suppliers.count)?;
        let three = times(two, self.parts.count)?;
        times(three, self.dates.count)
    }

    // The number of a key.
    #[inline(always)]
    pub(crate) fn place(&self, key: Key) -> usize
        requires lies { LiesIn self.now key }
        requires few { AreFew self.now }
        ensures is { result ≡ key_place self.now key }
        ensures within { result < numbers_count self.now }
    {
        let two = joined(
            digit(key.customer),
            self.suppliers.count,
            digit(key.supplier),
        );
        let three = joined(two, self.parts.count, digit(key.part));
        joined(three, self.dates.count, digit(key.date))
    }
}

// A product, if it is no more than a cuboid can have cells.
fn times(one: usize, other: usize) -> Option<usize>
    ensures product { IfSome result (λ product. product ≡ one * other) }
    ensures few { IfSome result (λ product. product ≤ most_cells) }
{
    let product = one.checked_mul(other)?;
    if product > MOST_CELLS {
        return None;
    }
    Some(product)
}

// The digit of a code.
#[inline(always)]
fn digit(code: u16) -> usize
    ensures { result ≡ code_digit code }
{
    if code == ALL_CODE {
        0
    } else {
        usize::from(code)
    }
}

// The number of the digits of another and one digit more, to the base of a count.
#[inline(always)]
fn joined(high: usize, count: usize, low: usize) -> usize
    requires { (top : ℕ) × (high < top) × (low < count) × (top * count ≤ most_cells) }
    ensures is { result ≡ high * count + low }
    ensures within { (top : ℕ) → high < top → low < count → result < top * count }
{
    high * count + low
}
