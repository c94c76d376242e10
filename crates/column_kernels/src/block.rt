//! The mask of 32 rows, in lanes.
ghost use Rattle.std.specs.Prelude.{◌≡◌, ◌&&◌, nat_le, map, length};
ghost use Rattle.std.specs.Simd.Lanes.{mask_l, zip2};
ghost use Rattle.column_kernels.specs.Masks.{lies_in};

use std::simd::prelude::*;

/// A bit for each of 32 rows, set exactly where its quantity and its discount lie in their ranges, ends included. Bit 0
/// is the first row's.
pub fn block_mask(
    quantities: &[u8; 32],
    discounts: &[u8; 32],
    quantity: (u8, u8),
    discount: (u8, u8),
) -> u32
    ensures { result ≡ mask_l (zip2 (lies_in quantity discount) quantities.now discounts.now) }
{
    let both = range_mask(quantities, quantity) & range_mask(discounts, discount);
    both as u32
}

// A bit for each lane that lies in a range.
fn range_mask(lanes: &[u8; 32], range: (u8, u8)) -> u64
    ensures { result ≡ mask_l (map (λ x. nat_le range.0 x && nat_le x range.1) lanes.now) }
{
    at_least(u8x32::from_array(*lanes), range.0) & at_most(u8x32::from_array(*lanes), range.1)
}

// A bit for each lane that is at least a bound.
fn at_least(lanes: u8x32, bound: u8) -> u64
    requires { length lanes ≡ 32 }
    ensures { result ≡ mask_l (map (nat_le bound) lanes) }
{
    lanes.simd_ge(u8x32::splat(bound)).to_bitmask()
}

// A bit for each lane that is at most a bound.
fn at_most(lanes: u8x32, bound: u8) -> u64
    requires { length lanes ≡ 32 }
    ensures { result ≡ mask_l (map (λ x. nat_le x bound) lanes) }
{
    lanes.simd_le(u8x32::splat(bound)).to_bitmask()
}
