//! Sums over the selected ones of 32 rows, in lanes.
ghost use Rattle.std.specs.Prelude.{◌≡◌, ◌+◌, ◌*◌, ◌^◌, ◌<◌, ◌≤◌, length, map, sum};
ghost use Rattle.std.specs.Simd.Lanes.{Each1, sum_l};
ghost use Rattle.column_kernels.specs.Masks.{bits_of, selected_by};
ghost use Rattle.column_kernels.specs.Sums.{numbers_of, products, low, high};

use std::simd::prelude::*;

// The bit of each row in a word.
const BITS: [u64; 32] = [
    0x1, 0x2, 0x4, 0x8, 0x10, 0x20, 0x40, 0x80, 0x100, 0x200, 0x400, 0x800, 0x1000, 0x2000, 0x4000,
    0x8000, 0x10000, 0x20000, 0x40000, 0x80000, 0x100000, 0x200000, 0x400000, 0x800000, 0x1000000,
    0x2000000, 0x4000000, 0x8000000, 0x10000000, 0x20000000, 0x40000000, 0x80000000,
];

/// The sum of the bytes whose bit is set in a word.
pub(crate) fn sum_of_bytes(word: u32, bytes: &[u8; 32]) -> u128
    ensures value { result ≡ sum (selected_by (bits_of 32 word) bytes.now) }
    ensures small { result ≤ 2 ^ 97 }
{
    u128::from(chosen_sum(word, widened(bytes)))
}

/// The sum of the numbers of eight bytes whose bit is set in a word. Their low and high halves are added up apart, so
/// that no lane passes its range.
pub(crate) fn sum_of_numbers(word: u32, numbers: &[[u8; 8]; 32]) -> u128
    ensures value { result ≡ sum (selected_by (bits_of 32 word) (numbers_of numbers.now)) }
    ensures small { result ≤ 2 ^ 97 }
{
    let lanes = loaded(numbers);
    let low = chosen_sum(word, low_halves(lanes));
    let high = chosen_sum(word, high_halves(lanes));
    joined(low, high)
}

/// The sum of the numbers of eight bytes whose bit is set in a word, each times a byte. The halves are multiplied and
/// added up apart, so that no lane passes its range.
pub(crate) fn sum_of_products(word: u32, numbers: &[[u8; 8]; 32], factors: &[u8; 32]) -> u128
    ensures value { result ≡ sum (selected_by (bits_of 32 word) (products (numbers_of numbers.now) factors.now)) }
    ensures small { result ≤ 2 ^ 97 }
{
    let lanes = loaded(numbers);
    let bytes = widened(factors);
    let lows = times(low_halves(lanes), bytes);
    let highs = times(high_halves(lanes), bytes);
    joined(chosen_sum(word, lows), chosen_sum(word, highs))
}

// The sum of the lanes whose bit is set in a word.
fn chosen_sum(word: u32, lanes: u64x32) -> u64
    requires lanes { length lanes ≡ 32 }
    requires small { sum_l lanes < 2 ^ 64 }
    ensures { result ≡ sum (selected_by (bits_of 32 word) lanes) }
{
    let bits = u64x32::splat(u64::from(word)) & u64x32::from_array(BITS);
    bits.simd_ne(u64x32::splat(0))
        .select(lanes, u64x32::splat(0))
        .strict_reduce_sum()
}

// The sum of what was added up of the low and of the high halves.
fn joined(low: u64, high: u64) -> u128
    ensures value { result ≡ low + high * 4294967296 }
    ensures small { result ≤ 2 ^ 97 }
{
    u128::from(low) + (u128::from(high) << 32)
}

// Lane by lane, a half times a byte.
fn times(halves: u64x32, bytes: u64x32) -> u64x32
    requires lanes { (length halves ≡ 32) × (length bytes ≡ 32) }
    requires small { Each1 (λ half. half < 4294967296) halves × Each1 (λ byte. byte < 256) bytes }
    ensures value { result ≡ products halves bytes }
    ensures small { sum_l result < 2 ^ 64 }
{
    halves.strict_mul(bytes)
}

// The low 32 bits of each lane.
fn low_halves(lanes: u64x32) -> u64x32
    requires { length lanes ≡ 32 }
    ensures value { result ≡ map low lanes }
    ensures small { Each1 (λ half. half < 4294967296) result }
{
    lanes & u64x32::splat(0xffff_ffff)
}

// The high 32 bits of each lane.
fn high_halves(lanes: u64x32) -> u64x32
    requires { length lanes ≡ 32 }
    ensures value { result ≡ map high lanes }
    ensures small { Each1 (λ half. half < 4294967296) result }
{
    lanes >> u64x32::splat(32)
}

// Bytes as lanes.
fn widened(bytes: &[u8; 32]) -> u64x32
    ensures { result ≡ bytes.now }
{
    u8x32::from_array(*bytes).cast::<u64>()
}

// Numbers of eight bytes as lanes.
fn loaded(numbers: &[[u8; 8]; 32]) -> u64x32
    ensures { result ≡ numbers_of numbers.now }
{
    let mut lanes = [0; 32];
    for i in 0..32 {
        lanes[i] = u64::from_le_bytes(numbers[i]);
    }
    u64x32::from_array(lanes)
}
