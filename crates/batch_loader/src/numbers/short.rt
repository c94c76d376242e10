//! Numbers of at most eight digits, all digits at once.
ghost use Rattle.std.specs.Prelude.{◌≡◌, ◌≤◌, ◌+◌, ◌*◌, ◌/◌, ◌%◌, ◌^◌, ◌<◌, ℕ, List, length, max, true, slice_range};
ghost use Rattle.std.specs.Int.{bit_at};
ghost use Rattle.std.specs.Slice.Scan.{little_endian};
ghost use Rattle.batch_loader.specs.Numbers.{digits_value};
ghost use Rattle.batch_loader.specs.ShortNumbers.{AreDigits, IsSpread, decimal_of, raised};

/// How far after a number's lower half the upper one lies.
const HALF: u64 = 4_294_967_296;

/// Eight digits 0.
const ZEROS: u64 = 0x3030_3030_3030_3030;

/// What brings eight bytes above nine to their highest bits.
const TO_HIGHEST: u64 = 0x7676_7676_7676_7676;

/// The highest bits of eight bytes.
const HIGHEST_BITS: u64 = 0x8080_8080_8080_8080;

/// Whether so many of the eight bytes from a place on are digits.
#[inline(always)]
pub fn are_digits(text: &[u8], start: usize, count: usize) -> bool
    requires some { 0 < count }
    requires few { count ≤ 8 }
    requires room { start + 8 ≤ length text.now }
    ensures { result ≡ true → AreDigits text.now start count }
{
    let others = marks_above_nine(word_at(text, start).wrapping_sub(ZEROS));
    others << (64 - 8 * count) == 0
}

/// Marks of a number's bytes, at their highest bits. The lowest byte above nine has one, and the bytes below it have
/// none.
#[inline(always)]
fn marks_above_nine(number: u64) -> u64
    ensures { (k : ℕ) → k < 8
        → bit_at result (8 * k + 7) ≡ max (bit_at number (8 * k + 7)) (bit_at (raised number) (8 * k + 7)) }
{
    (number.wrapping_add(TO_HIGHEST) | number) & HIGHEST_BITS
}

/// The value of at most eight digits from a place on.
#[inline(always)]
pub fn short_value(text: &[u8], start: usize, count: usize) -> u64
    requires some { 0 < count }
    requires few { count ≤ 8 }
    requires room { start + 8 ≤ length text.now }
    requires digits { AreDigits text.now start count }
    ensures { result ≡ digits_value (slice_range text.now start (start + count)) }
{
    let digits = word_at(text, start).wrapping_sub(ZEROS) << (64 - 8 * count);
    value_of_eight(digits)
}

/// The eight bytes from a place on as a number, the first one lowest.
#[inline(always)]
fn word_at(text: &[u8], start: usize) -> u64
    requires { start + 8 ≤ length text.now }
    ensures { result ≡ little_endian text.now start }
{
    u64::from_le_bytes([
        text[start],
        text[start + 1],
        text[start + 2],
        text[start + 3],
        text[start + 4],
        text[start + 5],
        text[start + 6],
        text[start + 7],
    ])
}

/// The value of eight digits that are the bytes of a number, the first one lowest.
#[inline(always)]
fn value_of_eight(number: u64) -> u64
    ensures { (digits : List ℕ) → IsSpread number digits → result ≡ decimal_of digits }
{
    // Each byte of a pair at an even place is ten times its digit and the next one.
    let pairs = number.wrapping_mul(10).wrapping_add(number >> 8);
    // Each product has its part of the value after its lower half, which no carry leaves.
    let first = (byte(pairs, 0) + byte(pairs, 32) * HALF).wrapping_mul(1_000_000 * HALF + 100);
    let second = (byte(pairs, 16) + byte(pairs, 48) * HALF).wrapping_mul(10_000 * HALF + 1);
    first.wrapping_add(second) / HALF
}

/// The byte of a number after some bits.
#[inline(always)]
fn byte(number: u64, bits: u32) -> u64
    requires { bits < 64 }
    ensures value { result ≡ number / 2 ^ bits % 256 }
    ensures small { result < 256 }
{
    (number >> bits) & 255
}
