//! Checks of columns, in loops that keep a flag and do not end early.
ghost use Rattle.std.specs.Prelude.{◌≡◌};
ghost use Rattle.column_kernels.specs.Checks.{all_below, two_byte_codes};
ghost use Rattle.column_kernels.specs.Sums.{numbers_of};

/// The least number that is no amount: 2 to the power of 63.
const TOO_MUCH: u64 = 1 << 63;

/// Whether each number of a column is an amount, that is below 2 to the power of 63.
pub fn are_amounts(column: &[[u8; 8]]) -> bool
    ensures { result ≡ all_below 9223372036854775808 (numbers_of column.now) }
{
    let mut fine = true;
    for bytes in column {
        fine = fine & (u64::from_le_bytes(*bytes) < TOO_MUCH);
    }
    fine
}

/// Whether each code of a column is below a count.
pub fn are_below(column: &[[u8; 2]], count: u32) -> bool
    ensures { result ≡ all_below count (two_byte_codes column.now) }
{
    let mut fine = true;
    for code in column {
        fine = fine & (u32::from(u16::from_le_bytes(*code)) < count);
    }
    fine
}
