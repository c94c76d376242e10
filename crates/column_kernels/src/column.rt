//! Columns as they are in the bytes of a batch, which are added up 32 rows at a time.
ghost use Rattle.std.specs.Prelude.{◌≡◌, ◌+◌, ◌*◌, ◌^◌, ◌<◌, ◌≤◌, ℕ, ℤ, pos, ◌-ℤ◌, List, length, sum, slice_index};
ghost use Rattle.std.specs.Prelude.{slice_index_or};
ghost use Rattle.std.specs.Simd.Lanes.{chunk};
ghost use Rattle.column_kernels.specs.Masks.{bits_of, selected_by};

use crate::lanes::{sum_of_bytes, sum_of_numbers, sum_of_products};

/// A number a row.
pub(crate) trait Column {
    /// The numbers of the rows.
    ghost numbers: { Self → List ℕ };

    /// The sum over those of a block's 32 rows whose bit is set in a word.
    fn block_sum(&self, block: usize, word: u32) -> u128
        requires within { 32 * block + 32 ≤ length (numbers self.now) }
        ensures value { result ≡ sum (selected_by (bits_of 32 word) (chunk (32 * block) 32 (numbers self.now))) }
        ensures small { result ≤ 2 ^ 97 };

    /// The number of a row.
    fn number(&self, row: usize) -> u128
        requires within { row < length (numbers self.now) }
        ensures value { result ≡ slice_index (numbers self.now) row }
        ensures small { result ≤ 2 ^ 97 };
}

/// Bytes.
#[derive(Clone, Copy)]
pub(crate) struct Bytes<'a> {
    pub(crate) column: &'a [u8],
}

impl<'a> Column for Bytes<'a> {
    ghost numbers = { λ c. c.column.now };

    fn block_sum(&self, block: usize, word: u32) -> u128 {
        sum_of_bytes(word, &self.column.as_chunks::<32>().0[block])
    }

    fn number(&self, row: usize) -> u128 {
        u128::from(self.column[row])
    }
}

/// Numbers of eight bytes, the lowest first.
#[derive(Clone, Copy)]
pub(crate) struct Numbers<'a> {
    pub(crate) column: &'a [[u8; 8]],
}

impl<'a> Column for Numbers<'a> {
    ghost use Rattle.column_kernels.specs.Sums.{numbers_of};

    ghost numbers = { λ c. numbers_of c.column.now };

    fn block_sum(&self, block: usize, word: u32) -> u128 {
        sum_of_numbers(word, &self.column.as_chunks::<32>().0[block])
    }

    fn number(&self, row: usize) -> u128 {
        u128::from(u64::from_le_bytes(self.column[row]))
    }
}

/// Numbers of eight bytes, each times a byte.
#[derive(Clone, Copy)]
pub(crate) struct Products<'a> {
    pub(crate) column: &'a [[u8; 8]],
    pub(crate) factors: &'a [u8],
}

impl<'a> Column for Products<'a> {
    ghost use Rattle.column_kernels.specs.Sums.{numbers_of, products};

    ghost numbers = { λ c. products (numbers_of c.column.now) c.factors.now };

    fn block_sum(&self, block: usize, word: u32) -> u128 {
        let numbers = &self.column.as_chunks::<32>().0[block];
        let factors = &self.factors.as_chunks::<32>().0[block];
        sum_of_products(word, numbers, factors)
    }

    fn number(&self, row: usize) -> u128 {
        u128::from(u64::from_le_bytes(self.column[row])) * u128::from(self.factors[row])
    }
}

/// A whole number a row.
pub(crate) trait WholeColumn {
    /// The numbers of the rows.
    ghost wholes: { Self → List ℤ };

    /// The number of a row.
    fn whole(&self, row: usize) -> i128
        requires within { row < length (wholes self.now) }
        ensures value { result ≡ slice_index_or (wholes self.now) row (pos 0) };
}

/// The numbers of a column, as whole numbers.
#[derive(Clone, Copy)]
pub(crate) struct Whole<C> {
    pub(crate) column: C,
}

impl<C: Column> WholeColumn for Whole<C> {
    ghost use Rattle.column_kernels.specs.Extremes.{wholes};

    ghost wholes = { λ w. wholes (C.numbers w.column) };

    fn whole(&self, row: usize) -> i128 {
        self.column.number(row) as i128
    }
}

/// Numbers of eight bytes, each less another.
#[derive(Clone, Copy)]
pub(crate) struct Differences<'a> {
    pub(crate) column: &'a [[u8; 8]],
    pub(crate) others: &'a [[u8; 8]],
}

impl<'a> WholeColumn for Differences<'a> {
    ghost use Rattle.column_kernels.specs.Sums.{numbers_of, differences};

    ghost wholes = { λ d. differences (numbers_of d.column.now) (numbers_of d.others.now) };

    fn whole(&self, row: usize) -> i128 {
        less(
            u64::from_le_bytes(self.column[row]),
            u64::from_le_bytes(self.others[row]),
        )
    }
}

// A number less another.
fn less(number: u64, other: u64) -> i128
    ensures { result ≡ pos number -ℤ pos other }
{
    i128::from(number) - i128::from(other)
}
