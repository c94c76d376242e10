//! The least and the greatest of columns over selected rows.
ghost use Rattle.std.specs.Prelude.{◌≡◌, ◌≤◌, ◌<◌, ◌+◌, ◌*◌, ◌++◌, ◌↔◌, ◌<ℤ◌, ℤ, IsTrue, [], List, cond, length, take};
ghost use Rattle.std.specs.Prelude.{drop};
ghost use Rattle.std.specs.List.{flat_map};
ghost use Rattle.column_kernels.specs.Masks.{bits_of, selected_by};
ghost use Rattle.column_kernels.specs.Sums.{numbers_of, products, differences};
ghost use Rattle.column_kernels.specs.Extremes.{extremes_of, kept_extremes, kept_with, wholes};

use crate::column::{Bytes, Differences, Numbers, Products, Whole, WholeColumn};
use crate::mask::{Mask, is_set};

/// The least and the greatest of the numbers that were gone through. Of none they are the ends of the range, the wrong
/// way round.
#[derive(Clone, Copy)]
pub(crate) struct Extremes {
    pub(crate) least: i128,
    pub(crate) greatest: i128,
}

impl Mask {
    /// The least and the greatest of a column of bytes over the selected rows, if there are any.
    pub fn extremes_of_bytes(&self, column: &[u8]) -> Option<(i128, i128)>
        requires rows { length column.now ≡ length self.now }
        ensures { result ≡ extremes_of (selected_by self.now (wholes column.now)) }
    {
        selected_extremes(
            self,
            &Whole {
                column: Bytes { column },
            },
        )
    }

    /// The same of a column of numbers of eight bytes, the lowest first.
    pub fn extremes_of_numbers(&self, column: &[[u8; 8]]) -> Option<(i128, i128)>
        requires rows { length column.now ≡ length self.now }
        ensures { result ≡ extremes_of (selected_by self.now (wholes (numbers_of column.now))) }
    {
        selected_extremes(
            self,
            &Whole {
                column: Numbers { column },
            },
        )
    }

    /// The same of numbers of eight bytes, each times a byte: of extended prices and discounts.
    pub fn extremes_of_products(&self, column: &[[u8; 8]], factors: &[u8]) -> Option<(i128, i128)>
        requires rows { length column.now ≡ length self.now }
        requires factors { length factors.now ≡ length self.now }
        ensures { result ≡ extremes_of (selected_by self.now (wholes (products (numbers_of column.now) factors.now))) }
    {
        selected_extremes(
            self,
            &Whole {
                column: Products { column, factors },
            },
        )
    }

    /// The same of numbers of eight bytes, each less another: of revenues and supply costs.
    pub fn extremes_of_differences(
        &self,
        column: &[[u8; 8]],
        others: &[[u8; 8]],
    ) -> Option<(i128, i128)>
        requires rows { length column.now ≡ length self.now }
        requires others { length others.now ≡ length self.now }
        ensures { result
            ≡ extremes_of (selected_by self.now (differences (numbers_of column.now) (numbers_of others.now))) }
    {
        selected_extremes(self, &Differences { column, others })
    }
}

impl Extremes {
    // Those of no number.
    fn none() -> Self
        ensures { result ≡ kept_extremes [] }
    {
        Extremes {
            least: i128::MAX,
            greatest: i128::MIN,
        }
    }

    // With one number more, if it is selected. It does not branch on that: the number is what was there already, if
    // not.
    fn with_if(self, is_selected: bool, number: i128) -> Self
        ensures { result ≡ cond is_selected (kept_with self number) self }
    {
        Extremes {
            least: self.least.min(number_or(is_selected, number, self.least)),
            greatest: self
                .greatest
                .max(number_or(is_selected, number, self.greatest)),
        }
    }

    // The least and the greatest, if there was a number.
    fn found(self) -> Option<(i128, i128)>
        ensures { (numbers : List ℤ) → self ≡ kept_extremes numbers → result ≡ extremes_of numbers }
    {
        if are_turned(self.least, self.greatest) {
            return None;
        }
        Some((self.least, self.greatest))
    }
}

// The least and the greatest of a column over the selected rows.
fn selected_extremes<C: WholeColumn>(mask: &Mask, column: &C) -> Option<(i128, i128)>
    requires rows { length (C.wholes column.now) ≡ length mask.now }
    ensures { result ≡ extremes_of (selected_by mask.now (C.wholes column.now)) }
{
    let bits = mask.words();
    let kept = kept_of_blocks(bits.0, column);
    kept_of_word(kept, bits.1, bits.2, 32 * bits.0.len(), column).found()
}

// What is kept of the selected rows of whole blocks, of which each word has the bits.
fn kept_of_blocks<C: WholeColumn>(words: &[u32], column: &C) -> Extremes
    requires rows { 32 * length words.now ≤ length (C.wholes column.now) }
    requires few { length words.now ≤ 2048 }
    ensures { result
        ≡ kept_extremes
        (selected_by (flat_map (bits_of 32) words.now) (take (32 * length words.now) (C.wholes column.now))) }
{
    let mut kept = Extremes::none();
    for i in 0..words.len() {
        kept = kept_of_word(kept, words[i], 32, 32 * i, column);
    }
    kept
}

// What is kept with the selected ones of some rows more, from the first on, of which a word has the bits.
fn kept_of_word<C: WholeColumn>(
    before: Extremes,
    word: u32,
    rows: u32,
    first: usize,
    column: &C,
) -> Extremes
    requires rows { first + rows ≤ length (C.wholes column.now) }
    requires few { (rows ≤ 32) × (first ≤ 65536) }
    ensures { (numbers : List ℤ) → before ≡ kept_extremes numbers
        → result ≡ kept_extremes
        (numbers ++ selected_by (bits_of rows word) (take rows (drop first (C.wholes column.now)))) }
{
    let mut kept = before;
    for i in 0..rows as usize {
        kept = kept.with_if(is_set(word, i), column.whole(first + i));
    }
    kept
}

// A number, or another one.
fn number_or(is_selected: bool, number: i128, other: i128) -> i128
    ensures { result ≡ cond is_selected number other }
{
    if is_selected { number } else { other }
}

// Whether two ends are the wrong way round.
fn are_turned(least: i128, greatest: i128) -> bool
    ensures { IsTrue result ↔ (greatest <ℤ least) }
{
    greatest < least
}
