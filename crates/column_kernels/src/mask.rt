//! Masks: one truth value a row.
ghost use Rattle.std.specs.Prelude.{◌≡◌, ◌≤◌, ◌<◌, ◌^◌, ◌+◌, ◌*◌, ◌++◌, ◌==◌, ◌-ℤ◌, pos, if◌then◌else◌, length, take};
ghost use Rattle.std.specs.Prelude.{drop, slice_get, sum, count_by, IfOk, IsOkUnless};
ghost use Rattle.std.specs.Int.{bit_at};
ghost use Rattle.std.specs.List.{flat_map};
ghost use Rattle.std.specs.Simd.Lanes.{mask_l, zip2};
ghost use Rattle.cube_model.specs.Aggregates.{total};
ghost use Rattle.cube_model.specs.Limits.{most_batch_rows};
ghost use Rattle.column_kernels.specs.Masks.{lies_in, bits_of, selected_by};
ghost use Rattle.column_kernels.specs.Sums.{numbers_of, products, differences};

use crate::block::block_mask;
use crate::column::{Bytes, Column, Numbers, Products};
use cube_model::Fault;
use std::alloc::Global;
use std::marker::Model;

/// One truth value for each row of a batch: whether the row is selected.
#[derive(Drop)]
pub struct Mask {
    // a bit a row of each whole block of 32 rows, the first row's the lowest
    words: Vec<u32>,
    // the bits of the rows after the last whole block
    rest: u32,
    rest_rows: u32,
}

impl Model for Mask {
    ghost use Rattle.std.specs.Prelude.{Bool, List, ◌++◌, ◌≤◌, ◌<◌, ◌^◌, length};
    ghost use Rattle.std.specs.List.{flat_map};
    ghost use Rattle.column_kernels.specs.Masks.{bits_of};

    ghost Value = { List Bool };

    ghost view = { λ m. flat_map (bits_of 32) m.words.items ++ bits_of m.rest_rows m.rest };

    ghost invariant = { λ m. (length m.words.items ≤ 2048) × ((m.rest_rows < 32) × (m.rest < 2 ^ m.rest_rows)) };
}

impl Mask {
    /// The rows whose quantity and discount lie in their ranges, ends included. `Memory` where there is none.
    pub fn of_ranges(
        alloc: Global,
        quantities: &[u8],
        discounts: &[u8],
        quantity: (u8, u8),
        discount: (u8, u8),
    ) -> Result<Mask, Fault>
        requires rows { length discounts.now ≡ length quantities.now }
        requires few { length quantities.now ≤ most_batch_rows }
        ensures ok { IfOk result (λ mask. mask ≡ zip2 (lies_in quantity discount) quantities.now discounts.now) }
        ensures memory { IsOkUnless result Fault.Memory }
    {
        let (blocks, last) = quantities.as_chunks::<32>();
        let (others, other) = discounts.as_chunks::<32>();
        let words = whole_words(alloc, blocks, others, quantity, discount)?;
        Ok(Mask {
            words,
            rest: rest_mask(last, other, quantity, discount),
            rest_rows: last.len() as u32,
        })
    }

    /// How many rows it speaks of.
    pub fn rows(&self) -> usize
        ensures { result ≡ length self.now }
    {
        32 * self.words.len() + self.rest_rows as usize
    }

    /// How many rows are selected.
    pub fn count(&self) -> u32
        ensures { result ≡ count_by (λ chosen. chosen) self.now }
    {
        ones(&self.words) + self.rest.count_ones()
    }

    /// Whether a row is selected, if there is one of that number.
    pub fn get(&self, row: usize) -> Option<bool>
        ensures { result ≡ slice_get self.now row }
    {
        let block = row / 32;
        if block < self.words.len() {
            return Some(is_set(self.words[block], row % 32));
        }
        let place = row - 32 * self.words.len();
        if place >= self.rest_rows as usize {
            return None;
        }
        Some(is_set(self.rest, place))
    }

    /// The truth values as bits: a word for each whole block of 32 rows, the first row's bit the lowest, then the bits
    /// of the rows after them, and how many rows those are, fewer than 32. No other bit is set.
    pub fn words(&self) -> (&[u32], u32, u32)
        ensures bits { self.now ≡ flat_map (bits_of 32) result.0.now ++ bits_of result.2 result.1 }
        ensures rest { (result.2 < 32) × (result.1 < 2 ^ result.2) }
        ensures few { length result.0.now ≤ 2048 }
    {
        (&self.words, self.rest, self.rest_rows)
    }

    /// The sum of a column of bytes over the selected rows.
    pub fn sum_of_bytes(&self, column: &[u8]) -> u128
        requires rows { length column.now ≡ length self.now }
        ensures { result ≡ sum (selected_by self.now column.now) }
    {
        self.sum(&Bytes { column })
    }

    /// The sum of a column of numbers of eight bytes, the lowest first, over the selected rows.
    pub fn sum_of_numbers(&self, column: &[[u8; 8]]) -> u128
        requires rows { length column.now ≡ length self.now }
        ensures { result ≡ sum (selected_by self.now (numbers_of column.now)) }
    {
        self.sum(&Numbers { column })
    }

    /// The sum over the selected rows of numbers of eight bytes, each times a byte: of extended prices and discounts.
    pub fn sum_of_products(&self, column: &[[u8; 8]], factors: &[u8]) -> u128
        requires rows { length column.now ≡ length self.now }
        requires factors { length factors.now ≡ length self.now }
        ensures { result ≡ sum (selected_by self.now (products (numbers_of column.now) factors.now)) }
    {
        self.sum(&Products { column, factors })
    }

    /// The sum over the selected rows of numbers of eight bytes, each less another: of revenues and supply costs.
    pub fn sum_of_differences(&self, column: &[[u8; 8]], others: &[[u8; 8]]) -> i128
        requires rows { length column.now ≡ length self.now }
        requires others { length others.now ≡ length self.now }
        ensures { result ≡ total (selected_by self.now (differences (numbers_of column.now) (numbers_of others.now))) }
    {
        let sum = self.sum(&Numbers { column });
        let other = self.sum(&Numbers { column: others });
        difference(sum, other)
    }

    // The sum of a column over the selected rows.
    fn sum<C: Column>(&self, column: &C) -> u128
        requires rows { length (C.numbers column.now) ≡ length self.now }
        ensures value { result ≡ sum (selected_by self.now (C.numbers column.now)) }
        ensures small { result < 2 ^ 109 }
    {
        sum_of_blocks(&self.words, column)
            + sum_of_rest(self.words.len(), self.rest, self.rest_rows, column)
    }
}

// The bits of whole blocks of rows.
fn whole_words(
    alloc: Global,
    quantities: &[[u8; 32]],
    discounts: &[[u8; 32]],
    quantity: (u8, u8),
    discount: (u8, u8),
) -> Result<Vec<u32>, Fault>
    requires rows { length discounts.now ≡ length quantities.now }
    ensures ok { IfOk result (λ words. words.items
        ≡ zip2 (λ ones others. mask_l (zip2 (lies_in quantity discount) ones others)) quantities.now discounts.now) }
    ensures memory { IsOkUnless result Fault.Memory }
{
    let mut words = Vec::with_capacity(alloc, quantities.len())?;
    for i in 0..quantities.len() {
        words.push(block_mask(&quantities[i], &discounts[i], quantity, discount))?;
    }
    Ok(words)
}

// The bits of fewer than 32 rows.
fn rest_mask(quantities: &[u8], discounts: &[u8], quantity: (u8, u8), discount: (u8, u8)) -> u32
    requires rows { length discounts.now ≡ length quantities.now }
    requires few { length quantities.now < 32 }
    ensures { result ≡ mask_l (zip2 (lies_in quantity discount) quantities.now discounts.now) }
{
    let mut word = 0;
    for i in 0..quantities.len() {
        word += bit(
            lies_within(quantities[i], discounts[i], quantity, discount),
            i,
        );
    }
    word
}

// Whether a quantity and a discount lie in their ranges, ends included.
fn lies_within(one: u8, other: u8, quantity: (u8, u8), discount: (u8, u8)) -> bool
    ensures { result ≡ lies_in quantity discount one other }
{
    ((quantity.0 <= one) & (one <= quantity.1)) & ((discount.0 <= other) & (other <= discount.1))
}

// A word in which at most one bit is set.
fn bit(is_set: bool, place: usize) -> u32
    requires { place < 32 }
    ensures { result ≡ (if is_set then 2 ^ place else 0) }
{
    if is_set { 1 << place } else { 0 }
}

// Whether a bit of a word is set.
pub(crate) fn is_set(word: u32, place: usize) -> bool
    requires { place < 32 }
    ensures { result ≡ (bit_at word place == 1) }
{
    word >> place & 1 == 1
}

// How many bits of some words are set.
fn ones(words: &[u32]) -> u32
    requires few { length words.now ≤ 2048 }
    ensures value { result ≡ count_by (λ bit. bit) (flat_map (bits_of 32) words.now) }
    ensures small { result ≤ 65536 }
{
    let mut count = 0;
    for i in 0..words.len() {
        count += words[i].count_ones();
    }
    count
}

// The sum over the selected rows of whole blocks, of which each word has the bits.
fn sum_of_blocks<C: Column>(words: &[u32], column: &C) -> u128
    requires rows { 32 * length words.now ≤ length (C.numbers column.now) }
    requires few { length words.now ≤ 2048 }
    ensures value { result ≡ sum (selected_by (flat_map (bits_of 32) words.now)
        (take (32 * length words.now) (C.numbers column.now))) }
    ensures small { result ≤ length words.now * 2 ^ 97 }
{
    let mut sum = 0;
    for i in 0..words.len() {
        sum += column.block_sum(i, words[i]);
    }
    sum
}

// The sum over the selected ones of the rows after some whole blocks.
fn sum_of_rest<C: Column>(blocks: usize, word: u32, rows: u32, column: &C) -> u128
    requires rows { length (C.numbers column.now) ≡ 32 * blocks + rows }
    requires few { (blocks ≤ 2048) × (rows < 32) }
    ensures value { result ≡ sum (selected_by (bits_of rows word) (drop (32 * blocks) (C.numbers column.now))) }
    ensures small { result ≤ rows * 2 ^ 97 }
{
    let mut sum = 0;
    for i in 0..rows as usize {
        sum += number_if(is_set(word, i), column.number(32 * blocks + i));
    }
    sum
}

// A number, or 0.
fn number_if(is_set: bool, number: u128) -> u128
    ensures value { result ≡ (if is_set then number else 0) }
    ensures small { result ≤ number }
{
    if is_set { number } else { 0 }
}

// A sum less another, where both are small.
fn difference(sum: u128, other: u128) -> i128
    requires { (sum < 2 ^ 109) × (other < 2 ^ 109) }
    ensures { result ≡ pos sum -ℤ pos other }
{
    sum as i128 - other as i128
}
