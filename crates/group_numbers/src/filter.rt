//! Which fact rows a query cannot select, by their keys in a dimension.
ghost use Rattle.std.specs.Prelude.{◌≡◌, ◌⊎◌, ◌<◌, ◌≤◌, ℕ, ◌+◌, false, true, Some, slice_get, take, length, IfOk};
ghost use Rattle.std.specs.List.{filter};
ghost use Rattle.cube_model.specs.Attributes.{key_on};
ghost use Rattle.group_numbers.specs.Filters.{passes};
ghost use Rattle.group_numbers.specs.Kept.{ArePlaces};
ghost use Rattle.group_numbers.specs.GroupNumbers.{IsShut};
ghost use Rattle.group_numbers.specs.Rows.{row_at};

use crate::kinds::Kinds;
use crate::rows::FactRows;
use crate::side::Side;
use cube_model::Axis;
use dimensions::Dims;
use std::alloc::{AllocError, Global};

/// How far apart keys may lie: a filter spans at most four keys for each row of its dimension, and so many more.
const MORE_KEYS: usize = 65_536;

/// Which keys of a dimension are let pass, from a first key on. One that is not spanned passes.
#[derive(Drop)]
pub struct Filter {
    pub first: u32,
    pub passes: Vec<bool>,
}

impl Filter {
    /// A filter that lets each key pass.
    pub fn open(alloc: Global) -> Filter
        ensures { (key : ℕ) → passes result key ≡ true }
    {
        Filter {
            first: 0,
            passes: Vec::new(alloc),
        }
    }

    /// The filter of a dimension by what its rows give. Where its keys lie too far apart it lets each pass.
    pub fn of(alloc: Global, dims: &Dims, axis: Axis, side: &Side) -> Result<Filter, AllocError>
        ensures { IfOk result (λ made. (key : ℕ) → passes made key ≡ false → IsShut dims.now axis side.now key) }
    {
        let keys = dims.keys(axis);
        let kinds = Kinds::of(dims, axis);
        let (first, end) = span_of(keys);
        let mut passes = vec![in alloc; true; end.saturating_sub(first) as usize]?;
        for row in 0..keys.len() {
            let kind = kinds.at(row);
            let given = side.at(kind);
            mark(&mut passes, first, keys[row], given.is_some());
        }
        Ok(Filter { first, passes })
    }

    /// Whether it lets each key pass.
    pub fn is_open(&self) -> bool
        ensures { result ≡ true → (key : ℕ) → passes self.now key ≡ true }
    {
        self.passes.is_empty()
    }

    // Whether a key is let pass.
    fn lets_pass(&self, key: u32) -> bool
        ensures { result ≡ passes self.now key }
    {
        if key < self.first {
            return true;
        }
        match self.passes.get((key - self.first) as usize) {
            Some(passes) => *passes,
            None => true,
        }
    }

    /// Moves those places of fact rows to the front whose keys are let pass, in their order, and says how many they
    /// are.
    pub fn keep<F: FactRows>(&self, rows: &F, axis: Axis, places: &mut [u32]) -> usize
        requires { ArePlaces (F.rows rows.now) places.old }
        ensures kept { take result places.new
            ≡ filter (λ place. passes self.now (key_on axis (row_at (F.rows rows.now) place))) places.old }
        ensures few { result ≤ length places.old }
        ensures length { length places.new ≡ length places.old }
    {
        let mut kept = 0;
        for i in 0..places.len() {
            let place = places[i];
            places[kept] = place;
            kept += usize::from(self.lets_pass(rows.key(place as usize, axis)));
        }
        kept
    }
}

// Notes whether a key passes, if it is one of those from a first key on that have a mark.
fn mark(passes: &mut Vec<bool>, first: u32, key: u32, pass: bool)
    ensures { (k : ℕ) → slice_get passes.new.items k ≡ Some false
        → ((key ≡ first + k) × (pass ≡ false)) ⊎ (slice_get passes.old.items k ≡ Some false) }
{
    if key < first {
        return;
    }
    let at = (key - first) as usize;
    if at < passes.len() {
        passes[at] = pass;
    }
}

// The least key and the one after the greatest, where keys lie close together.
fn span_of(keys: &[u32]) -> (u32, u32) {
    let mut first = u32::MAX;
    let mut last = 0;
    for key in keys {
        first = first.min(*key);
        last = last.max(*key);
    }
    let span = last.saturating_sub(first) as usize;
    if span / 4 > keys.len() + MORE_KEYS / 4 {
        return (0, 0);
    }
    (first, last.saturating_add(1))
}
