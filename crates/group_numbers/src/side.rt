//! What the rows of one dimension give to the number of a group.
ghost use Rattle.std.specs.Prelude.{◌≡◌, ◌↔◌, ℕ, ◌<◌, ◌≤◌, ◌^◌, false, length, map, slice_index_or, IfOk, IfSome};
ghost use Rattle.std.specs.Prelude.{IsTrue, OnOk, OnErr};
ghost use Rattle.std.specs.List.{list_any};
ghost use Rattle.cube_model.specs.Attributes.{axis_of};
ghost use Rattle.cube_model.specs.Places.{row_index_of, row_count_of};
ghost use Rattle.group_numbers.specs.Kinds.{kind_at};
ghost use Rattle.group_numbers.specs.Numbers.{group_count};
ghost use Rattle.group_numbers.specs.Parts.{digits_on, given_at, is_on, is_same, is_used};
ghost use Rattle.group_numbers.specs.GroupNumbers.{IsSide, gives};

use crate::digits::{Digit, part_by};
use crate::kinds::{Kinds, places_of_kinds};
use crate::places::{all_hold_at, is_same};
use cube_model::{Attr, Axis, Cond, Query};
use dimensions::Dims;
use std::alloc::{AllocError, Global};

/// The most groups whose numbers fit 32 bits.
const NARROW: u128 = 4_294_967_296;

/// No row of the dimension has the key.
#[derive(Clone, Copy, PartialEq, Eq)]
pub struct UnknownKey;

/// What the rows of a dimension give to the number of a group.
///
/// By the kinds of the rows: what a row of each kind adds to the number, and nothing where a condition does not hold.
#[derive(Drop)]
pub enum Side {
    /// No condition and no column is on the dimension.
    Unused,
    /// Numbers of 32 bits.
    Narrow(Vec<Option<u32>>),
    /// Numbers of any size.
    Wide(Vec<Option<u128>>),
}

impl Side {
    /// What the rows of a dimension give by a query with at most six columns, which make some count of groups.
    pub fn of(
        alloc: Global,
        dims: &Dims,
        query: &Query,
        axis: Axis,
        count: u128,
    ) -> Result<Side, AllocError>
        requires few { length query.now.columns ≤ 6 }
        requires count { count ≡ group_count dims.now query.now.columns }
        ensures side { IfOk result (IsSide dims.now query.now axis) }
        ensures unused { IfOk result (λ side. side ≡ Side.Unused → is_used query.now axis ≡ false) }
        ensures used { IfOk result (λ side. is_used query.now axis ≡ false → side ≡ Side.Unused) }
    {
        if !is_used(query, axis) {
            return Ok(Side::Unused);
        }
        let places = places_of_kinds(alloc, dims, axis)?;
        if count <= NARROW {
            Ok(Side::Narrow(narrow_parts(alloc, dims, query, axis, &places)?))
        } else {
            Ok(Side::Wide(wide_parts(alloc, dims, query, axis, &places)?))
        }
    }

    /// What the row with a key gives. It refuses a key that no row of the dimension has.
    pub fn given(&self, dims: &Dims, axis: Axis, key: u32) -> Result<Option<u128>, UnknownKey>
        ensures ok { IfOk result
            (λ part. part ≡ gives self.now (kind_at dims.now axis (row_index_of dims.now axis key))) }
        ensures known { OnOk result (row_index_of dims.now axis key < row_count_of dims.now axis) }
        ensures unknown { OnErr result (row_count_of dims.now axis ≤ row_index_of dims.now axis key) }
    {
        let place = dims.row_index(axis, key);
        if place >= dims.row_count(axis) {
            return Err(UnknownKey);
        }
        let kind = Kinds::of(dims, axis).at(place);
        Ok(self.at(kind))
    }

    /// Whether no condition and no column is on the dimension.
    pub fn is_unused(&self) -> bool
        ensures { IsTrue result ↔ (self.now ≡ Side.Unused) }
    {
        matches!(self, Side::Unused)
    }

    // What a row of a kind gives.
    pub(crate) fn at(&self, kind: usize) -> Option<u128>
        ensures { result ≡ gives self.now kind }
    {
        match self {
            Side::Unused => Some(0),
            Side::Narrow(parts) => match parts.get(kind) {
                Some(Some(part)) => Some(u128::from(*part)),
                _ => None,
            },
            Side::Wide(parts) => match parts.get(kind) {
                Some(Some(part)) => Some(*part),
                _ => None,
            },
        }
    }
}

// The same number in 32 bits.
fn narrow(part: Option<u128>) -> Option<u32>
    requires { IfSome part (λ number. number < 2 ^ 32) }
    ensures { result ≡ part }
{
    match part {
        None => None,
        Some(number) => Some(number as u32),
    }
}

// What the rows at some places of a dimension give, in numbers of 32 bits.
fn narrow_parts(
    alloc: Global,
    dims: &Dims,
    query: &Query,
    axis: Axis,
    places: &[usize],
) -> Result<Vec<Option<u32>>, AllocError>
    requires few { length query.now.columns ≤ 6 }
    requires narrow { group_count dims.now query.now.columns ≤ 2 ^ 32 }
    requires places { (i : ℕ) → i < length places.now → slice_index_or places.now i 0 < row_count_of dims.now axis }
    ensures { IfOk result (λ parts. parts.items ≡ map (given_at dims.now query.now axis) places.now) }
{
    let digits = Digit::all_on(alloc, dims, axis, query.columns.as_slice())?;
    let mut parts = Vec::with_capacity(alloc, places.len())?;
    for place in places {
        parts.push(narrow(given_at(dims, query, axis, digits.as_slice(), *place)))?;
    }
    Ok(parts)
}

// What the rows at some places of a dimension give.
fn wide_parts(
    alloc: Global,
    dims: &Dims,
    query: &Query,
    axis: Axis,
    places: &[usize],
) -> Result<Vec<Option<u128>>, AllocError>
    requires few { length query.now.columns ≤ 6 }
    requires fits { group_count dims.now query.now.columns < 2 ^ 128 }
    requires places { (i : ℕ) → i < length places.now → slice_index_or places.now i 0 < row_count_of dims.now axis }
    ensures { IfOk result (λ parts. parts.items ≡ map (given_at dims.now query.now axis) places.now) }
{
    let digits = Digit::all_on(alloc, dims, axis, query.columns.as_slice())?;
    let mut parts = Vec::with_capacity(alloc, places.len())?;
    for place in places {
        parts.push(given_at(dims, query, axis, digits.as_slice(), *place))?;
    }
    Ok(parts)
}

// Whether a column or a condition is on a dimension.
fn is_used(query: &Query, axis: Axis) -> bool
    ensures { result ≡ is_used query.now axis }
{
    has_column(query.columns.as_slice(), axis) || has_condition(query.conditions.as_slice(), axis)
}

fn has_column(columns: &[Attr], axis: Axis) -> bool
    ensures { result ≡ list_any (λ column. is_same (axis_of column) axis) columns.now }
{
    columns.iter().any(|column| is_same(column.axis(), axis))
}

/// Whether a condition is on a dimension.
pub fn has_condition(conditions: &[Cond], axis: Axis) -> bool
    ensures { result ≡ list_any (is_on axis) conditions.now }
{
    conditions.iter().any(|condition| is_on(condition, axis))
}

// Whether a condition is on a dimension.
fn is_on(condition: &Cond, axis: Axis) -> bool
    ensures { result ≡ is_on axis condition.now }
{
    match condition {
        Cond::OneOf(attr, _) | Cond::Between(attr, _, _) => is_same(attr.axis(), axis),
        Cond::Quantity(_, _) | Cond::Discount(_, _) => false,
    }
}

// What the row at a place gives, by the digits of its dimension.
fn given_at(dims: &Dims, query: &Query, axis: Axis, digits: &[Digit], place: usize) -> Option<u128>
    requires place { place < row_count_of dims.now axis }
    requires digits { digits.now ≡ digits_on dims.now axis query.now.columns }
    requires fits { group_count dims.now query.now.columns < 2 ^ 128 }
    ensures { result ≡ given_at dims.now query.now axis place }
{
    if all_hold_at(dims, axis, place, query.conditions.as_slice()) {
        Some(part_by(dims, place, digits))
    } else {
        None
    }
}
