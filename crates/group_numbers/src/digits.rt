//! The digits of the numbers of groups.
ghost use Rattle.std.specs.Prelude.{◌≡◌, ◌≤◌, ◌<◌, ◌^◌, length, All, IfOk};
ghost use Rattle.cube_model.specs.Attributes.{axis_of};
ghost use Rattle.cube_model.specs.Places.{row_count_of};
ghost use Rattle.group_numbers.specs.Numbers.{group_count};
ghost use Rattle.group_numbers.specs.Parts.{digits_on, part_by, number_room_of};

use crate::places::is_same;
use cube_model::{Attr, Axis};
use dimensions::Dims;
use std::alloc::{AllocError, Global};

/// How many groups the digits of some columns can make, at most six.
pub fn group_count(dims: &Dims, columns: &[Attr]) -> u128
    requires { length columns.now ≤ 6 }
    ensures count { result ≡ group_count dims.now columns.now }
    ensures bound { result ≤ number_room_of columns.now }
{
    match columns {
        [] => 1,
        [column, others @ ..] => {
            let digits = dims.members(*column) as u128 + 1;
            digits * group_count(dims, others)
        }
    }
}

/// A column on a dimension as a digit of the numbers of groups: its attribute, and what a rank in it counts there.
#[derive(Clone, Copy, PartialEq, Eq)]
pub struct Digit {
    pub attr: Attr,
    pub weight: u128,
}

impl Digit {
    /// The digits of a dimension by some columns, at most six, in their order. It can only fail when out of memory.
    pub fn all_on(
        alloc: Global,
        dims: &Dims,
        axis: Axis,
        columns: &[Attr],
    ) -> Result<Vec<Digit>, AllocError>
        requires { length columns.now ≤ 6 }
        ensures { IfOk result (λ digits. digits.items ≡ digits_on dims.now axis columns.now) }
    {
        let mut digits = Vec::new(alloc);
        for i in 0..columns.len() {
            let attr = columns[i];
            if is_same(attr.axis(), axis) {
                digits.push(Digit {
                    attr,
                    weight: group_count(dims, &columns[i + 1..]),
                })?;
            }
        }
        Ok(digits)
    }
}

/// What a place adds to the number of a group by some digits, which are those of its dimension.
pub fn part_by(dims: &Dims, place: usize, digits: &[Digit]) -> u128
    requires place { All (λ digit. place < row_count_of dims.now (axis_of digit.attr)) digits.now }
    requires fits { part_by dims.now place digits.now < 2 ^ 128 }
    ensures { result ≡ part_by dims.now place digits.now }
{
    let mut part = 0;
    for digit in digits {
        part += u128::from(dims.rank(digit.attr, place)) * digit.weight;
    }
    part
}
