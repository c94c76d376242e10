//! What the rows of each dimension give to the number of a group.
ghost use Rattle.std.specs.Prelude.{◌≡◌, ◌≤◌, length, IfOk};
ghost use Rattle.cube_model.specs.declared.attr.Axis.{Axis};
ghost use Rattle.group_numbers.specs.Numbers.{group_count};
ghost use Rattle.group_numbers.specs.GroupNumbers.{AreSides, side_in};

use crate::side::Side;
use cube_model::{Axis, Query};
use dimensions::Dims;
use std::alloc::{AllocError, Global};

/// What the rows of each dimension give to the number of a group.
#[derive(Drop)]
pub struct Sides {
    pub customers: Side,
    pub suppliers: Side,
    pub parts: Side,
    pub dates: Side,
}

impl Sides {
    /// What the rows of each dimension give by a query with at most six columns, which make some count of groups.
    pub fn of(alloc: Global, dims: &Dims, query: &Query, count: u128) -> Result<Sides, AllocError>
        requires few { length query.now.columns ≤ 6 }
        requires count { count ≡ group_count dims.now query.now.columns }
        ensures { IfOk result (AreSides dims.now query.now) }
    {
        Ok(Sides {
            customers: Side::of(alloc, dims, query, Axis::Customer, count)?,
            suppliers: Side::of(alloc, dims, query, Axis::Supplier, count)?,
            parts: Side::of(alloc, dims, query, Axis::Part, count)?,
            dates: Side::of(alloc, dims, query, Axis::Date, count)?,
        })
    }

    /// Those of a dimension.
    pub fn on(&self, axis: Axis) -> &Side
        ensures { result.now ≡ side_in self.now axis }
    {
        match axis {
            Axis::Customer => &self.customers,
            Axis::Supplier => &self.suppliers,
            Axis::Part => &self.parts,
            Axis::Date => &self.dates,
        }
    }
}
