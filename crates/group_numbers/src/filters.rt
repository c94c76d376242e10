//! Which fact rows a query cannot select, by their keys in each dimension.
ghost use Rattle.std.specs.Prelude.{◌≡◌, IfOk};
ghost use Rattle.group_numbers.specs.Filters.{AreFilters, IsFilter, filter_in};
ghost use Rattle.group_numbers.specs.GroupNumbers.{AreSides};

use crate::filter::Filter;
use crate::side::has_condition;
use crate::sides::Sides;
use cube_model::{Axis, Query};
use dimensions::Dims;
use std::alloc::{AllocError, Global};

/// A filter for each dimension.
#[derive(Drop)]
pub struct Filters {
    pub customers: Filter,
    pub suppliers: Filter,
    pub parts: Filter,
    pub dates: Filter,
}

impl Filters {
    /// The filters of a query, by what the rows of the dimensions give.
    pub fn of(
        alloc: Global,
        dims: &Dims,
        query: &Query,
        sides: &Sides,
    ) -> Result<Filters, AllocError>
        requires { AreSides dims.now query.now sides.now }
        ensures { IfOk result (AreFilters dims.now query.now) }
    {
        Ok(Filters {
            customers: filter_on(alloc, dims, query, sides, Axis::Customer)?,
            suppliers: filter_on(alloc, dims, query, sides, Axis::Supplier)?,
            parts: filter_on(alloc, dims, query, sides, Axis::Part)?,
            dates: filter_on(alloc, dims, query, sides, Axis::Date)?,
        })
    }

    /// That of a dimension.
    pub fn on(&self, axis: Axis) -> &Filter
        ensures { result.now ≡ filter_in self.now axis }
    {
        match axis {
            Axis::Customer => &self.customers,
            Axis::Supplier => &self.suppliers,
            Axis::Part => &self.parts,
            Axis::Date => &self.dates,
        }
    }
}

// The filter of a dimension: one that lets each key pass where no condition is on it.
fn filter_on(
    alloc: Global,
    dims: &Dims,
    query: &Query,
    sides: &Sides,
    axis: Axis,
) -> Result<Filter, AllocError>
    requires { AreSides dims.now query.now sides.now }
    ensures { IfOk result (IsFilter dims.now query.now axis) }
{
    if !has_condition(query.conditions.as_slice(), axis) {
        return Ok(Filter::open(alloc));
    }
    Filter::of(alloc, dims, axis, sides.on(axis))
}
