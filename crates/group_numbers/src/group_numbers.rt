//! The numbers of the groups of a query.
ghost use Rattle.std.specs.Prelude.{◌≡◌, ◌≤◌, length, IfOk};
ghost use Rattle.group_numbers.specs.Columns.{AreColumns};
ghost use Rattle.group_numbers.specs.Filters.{AreFilters};
ghost use Rattle.group_numbers.specs.Numbers.{group_count};
ghost use Rattle.group_numbers.specs.GroupNumbers.{AreSides, IsGroupNumbersOver, count_of, query_of, side_of};

use crate::bounds::Bounds;
use crate::column::Column;
use crate::copies::copied_query;
use crate::digits::group_count;
use crate::filters::Filters;
use crate::over::GroupNumbersOver;
use crate::side::Side;
use crate::sides::Sides;
use cube_model::{Axis, ProperQuery, Query};
use dimensions::Dims;
use std::alloc::{AllocError, Global};

/// A query made ready for some dimensions: its conditions, and what a row adds to the number of a group, are decided
/// once for all rows with the same attributes. Dimensions that it does not use are not looked at.
///
/// It keeps its own copy of the query and its own tables, by kinds of rows and by keys, and borrows nothing.
pub struct GroupNumbers {
    pub(crate) query: Query,
    pub(crate) bounds: Bounds,
    pub(crate) columns: Vec<Column>,
    pub(crate) sides: Sides,
    pub(crate) filters: Filters,
    pub(crate) count: u128,
}

// Written out, so that a proof has one call to follow where the value is dropped.
impl Drop for GroupNumbers {
    fn drop(self) {
        let GroupNumbers {
            query: _,
            bounds: _,
            columns: _,
            sides: _,
            filters: _,
            count: _,
        } = self;
    }
}

impl GroupNumbers {
    /// Makes a proper query ready. It can only fail when out of memory.
    pub fn new(
        alloc: Global,
        dims: &Dims,
        query: &ProperQuery<'_>,
    ) -> Result<GroupNumbers, AllocError>
        ensures over { IfOk result (IsGroupNumbersOver dims.now) }
        ensures query { IfOk result (λ grouping. query_of grouping ≡ query.now) }
    {
        let query = query.get();
        let count = group_count(dims, query.columns.as_slice());
        let (sides, filters) = sides_and_filters(alloc, dims, query, count)?;
        let (copy, columns) = copy_and_columns(alloc, dims, query)?;
        Ok(GroupNumbers {
            query: copy,
            bounds: Bounds::of(query.conditions.as_slice()),
            columns,
            sides,
            filters,
            count,
        })
    }

    /// The query.
    pub fn query(&self) -> &Query
        ensures { result.now ≡ query_of self.now }
    {
        &self.query
    }

    // What is kept of a dimension.
    pub(crate) fn side(&self, axis: Axis) -> &Side
        ensures { result.now ≡ side_of self.now axis }
    {
        self.sides.on(axis)
    }

    /// How many groups there can be. Numbers of groups are below it.
    pub fn group_count(&self) -> u128
        ensures { result ≡ count_of self.now }
    {
        self.count
    }

    /// The group numbers with the dimensions that they were made over.
    pub fn over<'a>(&'a self, dims: &'a Dims) -> GroupNumbersOver<'a>
        requires { IsGroupNumbersOver dims.now self.now }
        ensures { result ≡ record { dimensions = dims.now; query = query_of self.now } }
    {
        GroupNumbersOver::of(dims, self)
    }
}

// What the rows of each dimension give, and which of them a query cannot select.
fn sides_and_filters(
    alloc: Global,
    dims: &Dims,
    query: &Query,
    count: u128,
) -> Result<(Sides, Filters), AllocError>
    requires few { length query.now.columns ≤ 6 }
    requires count { count ≡ group_count dims.now query.now.columns }
    ensures sides { IfOk result (λ both. AreSides dims.now query.now both.0) }
    ensures filters { IfOk result (λ both. AreFilters dims.now query.now both.1) }
{
    let sides = Sides::of(alloc, dims, query, count)?;
    let filters = Filters::of(alloc, dims, query, &sides)?;
    Ok((sides, filters))
}

// A copy of a query, and its columns over dimensions.
fn copy_and_columns(
    alloc: Global,
    dims: &Dims,
    query: &Query,
) -> Result<(Query, Vec<Column>), AllocError>
    requires few { length query.now.columns ≤ 6 }
    ensures copy { IfOk result (λ both. both.0 ≡ query.now) }
    ensures columns { IfOk result
        (λ both. AreColumns dims.now query.now.columns (length query.now.columns) both.1.items) }
{
    let copy = copied_query(alloc, query)?;
    let columns = Column::all(alloc, dims, query.columns.as_slice())?;
    Ok((copy, columns))
}
