//! Group numbers with their dimensions.
ghost use Rattle.std.specs.Prelude.{◌≡◌, ◌+◌, ◌^◌, ◌<◌, ◌≤◌, true, length, take, slice_index_or, slice_set, IfNone};
ghost use Rattle.std.specs.Prelude.{IfOk, IfSome, OnOk, OnErr};
ghost use Rattle.std.specs.List.{list_all};
ghost use Rattle.cube_model.specs.declared.answer.Member.TheVariants.{All, Text};
ghost use Rattle.cube_model.specs.declared.attr.Axis.TheVariants.{Customer, Supplier, Part, Date};
ghost use Rattle.cube_model.specs.declared.rows.LineOrder.{LineOrder};
ghost use Rattle.cube_model.specs.Places.{row_count_of, row_index_of};
ghost use Rattle.group_numbers.specs.Columns.{attr_at};
ghost use Rattle.cube_model.specs.Keys.{is_all};
ghost use Rattle.group_numbers.specs.Kept.{ArePlaces, KeepPlaces};
ghost use Rattle.group_numbers.specs.Numbers.{IsKnown, IsKnownOn, IsGroupNumber, digit_count, group_count};
ghost use Rattle.group_numbers.specs.Numbers.{group_key_at};
ghost use Rattle.group_numbers.specs.Numbers.{digit_member};
ghost use Rattle.group_numbers.specs.Parts.{IsKnownFor, given_at, given_on, holds_in, is_used};
ghost use Rattle.group_numbers.specs.GroupNumbers.{AreBounds, IsGroupNumbersOf, query_of};
ghost use Rattle.group_numbers.specs.Rows.{row_at};

use crate::bounds::Bounds;
use crate::group_numbers::GroupNumbers;
use crate::kinds::Kinds;
use crate::rows::FactRows;
use crate::side::UnknownKey;
use cube_model::{Axis, Items, Member};
use dimensions::Dims;
use std::alloc::{AllocError, Global};
use std::marker::Model;

/// Group numbers with the dimensions that they were made over: the groups of a query by numbers.
///
/// Contracts see the query and the dimensions.
#[derive(Drop)]
pub struct GroupNumbersOver<'a> {
    dims: &'a Dims,
    grouping: &'a GroupNumbers,
}

impl<'a> Model for GroupNumbersOver<'a> {
    ghost use Rattle.group_numbers.specs.Numbers.{Asked};
    ghost use Rattle.group_numbers.specs.GroupNumbers.{IsGroupNumbersOf, query_of};

    ghost Value = { Asked };

    ghost view = { λ over. record { dimensions = over.dims.now; query = query_of over.grouping.now } };

    ghost invariant = { λ over. IsGroupNumbersOf over.dims.now over.grouping.now };
}

impl<'a> GroupNumbersOver<'a> {
    // Group numbers with their dimensions.
    pub(crate) fn of(dims: &'a Dims, grouping: &'a GroupNumbers) -> GroupNumbersOver<'a>
        requires { IsGroupNumbersOf dims.now grouping.now }
        ensures { result ≡ record { dimensions = dims.now; query = query_of grouping.now } }
    {
        GroupNumbersOver { dims, grouping }
    }

    /// The number of the group of the fact row at a place, if the row is selected. It refuses a row with a key that no
    /// dimension row has, but it does not look at the key in a dimension that the query does not use, and where another
    /// number of the row tells that it is not selected it may not look at any.
    pub fn number<F: FactRows>(&self, rows: &F, place: usize) -> Result<Option<u128>, UnknownKey>
        requires { place < length (F.rows rows.now) }
        ensures ok { IfOk result (IsGroupNumber self.now.dimensions self.now.query (row_at (F.rows rows.now) place)) }
        ensures unknown { OnErr result (IsKnownFor self.now.dimensions self.now.query (row_at (F.rows rows.now) place)
            → ⊥) }
    {
        let quantity = rows.quantity(place);
        let discount = rows.discount(place);
        if !self.grouping.bounds.hold(quantity, discount) {
            return Ok(None);
        }
        self.number_within(rows, place)
    }

    // The number of the group of a fact row whose own numbers meet the conditions on them, if the row is selected.
    fn number_within<F: FactRows>(&self, rows: &F, place: usize) -> Result<Option<u128>, UnknownKey>
        requires place { place < length (F.rows rows.now) }
        requires within { list_all (holds_in (row_at (F.rows rows.now) place)) self.now.query.conditions ≡ true }
        requires fits { group_count self.now.dimensions self.now.query.columns < 2 ^ 128 }
        ensures ok { IfOk result (IsGroupNumber self.now.dimensions self.now.query (row_at (F.rows rows.now) place)) }
        ensures unknown { OnErr result (IsKnownFor self.now.dimensions self.now.query (row_at (F.rows rows.now) place)
            → ⊥) }
    {
        let customer = match self.given(rows, place, Axis::Customer) {
            Ok(Some(customer)) => customer,
            Ok(None) => return Ok(None),
            Err(error) => return Err(error),
        };
        let supplier = match self.given(rows, place, Axis::Supplier) {
            Ok(Some(supplier)) => supplier,
            Ok(None) => return Ok(None),
            Err(error) => return Err(error),
        };
        let part = match self.given(rows, place, Axis::Part) {
            Ok(Some(part)) => part,
            Ok(None) => return Ok(None),
            Err(error) => return Err(error),
        };
        let date = match self.given(rows, place, Axis::Date) {
            Ok(Some(date)) => date,
            Ok(None) => return Ok(None),
            Err(error) => return Err(error),
        };
        Ok(Some(sum_of(customer, supplier, part, date)))
    }

    /// What the dimension row with a key gives to the number of a group: nothing where it fails a condition.
    pub fn part(&self, axis: Axis, key: u32) -> Option<u128>
        requires { row_index_of self.now.dimensions axis key < row_count_of self.now.dimensions axis }
        ensures { result ≡ given_at self.now.dimensions self.now.query axis
            (row_index_of self.now.dimensions axis key) }
    {
        let place = self.dims.row_index(axis, key);
        let kind = Kinds::of(self.dims, axis).at(place);
        self.grouping.side(axis).at(kind)
    }

    /// The number of the group of a fact row, if the row is selected, by what the dimension rows with its keys give. It
    /// looks at no number of the row: they have to be such as the query asks for.
    #[inline]
    pub fn number_by(
        &self,
        customer: Option<u128>,
        supplier: Option<u128>,
        part: Option<u128>,
        date: Option<u128>,
    ) -> Option<u128>
        ensures { (row : LineOrder) → IsKnown self.now.dimensions row
            → list_all (holds_in row) self.now.query.conditions ≡ true
            → given_on self.now.dimensions self.now.query row Customer ≡ customer
            → given_on self.now.dimensions self.now.query row Supplier ≡ supplier
            → given_on self.now.dimensions self.now.query row Part ≡ part
            → given_on self.now.dimensions self.now.query row Date ≡ date
            → IsGroupNumber self.now.dimensions self.now.query row result }
    {
        let _ = &self.grouping;
        let Some(customer) = customer else {
            return None;
        };
        let Some(supplier) = supplier else {
            return None;
        };
        let Some(part) = part else {
            return None;
        };
        let Some(date) = date else {
            return None;
        };
        Some(customer.wrapping_add(supplier.wrapping_add(part.wrapping_add(date))))
    }

    /// The bounds that the query puts on the quantity and the discount of a fact row.
    pub fn bounds(&self) -> Bounds
        ensures { AreBounds self.now.query.conditions result }
    {
        self.grouping.bounds
    }

    /// Moves some of the places of fact rows to the front, in their order, and says how many they are. Each row that is
    /// left out fails a condition on a dimension.
    ///
    /// It reads no dimension row, and leaves out what a table of the dimension's keys tells: not each row that fails.
    pub fn keep<F: FactRows>(&self, rows: &F, axis: Axis, places: &mut [u32]) -> usize
        requires { ArePlaces (F.rows rows.now) places.old }
        ensures kept { KeepPlaces self.now.dimensions self.now.query.conditions (F.rows rows.now) places.old
            (take result places.new) }
        ensures few { result ≤ length places.old }
        ensures length { length places.new ≡ length places.old }
    {
        let filter = self.grouping.filters.on(axis);
        if filter.is_open() {
            return places.len();
        }
        filter.keep(rows, axis, places)
    }

    // What the dimension row with the key of a fact row gives to the number of its group. A dimension that the query
    // does not use is not looked at.
    fn given<F: FactRows>(
        &self,
        rows: &F,
        place: usize,
        axis: Axis,
    ) -> Result<Option<u128>, UnknownKey>
        requires { place < length (F.rows rows.now) }
        ensures ok { IfOk result
            (λ part. part ≡ given_on self.now.dimensions self.now.query (row_at (F.rows rows.now) place) axis) }
        ensures known { OnOk result (is_used self.now.query axis ≡ true
            → IsKnownOn self.now.dimensions (row_at (F.rows rows.now) place) axis) }
        ensures unknown { OnErr result ((is_used self.now.query axis ≡ true
            → IsKnownOn self.now.dimensions (row_at (F.rows rows.now) place) axis) → ⊥) }
    {
        let side = self.grouping.side(axis);
        if side.is_unused() {
            return Ok(Some(0));
        }
        let key = rows.key(place, axis);
        side.given(self.dims, axis, key)
    }

    /// The text that the group with a number has in a column, where it is: none for ALL.
    pub fn text(&self, column: usize, number: u128) -> Option<&'a [u8]>
        requires column { column < length self.now.query.columns }
        requires below { number < group_count self.now.dimensions self.now.query.columns }
        ensures text { IfSome result
            (λ text. slice_index_or (group_key_at self.now.dimensions self.now.query.columns number) column All
            ≡ Text text.now) }
        ensures all { IfNone result
            (slice_index_or (group_key_at self.now.dimensions self.now.query.columns number) column All ≡ All) }
    {
        let kept = &self.grouping.columns[column];
        kept.text(self.dims, kept.digit(number))
    }

    /// The key of the group with a number.
    pub fn key(&self, alloc: Global, number: u128) -> Result<Items<Member>, AllocError>
        requires { number < group_count self.now.dimensions self.now.query.columns }
        ensures { IfOk result (λ key. key ≡ group_key_at self.now.dimensions self.now.query.columns number) }
    {
        let mut key = Vec::with_capacity(alloc, self.grouping.columns.len())?;
        for i in 0..self.grouping.columns.len() {
            let column = &self.grouping.columns[i];
            let member = column.member(alloc, self.dims, column.digit(number))?;
            key.push(member)?;
        }
        Ok(Items::from_vec(key))
    }

    /// The digit of a column in the number of a group. Columns count from 0.
    pub fn digit(&self, column: usize, number: u128) -> u128
        requires column { column < length self.now.query.columns }
        requires below { number < group_count self.now.dimensions self.now.query.columns }
        ensures member { slice_index_or (group_key_at self.now.dimensions self.now.query.columns number) column All
            ≡ digit_member self.now.dimensions (attr_at self.now.query.columns column) result }
        ensures below { result < digit_count self.now.dimensions (attr_at self.now.query.columns column) }
    {
        self.grouping.columns[column].digit(number)
    }

    /// Whether the group with a number has ALL in a column. After the last column it has.
    pub fn is_all(&self, column: usize, number: u128) -> bool
        requires { number < group_count self.now.dimensions self.now.query.columns }
        ensures { result
            ≡ is_all (slice_index_or (group_key_at self.now.dimensions self.now.query.columns number) column All) }
    {
        column >= self.grouping.columns.len() || self.grouping.columns[column].is_all(number)
    }

    /// The number of the group that has ALL in a column, and all else as the group with a number.
    pub fn with_all(&self, column: usize, number: u128) -> u128
        requires column { column < length self.now.query.columns }
        requires below { number < group_count self.now.dimensions self.now.query.columns }
        ensures below { result < group_count self.now.dimensions self.now.query.columns }
        ensures key { group_key_at self.now.dimensions self.now.query.columns result
            ≡ slice_set (group_key_at self.now.dimensions self.now.query.columns number) column All }
    {
        self.grouping.columns[column].with_all(number)
    }
}

// The sum of what the four dimensions give.
fn sum_of(customer: u128, supplier: u128, part: u128, date: u128) -> u128
    requires { customer + (supplier + (part + date)) < 2 ^ 128 }
    ensures { result ≡ customer + (supplier + (part + date)) }
{
    customer + (supplier + (part + date))
}
