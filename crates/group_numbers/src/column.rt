//! The columns of a query, and where their digits are in the numbers of groups.
ghost use Rattle.std.specs.Prelude.{◌≡◌, ◌<◌, ◌≤◌, ◌*◌, ◌+◌, ◌-◌, ◌^◌, length, nat_eq, IfNone, IfOk, IfSome};
ghost use Rattle.cube_model.specs.declared.answer.Member.TheVariants.{All, Text};
ghost use Rattle.cube_model.specs.declared.rows.DimRows.{DimRows};
ghost use Rattle.group_numbers.specs.Beginnings.{Extend};
ghost use Rattle.group_numbers.specs.Columns.{digit_of, with_highest, AreColumns, IsColumnAt};
ghost use Rattle.group_numbers.specs.MemberRows.{HaveMembers};
ghost use Rattle.group_numbers.specs.Numbers.{digit_member};

use crate::digits::group_count;
use crate::member_rows::member_places;
use crate::places::text_at;
use cube_model::{Attr, Items, Member};
use dimensions::Dims;
use std::alloc::{AllocError, Global};

/// A column of a query: its attribute, how many digits it has, and what each counts in the number of a group. Of each
/// member it keeps the place of a row that has it.
#[derive(Drop)]
pub struct Column {
    pub attr: Attr,
    pub digits: u128,
    pub weight: u128,
    pub places: Vec<usize>,
}

impl Column {
    // The column at a place, of at most six.
    fn at(alloc: Global, dims: &Dims, columns: &[Attr], i: usize) -> Result<Column, AllocError>
        requires place { i < length columns.now }
        requires few { length columns.now ≤ 6 }
        ensures { IfOk result (IsColumnAt dims.now columns.now i) }
    {
        let attr = columns[i];
        Ok(Column {
            attr,
            digits: dims.members(attr) as u128 + 1,
            weight: group_count(dims, &columns[i + 1..]),
            places: member_places(alloc, dims, attr)?,
        })
    }

    /// The columns of a query, of which there are at most six.
    pub fn all(alloc: Global, dims: &Dims, columns: &[Attr]) -> Result<Vec<Column>, AllocError>
        requires { length columns.now ≤ 6 }
        ensures { IfOk result (λ all. AreColumns dims.now columns.now (length columns.now) all.items) }
    {
        let mut all = Vec::with_capacity(alloc, columns.len())?;
        for i in 0..columns.len() {
            let column = Column::at(alloc, dims, columns, i)?;
            all.push(column)?;
        }
        Ok(all)
    }

    /// The digit of a number in the column.
    pub fn digit(&self, number: u128) -> u128
        requires digits { 0 < self.now.digits }
        requires weight { 0 < self.now.weight }
        ensures value { result ≡ digit_of self.now.digits self.now.weight number }
        ensures below { result < self.now.digits }
    {
        number / self.weight % self.digits
    }

    /// Whether a number has the digit of ALL in the column.
    pub fn is_all(&self, number: u128) -> bool
        requires digits { 0 < self.now.digits }
        requires weight { 0 < self.now.weight }
        ensures { result ≡ nat_eq (digit_of self.now.digits self.now.weight number) (self.now.digits - 1) }
    {
        self.digit(number) == self.digits - 1
    }

    /// A number with the digit of ALL in the column.
    pub fn with_all(&self, number: u128) -> u128
        requires digits { 0 < self.now.digits }
        requires weight { 0 < self.now.weight }
        requires whole { self.now.digits * self.now.weight < 2 ^ 128 }
        requires fits { with_highest self.now.digits self.now.weight number < 2 ^ 128 }
        ensures { result ≡ with_highest self.now.digits self.now.weight number }
    {
        let above = number / (self.digits * self.weight) * self.digits;
        (above + (self.digits - 1)) * self.weight + number % self.weight
    }

    /// What a digit means: the text of a row that has the member, and ALL after the last member. Rows that were added
    /// after those that the column was made of do not change it.
    pub fn member(&self, alloc: Global, dims: &Dims, digit: u128) -> Result<Member, AllocError>
        requires { (beginning : DimRows)
            × (HaveMembers beginning self.now.attr self.now.places.items × Extend beginning dims.now) }
        ensures { IfOk result (λ member. (beginning : DimRows)
            → HaveMembers beginning self.now.attr self.now.places.items
            → Extend beginning dims.now → member ≡ digit_member beginning self.now.attr digit) }
    {
        match self.text(dims, digit) {
            Some(text) => Ok(Member::Text(Items::from_vec(Vec::from_slice(alloc, text)?))),
            None => Ok(Member::All),
        }
    }

    /// The text of the member that a digit represents, where it is: none for ALL.
    pub fn text<'a>(&self, dims: &'a Dims, digit: u128) -> Option<&'a [u8]>
        requires { (beginning : DimRows)
            × (HaveMembers beginning self.now.attr self.now.places.items × Extend beginning dims.now) }
        ensures text { IfSome result (λ text. (beginning : DimRows)
            → HaveMembers beginning self.now.attr self.now.places.items
            → Extend beginning dims.now → digit_member beginning self.now.attr digit ≡ Text text.now) }
        ensures all { IfNone result ((beginning : DimRows) → HaveMembers beginning self.now.attr self.now.places.items
            → Extend beginning dims.now → digit_member beginning self.now.attr digit ≡ All) }
    {
        if digit >= self.places.len() as u128 {
            return None;
        }
        let place = self.places[digit as usize];
        Some(text_at(dims, self.attr, place))
    }
}
