//! The four dimensions.
ghost use Rattle.std.specs.Prelude.{◌≡◌, ◌<◌, ◌^◌, ◌≤◌, ◌⊎◌, Some, IfOk, OnOk, IfErr, [], length, map, slice_index_or};
ghost use Rattle.std.specs.Option.{option_map};
ghost use Rattle.cube_model.specs.Attributes.{attribute_at, axis_of};
ghost use Rattle.cube_model.specs.Limits.{most_members};
ghost use Rattle.cube_model.specs.Places.{row_index_of, row_count_of, text_at, attr_members};
ghost use Rattle.cube_model.specs.Validity.{HaveShortTexts, IsValid, invalid_cause, members_of};
ghost use Rattle.dictionary.specs.Columns.{codes_of};
ghost use Rattle.dictionary.specs.Dictionary.{firsts};
ghost use Rattle.dictionary.specs.Spelling.{AreShort};
ghost use Rattle.dimensions.specs.Added.{addition_cause, joined};
ghost use Rattle.dimensions.specs.KeptCodes.{KeepCodes};
ghost use Rattle.dimensions.specs.Shapes.{lowers_of};
ghost use Rattle.dimensions.specs.Coded.{ColumnsHaveTexts, texts_at_places};
ghost use Rattle.dimensions.specs.Made.{AreCodedDims, HaveAllTexts, IsDimensionOf, IsRefusal, EncodeNoRows};
ghost use Rattle.dimensions.specs.Dimensions.{IsDimension};
ghost use Rattle.dimensions.specs.Shown.{AreStorable, rows_on};

use crate::coded::{CodedDims, CodedRows};
use crate::dimension::Dimension;
use crate::ranks::Ranks;
use crate::shape::column_of_attr;
use cube_model::{Attr, Axis, DimRows, Fault};
use dictionary::Dictionary;
use std::alloc::Global;
use std::marker::Model;

/// The rows of the four dimensions, all of them valid, with texts of at most 255 bytes. Contracts see the lists of the
/// rows.
pub struct Dims {
    customers: Dimension,
    suppliers: Dimension,
    parts: Dimension,
    dates: Dimension,
    days: Ranks,
}

impl Model for Dims {
    ghost use Rattle.cube_model.specs.declared.rows.DimRows.{DimRows};
    ghost use Rattle.dimensions.specs.Shown.{shown_rows, AreDimensions};

    ghost Value = { DimRows };

    ghost view = { λ d. shown_rows d.customers d.suppliers d.parts d.dates };

    ghost invariant = { λ d. AreDimensions (shown_rows d.customers d.suppliers d.parts d.dates) d.customers d.suppliers
        d.parts d.dates d.days };
}

// Written out, so that a caller's proof has one call to follow where it lets the dimensions go.
impl Drop for Dims {
    fn drop(self) {
        let Dims {
            customers: _,
            suppliers: _,
            parts: _,
            dates: _,
            days: _,
        } = self;
    }
}

impl Dims {
    /// The dimensions of some rows, or the first cause to refuse them: customer, supplier, part, date, each first for
    /// too many rows and then row by row.
    pub fn build(alloc: Global, rows: &DimRows) -> Result<Dims, Fault>
        requires short { HaveShortTexts rows.now }
        ensures ok { IfOk result (λ dims. dims ≡ rows.now) }
        ensures valid { OnOk result (IsValid rows.now) }
        ensures err { IfErr result (λ fault. (fault ≡ Fault.Memory) ⊎ (invalid_cause rows.now ≡ Some fault)) }
    {
        let customers = Dimension::build(alloc, Axis::Customer, rows.customers.as_slice())?;
        let suppliers = Dimension::build(alloc, Axis::Supplier, rows.suppliers.as_slice())?;
        let parts = Dimension::build(alloc, Axis::Part, rows.parts.as_slice())?;
        let dates = Dimension::build(alloc, Axis::Date, rows.dates.as_slice())?;
        let days = Ranks::of_days(alloc, dates.keys.keys())?;
        Ok(Dims {
            customers,
            suppliers,
            parts,
            dates,
            days,
        })
    }

    /// The dimensions of these rows and of others after them, or the first cause to refuse the others: customer,
    /// supplier, part, date, each first for too many rows and then row by row. Rows count from 1 among the others. What
    /// these dimensions know by codes and row indexes holds there too.
    pub fn with_rows(&self, alloc: Global, rows: &DimRows) -> Result<Dims, Fault>
        requires short { HaveShortTexts rows.now }
        ensures ok { IfOk result (λ dims. dims ≡ joined self.now rows.now) }
        ensures own { AreStorable self.now }
        ensures storable { OnOk result (AreStorable (joined self.now rows.now)) }
        ensures codes { IfOk result (KeepCodes self.now) }
        ensures err { IfErr result (λ fault. (fault ≡ Fault.Memory) ⊎ (addition_cause self.now rows.now ≡ Some fault)) }
    {
        let customers = self
            .customers
            .with_rows(alloc, Axis::Customer, rows.customers.as_slice())?;
        let suppliers = self
            .suppliers
            .with_rows(alloc, Axis::Supplier, rows.suppliers.as_slice())?;
        let parts = self
            .parts
            .with_rows(alloc, Axis::Part, rows.parts.as_slice())?;
        let dates = self
            .dates
            .with_rows(alloc, Axis::Date, rows.dates.as_slice())?;
        let days = Ranks::of_days(alloc, dates.keys.keys())?;
        Ok(Dims {
            customers,
            suppliers,
            parts,
            dates,
            days,
        })
    }

    /// The dimensions of rows by codes, or `BadLayout` where they are those of no valid rows with short texts. It can
    /// also fail when out of memory.
    pub fn of_coded(alloc: Global, coded: CodedDims) -> Result<Dims, Fault>
        requires { HaveAllTexts coded }
        ensures ok { IfOk result (λ dims. AreCodedDims dims coded) }
        ensures storable { IfOk result AreStorable }
        ensures err { IfErr result
            (λ fault. (fault ≡ Fault.Memory) ⊎ ((fault ≡ Fault.BadLayout) × EncodeNoRows coded)) }
    {
        let CodedDims {
            customers,
            suppliers,
            parts,
            dates,
        } = coded;
        let (customers, suppliers) = two_of_coded(
            alloc,
            Axis::Customer,
            customers,
            Axis::Supplier,
            suppliers,
        )?;
        let (parts, dates) = two_of_coded(alloc, Axis::Part, parts, Axis::Date, dates)?;
        let days = Ranks::of_days(alloc, dates.keys.keys())?;
        Ok(Dims {
            customers,
            suppliers,
            parts,
            dates,
            days,
        })
    }

    /// The key of each row of a dimension.
    pub fn keys(&self, axis: Axis) -> &[u32]
        ensures keys { result.now ≡ map (λ row. row.key) (rows_on self.now axis) }
        ensures few { length result.now < 2 ^ 32 }
        ensures storable { AreStorable self.now }
    {
        self.dimension(axis).keys.keys()
    }

    /// The texts of a column of a dimension, each at its code: in the order of their first use by the column's places.
    pub fn texts(&self, axis: Axis, column: usize) -> &Dictionary
        requires { column < length (lowers_of axis) }
        ensures texts { result.now.texts ≡ firsts (texts_at_places axis column (rows_on self.now axis)) }
        ensures short { AreShort result.now.texts }
    {
        self.dimension(axis).columns[column].texts()
    }

    /// The code of the text at each place of a column of a dimension: in each row, or next to each text of the lower
    /// column.
    pub fn codes(&self, axis: Axis, column: usize) -> &[u16]
        requires { column < length (lowers_of axis) }
        ensures codes { result.now ≡ codes_of (texts_at_places axis column (rows_on self.now axis)) }
        ensures storable { AreStorable self.now }
    {
        self.dimension(axis).columns[column].codes()
    }

    /// How many rows a dimension has.
    pub fn row_count(&self, axis: Axis) -> usize
        ensures count { result ≡ row_count_of self.now axis }
        ensures storable { AreStorable self.now }
    {
        self.dimension(axis).keys.len()
    }

    /// The row index of a key: that of the row with the key, or the number of rows where no row has it. They count from
    /// 0.
    #[inline(always)]
    pub fn row_index(&self, axis: Axis, key: u32) -> usize
        ensures { result ≡ row_index_of self.now axis key }
    {
        self.dimension(axis).keys.row_index(key)
    }

    /// The attribute of the row with a key, if there is such a row and the attribute is of the dimension. That of a
    /// day is its key in decimal.
    pub fn attribute(&self, axis: Axis, key: u32, attr: Attr) -> Option<&[u8]>
        ensures { option_map (λ text. text.now) result ≡ attribute_at self.now axis key attr }
    {
        if attr.axis() != axis {
            return None;
        }
        let row = self.row_index(axis, key);
        if row >= self.row_count(axis) {
            return None;
        }
        Some(self.member(attr, self.rank(attr, row)))
    }

    /// The number of members of an attribute.
    pub fn members(&self, attr: Attr) -> usize
        ensures count { result ≡ length (attr_members self.now attr) }
        ensures few { result ≤ most_members }
    {
        self.ranks(attr).count()
    }

    /// The rank of the text at a row index, `place`: where the text is among the members, in order by bytes.
    pub fn rank(&self, attr: Attr, place: usize) -> u16
        requires { place < row_count_of self.now (axis_of attr) }
        ensures below { result < length (attr_members self.now attr) }
        ensures text { slice_index_or (attr_members self.now attr) result [] ≡ text_at self.now attr place }
    {
        match column_of_attr(attr) {
            None => self.days.rank(place),
            Some(column) => self.dimension(attr.axis()).rank(column, place),
        }
    }

    /// The text of a rank.
    pub fn member(&self, attr: Attr, code: u16) -> &[u8]
        requires { code < length (attr_members self.now attr) }
        ensures { result.now ≡ slice_index_or (attr_members self.now attr) code [] }
    {
        self.ranks(attr).member(code)
    }

    // One of the dimensions.
    #[inline(always)]
    fn dimension(&self, axis: Axis) -> &Dimension
        ensures are { IsDimension axis (rows_on self.now axis) result.now }
        ensures storable { AreStorable self.now }
    {
        match axis {
            Axis::Customer => &self.customers,
            Axis::Supplier => &self.suppliers,
            Axis::Part => &self.parts,
            Axis::Date => &self.dates,
        }
    }

    // The ranks of the members of an attribute.
    fn ranks(&self, attr: Attr) -> &Ranks
        ensures { members_of result.now ≡ attr_members self.now attr }
    {
        match column_of_attr(attr) {
            None => &self.days,
            Some(column) => self.dimension(attr.axis()).columns[column].ranks(),
        }
    }
}

// Two dimensions of rows by codes, or why the rows of one of them are refused.
fn two_of_coded(
    alloc: Global,
    axis: Axis,
    coded: CodedRows,
    other_axis: Axis,
    other: CodedRows,
) -> Result<(Dimension, Dimension), Fault>
    requires texts { ColumnsHaveTexts coded.columns }
    requires other_texts { ColumnsHaveTexts other.columns }
    ensures ok { IfOk result (λ made. IsDimensionOf axis coded made.0 × IsDimensionOf other_axis other made.1) }
    ensures refused { IfErr result (λ fault. IsRefusal axis coded fault ⊎ IsRefusal other_axis other fault) }
{
    let dimension = Dimension::of_coded(alloc, axis, coded)?;
    let other = Dimension::of_coded(alloc, other_axis, other)?;
    Ok((dimension, other))
}
