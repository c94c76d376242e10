//! A dimension: its rows by codes, and the ranks of its members.
ghost use Rattle.std.specs.Prelude.{◌≡◌, ◌≢◌, ◌≤◌, ◌<◌, ℕ, List, true, false, [], length, map, vec_len, slice_index_or};
ghost use Rattle.std.specs.Prelude.{IfOk, OnOk, IfSome, IsOkUnless};
ghost use Rattle.std.specs.Bool.{OnTrue, OnFalse};
ghost use Rattle.cube_model.specs.Limits.{most_dimension_rows, most_members};
ghost use Rattle.cube_model.specs.declared.attr.Axis.{Axis};
ghost use Rattle.dimensions.specs.Added.{counted_after};
ghost use Rattle.dimensions.specs.Coded.{ColumnsHaveTexts};
ghost use Rattle.dimensions.specs.Columns.{ranked, unranked};
ghost use Rattle.dimensions.specs.TextRows.{TextRow, text_in, column_of};
ghost use Rattle.dimensions.specs.Shapes.{lowers_of};
ghost use Rattle.dimensions.specs.Ranked.{IsRankAt};
ghost use Rattle.dimensions.specs.Dimensions.{columns_from, place_for};

use crate::coded::{CodedColumn, CodedRows};
use crate::column::Column;
use crate::key_rows::Keys;
use crate::row::{DimensionRow, names_all};
use crate::shape::{COLUMN_LIMIT, column_count, has_room, lower_column};
use cube_model::{Axis, Fault, MemberPlace};
use std::alloc::Global;

/// The rows of a dimension: the key of each, and a column of texts for each of its attributes.
pub struct Dimension {
    /// The key of each row.
    pub keys: Keys,
    /// The columns, the lowest member first.
    pub columns: Vec<Column>,
}

// Written out, so that a proof has one call to follow where a dimension is let go.
impl Drop for Dimension {
    fn drop(self) {
        let Dimension {
            keys: _,
            columns: _,
        } = self;
    }
}

impl Dimension {
    ghost use Rattle.dimensions.specs.Columns.{HasCode, code_at};
    ghost use Rattle.dimensions.specs.Dimensions.{column_at, StoresRows, StoresSomeRows, Numbers, HasNoRoom, EntersAt};
    ghost use Rattle.dimensions.specs.Dimensions.{AddsRow, AddsRows, HoldsRows, HoldsSomeRows, IsDimension};
    ghost use Rattle.dimensions.specs.Dimensions.{IsSomeDimension, BuildsDimension, ExtendsDimension};
    ghost use Rattle.dimensions.specs.Made.{MakesDimension};
    ghost use Rattle.dimensions.specs.declared.column.Column.{Column};

    /// The dimension of some rows, or the first cause to refuse them: first for too many rows, and then row by row.
    pub fn build<R: DimensionRow>(alloc: Global, axis: Axis, rows: &[R]) -> Result<Dimension, Fault>
        requires { (row : R) → length (R.shown row).texts ≡ length (lowers_of axis) }
        ensures { BuildsDimension axis (map R.shown rows.now) result }
    {
        let mut dimension = Dimension::new(alloc, axis)?;
        dimension.extend(alloc, axis, rows)?;
        Ok(dimension)
    }

    /// The dimension of rows by codes, or `BadLayout` where they are those of no rows that keep the rules. It can also
    /// fail when out of memory.
    pub fn of_coded(alloc: Global, axis: Axis, coded: CodedRows) -> Result<Dimension, Fault>
        requires { ColumnsHaveTexts coded.columns }
        ensures { MakesDimension axis coded result }
    {
        if !coded.has_proper_columns(axis) {
            return Err(Fault::BadLayout);
        }
        let (keys, columns) = coded.into_parts();
        let Some(keys) = Keys::of(alloc, keys.into_vec())? else {
            return Err(Fault::BadLayout);
        };
        let columns = columns_of(alloc, axis, columns.into_vec())?;
        Ok(Dimension { keys, columns })
    }

    /// The dimension of these rows and of others after them, or the first cause to refuse the others: first for too
    /// many rows, and then row by row. Rows count from 1 among the others.
    pub fn with_rows<R: DimensionRow>(
        &self,
        alloc: Global,
        axis: Axis,
        rows: &[R],
    ) -> Result<Dimension, Fault>
        requires sound { HoldsSomeRows axis self.now }
        requires texts { (row : R) → length (R.shown row).texts ≡ length (lowers_of axis) }
        ensures { (old : List TextRow) → HoldsRows axis old self.now
            → ExtendsDimension axis old (map R.shown rows.now) result }
    {
        let keys = self.keys.copied(alloc)?;
        let columns = copied_columns(alloc, self.columns.as_slice())?;
        let mut dimension = Dimension { keys, columns };
        dimension.extend(alloc, axis, rows)?;
        Ok(dimension)
    }

    /// The rank of the text of a row in a column.
    pub fn rank(&self, column: usize, row: usize) -> u16
        requires sound { (axis : Axis) × IsSomeDimension axis self.now }
        requires column { column < vec_len self.now.columns }
        requires row { row < length self.now.keys }
        ensures { (axis : Axis) (rows : List TextRow) → IsDimension axis rows self.now
            → IsRankAt (column_of column rows) row result }
    {
        let code = self.code(column, row);
        self.columns[column].ranks().rank(usize::from(code))
    }

    // The code of the text of a row in a column.
    fn code(&self, column: usize, row: usize) -> u16
        requires sound { (axis : Axis) × StoresSomeRows axis self.now }
        requires column { column < vec_len self.now.columns }
        requires row { row < length self.now.keys }
        ensures { (axis : Axis) (rows : List TextRow) → StoresRows axis rows self.now
            → result ≡ code_at (column_of column rows) row }
    {
        let place = match self.columns[column].lower() {
            None => row,
            Some(lower) => usize::from(self.code(lower, row)),
        };
        self.columns[column].code(place)
    }

    // A dimension with no row.
    fn new(alloc: Global, axis: Axis) -> Result<Dimension, Fault>
        ensures ok { IfOk result (λ dimension. StoresRows axis [] dimension) }
        ensures memory { IsOkUnless result Fault.Memory }
    {
        let count = column_count(axis);
        let mut columns = Vec::with_capacity(alloc, count)?;
        for column in 0..count {
            columns.push(Column::new(alloc, lower_column(axis, column)))?;
        }
        Ok(Dimension {
            keys: Keys::new(alloc),
            columns,
        })
    }

    // Adds rows after those that there are, and ranks the members of all, or answers the first cause to refuse the
    // rows: first for too many rows, and then row by row. Rows count from 1 among those added. After an error the
    // dimension may have a part of them.
    fn extend<R: DimensionRow>(
        &mut self,
        alloc: Global,
        axis: Axis,
        rows: &[R],
    ) -> Result<(), Fault>
        requires sound { HoldsSomeRows axis self.old }
        requires texts { (row : R) → length (R.shown row).texts ≡ length (lowers_of axis) }
        ensures { (old : List TextRow) → HoldsRows axis old self.old
            → AddsRows axis old (map R.shown rows.now) self.new result }
    {
        let before = self.keys.len();
        if !has_room(axis, before, rows.len()) {
            return Err(Fault::TooManyRows);
        }
        for row in rows {
            if let Err(fault) = self.add(alloc, axis, row) {
                return Err(counted_after(before as u32, fault));
            }
        }
        self.keys.densify(alloc)?;
        self.rank_members(alloc)
    }

    // Ranks the members of each column. It can only fail when out of memory.
    fn rank_members(&mut self, alloc: Global) -> Result<(), Fault>
        requires few { (i : ℕ) → i < vec_len self.old.columns
            → length (column_at self.old i).texts.texts ≤ most_members }
        ensures keys { self.new.keys ≡ self.old.keys }
        ensures count { vec_len self.new.columns ≡ vec_len self.old.columns }
        ensures ok { OnOk result ((i : ℕ) → i < vec_len self.old.columns
            → column_at self.new i ≡ ranked (column_at self.old i)) }
        ensures memory { IsOkUnless result Fault.Memory }
    {
        for i in 0..self.columns.len() {
            self.columns[i].rank_members(alloc)?;
        }
        Ok(())
    }

    // Adds one more row after the others, or answers the first cause to refuse it. Rows count from 1.
    fn add<R: DimensionRow>(&mut self, alloc: Global, axis: Axis, row: &R) -> Result<(), Fault>
        requires sound { StoresSomeRows axis self.old }
        requires few { length self.old.keys < most_dimension_rows }
        requires texts { length (R.shown row.now).texts ≡ length (lowers_of axis) }
        ensures { (rows : List TextRow) → StoresRows axis rows self.old
            → AddsRow axis rows (R.shown row.now) self.new result }
    {
        let place = self.keys.len();
        let number = (place + 1) as u32;
        if self.keys.row_index(row.key()) < place {
            return Err(Fault::DuplicateKey { axis, row: number });
        }
        if names_all(row, self.columns.len()) {
            let place = MemberPlace::InDimension { axis, row: number };
            return Err(Fault::ReservedMember { place });
        }
        let mut codes = [0; COLUMN_LIMIT];
        if !self.number(row, &mut codes) {
            let place = MemberPlace::InDimension { axis, row: number };
            return Err(Fault::TooManyMembers { place });
        }
        if !self.enter(alloc, row, &codes)? {
            return Err(Fault::HierarchyBroken { axis, row: number });
        }
        self.keys.push(alloc, row.key())
    }

    // Finds the codes of a row's texts, and says whether there is room for those that are new.
    fn number<R: DimensionRow>(&self, row: &R, codes: &mut [u16; COLUMN_LIMIT]) -> bool
        requires few { vec_len self.now.columns ≤ 4 }
        requires texts { length (R.shown row.now).texts ≡ vec_len self.now.columns }
        requires limits { (i : ℕ) → i < vec_len self.now.columns → (column_at self.now i).texts.limit ≡ most_members }
        ensures room { OnTrue result (Numbers self.now (R.shown row.now) codes.new) }
        ensures full { OnFalse result (HasNoRoom self.now (R.shown row.now)) }
    {
        for i in 0..self.columns.len() {
            match self.columns[i].code_for(row.text(i)) {
                Some(code) => codes[i] = code,
                None => return false,
            }
        }
        true
    }

    // Puts a row's texts into the columns, and says whether each has the upper texts that it has in this row.
    fn enter<R: DimensionRow>(
        &mut self,
        alloc: Global,
        row: &R,
        codes: &[u16; COLUMN_LIMIT],
    ) -> Result<bool, Fault>
        requires few { vec_len self.old.columns ≤ 4 }
        requires texts { length (R.shown row.now).texts ≡ vec_len self.old.columns }
        requires limits { (i : ℕ) → i < vec_len self.old.columns → (column_at self.old i).texts.limit ≡ most_members }
        requires lowers { (i : ℕ) → i < vec_len self.old.columns
            → IfSome (column_at self.old i).lower (λ column. column < 4) }
        requires numbers { Numbers self.old (R.shown row.now) codes.now }
        ensures keys { self.new.keys ≡ self.old.keys }
        ensures count { vec_len self.new.columns ≡ vec_len self.old.columns }
        ensures fit { IfOk result
            (λ fits. OnTrue fits ((i : ℕ) → i < vec_len self.old.columns
            → EntersAt self.old (R.shown row.now) codes.now i true (column_at self.new i))) }
        ensures broken { IfOk result
            (λ fits. OnFalse fits
            ((i : ℕ) × (i < vec_len self.old.columns)
            × ((new : Column) × EntersAt self.old (R.shown row.now) codes.now i false new))) }
        ensures memory { IsOkUnless result Fault.Memory }
    {
        for i in 0..self.columns.len() {
            if !self.enter_text(alloc, row, codes, i)? {
                return Ok(false);
            }
        }
        Ok(true)
    }

    // Puts a row's text into a column, and says whether it has the upper text that it has in this row.
    fn enter_text<R: DimensionRow>(
        &mut self,
        alloc: Global,
        row: &R,
        codes: &[u16; COLUMN_LIMIT],
        column: usize,
    ) -> Result<bool, Fault>
        requires column { column < vec_len self.old.columns }
        requires few { column < 4 }
        requires text { column < length (R.shown row.now).texts }
        requires limit { (column_at self.old column).texts.limit ≡ most_members }
        requires lower { IfSome (column_at self.old column).lower (λ lower. lower < 4) }
        requires code { HasCode (column_at self.old column).texts (text_in column (R.shown row.now))
            (slice_index_or codes.now column 0) }
        ensures keys { self.new.keys ≡ self.old.keys }
        ensures count { vec_len self.new.columns ≡ vec_len self.old.columns }
        ensures others { (other : ℕ) → other ≢ column → column_at self.new other ≡ column_at self.old other }
        ensures ok { IfOk result
            (λ fits. EntersAt self.old (R.shown row.now) codes.now column fits (column_at self.new column)) }
        ensures memory { IsOkUnless result Fault.Memory }
    {
        let place = place_in(self.columns[column].lower(), self.keys.len(), codes);
        self.columns[column].enter(alloc, place, row.text(column), codes[column])
    }
}

// The columns of a dimension, from those by codes. It can only fail when out of memory.
fn columns_of(alloc: Global, axis: Axis, coded: Vec<CodedColumn>) -> Result<Vec<Column>, Fault>
    requires { ColumnsHaveTexts coded.items }
    ensures ok { IfOk result (λ columns. columns.items ≡ columns_from axis 0 coded.items) }
    ensures memory { IsOkUnless result Fault.Memory }
{
    let mut columns = Vec::with_capacity(alloc, coded.len())?;
    for column in coded {
        let lower = lower_column(axis, columns.len());
        columns.push(Column::of_coded(alloc, lower, column)?)?;
    }
    Ok(columns)
}

// The same columns again, with no ranks. It can only fail when out of memory.
fn copied_columns(alloc: Global, columns: &[Column]) -> Result<Vec<Column>, Fault>
    ensures ok { IfOk result (λ copies. copies.items ≡ map unranked columns.now) }
    ensures memory { IsOkUnless result Fault.Memory }
{
    let mut copies = Vec::with_capacity(alloc, columns.len())?;
    for column in columns {
        copies.push(column.copied(alloc)?)?;
    }
    Ok(copies)
}

// A fault with its row counted from the first one after so many.
fn counted_after(before: u32, fault: Fault) -> Fault
    ensures { result ≡ counted_after before fault }
{
    match fault {
        Fault::DuplicateKey { axis, row } => Fault::DuplicateKey {
            axis,
            row: row.saturating_sub(before),
        },
        Fault::HierarchyBroken { axis, row } => Fault::HierarchyBroken {
            axis,
            row: row.saturating_sub(before),
        },
        Fault::ReservedMember {
            place: MemberPlace::InDimension { axis, row },
        } => Fault::ReservedMember {
            place: MemberPlace::InDimension {
                axis,
                row: row.saturating_sub(before),
            },
        },
        Fault::TooManyMembers {
            place: MemberPlace::InDimension { axis, row },
        } => Fault::TooManyMembers {
            place: MemberPlace::InDimension {
                axis,
                row: row.saturating_sub(before),
            },
        },
        other => other,
    }
}

// Where the code of a row is in a column above a lower one, or above the rows.
fn place_in(lower: Option<usize>, row: usize, codes: &[u16; COLUMN_LIMIT]) -> usize
    requires { IfSome lower (λ column. column < 4) }
    ensures { result ≡ place_for lower row codes.now }
{
    match lower {
        None => row,
        Some(column) => usize::from(codes[column]),
    }
}
