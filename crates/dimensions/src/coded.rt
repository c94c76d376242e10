//! The rows of a dimension by codes.
ghost use Rattle.std.specs.Prelude.{◌≡◌, ◌≢◌, ◌<◌, ◌↔◌, length, codes, nat_lt, IfSome, IsTrue};
ghost use Rattle.std.specs.List.{AllByRecursion, list_all};
ghost use Rattle.dictionary.specs.Columns.{AreCodes};

use crate::shape::{column_count, lower_column, row_limit};
use cube_model::{Axis, Items};
use dictionary::Dictionary;

/// A column by codes: its texts in the order of their first use, and the code of the text at each of its places.
#[derive(Drop)]
pub struct CodedColumn {
    /// The texts.
    pub texts: Dictionary,
    /// The code at each place.
    pub codes: Items<u16>,
}

/// The rows of a dimension by codes.
///
/// A column that a lower one determines has a place for each text of the lower one, every other column has a place for
/// each row.
pub struct CodedRows {
    /// The key of each row.
    pub keys: Items<u32>,
    /// The columns, the lowest member first.
    pub columns: Items<CodedColumn>,
}

// Written out, so that a proof has one call to follow where the rows are let go.
impl Drop for CodedRows {
    fn drop(self) {
        let CodedRows {
            keys: _,
            columns: _,
        } = self;
    }
}

/// The rows of the four dimensions by codes.
#[derive(Drop)]
pub struct CodedDims {
    /// The customers: city, nation, region.
    pub customers: CodedRows,
    /// The suppliers: city, nation, region.
    pub suppliers: CodedRows,
    /// The parts: brand, category, manufacturer.
    pub parts: CodedRows,
    /// The days: yearmonthnum, year, yearmonth, weeknuminyear.
    pub dates: CodedRows,
}

impl CodedRows {
    ghost use Rattle.dimensions.specs.Coded.{HaveProperColumns, place_total};

    // The keys, and the columns.
    pub(crate) fn into_parts(self) -> (Items<u32>, Items<CodedColumn>)
        ensures keys { result.0 ≡ self.keys }
        ensures columns { result.1 ≡ self.columns }
    {
        let CodedRows { keys, columns } = self;
        (keys, columns)
    }

    // Whether the columns keep their rules, and there are not too many rows.
    pub(crate) fn has_proper_columns(&self, axis: Axis) -> bool
        ensures { IsTrue result ↔ HaveProperColumns axis self.now }
    {
        let count = column_count(axis);
        if self.keys.len() > row_limit(axis) || self.columns.len() != count {
            return false;
        }
        for i in 0..count {
            let places = self.place_total(lower_column(axis, i));
            if !self.columns.as_slice()[i].is_proper(places) {
                return false;
            }
        }
        true
    }

    // How many places a column has, above a lower one or above the rows.
    fn place_total(&self, lower: Option<usize>) -> usize
        requires { IfSome lower (λ column. column < length self.now.columns) }
        ensures { result ≡ place_total self.now lower }
    {
        match lower {
            None => self.keys.len(),
            Some(column) => self.columns.as_slice()[column].texts.len(),
        }
    }
}

impl CodedColumn {
    ghost use Rattle.dimensions.specs.Coded.{IsProperColumn};

    // Whether it keeps its rules with so many places.
    fn is_proper(&self, places: usize) -> bool
        ensures { IsTrue result ↔ IsProperColumn places self.now }
    {
        if self.codes.len() != places || names_all(&self.texts) {
            return false;
        }
        are_codes(self.codes.as_slice(), self.texts.len())
    }
}

// Whether one of the texts is the one that means all members.
fn names_all(texts: &Dictionary) -> bool
    ensures { IsTrue result ↔ ¬ AllByRecursion (λ text. text ≢ codes "ALL") texts.now.texts }
{
    texts.code(b"ALL".as_slice()).is_some()
}

// Whether codes are in the order of their first use, each below the count, and every one below it is used.
fn are_codes(codes: &[u16], count: usize) -> bool
    ensures { IsTrue result ↔ AreCodes count codes.now }
{
    let mut next = 0;
    for (i, code) in codes.iter().enumerate() {
        if next == count {
            return are_below(codes.split_at(i).1, count);
        }
        let code = usize::from(*code);
        if code > next {
            return false;
        }
        if code == next {
            next += 1;
        }
    }
    next == count
}

// Whether each code is below a count. The loop never ends early, so that it works on many codes at once.
fn are_below(codes: &[u16], count: usize) -> bool
    ensures { result ≡ list_all (λ code. nat_lt code count) codes.now }
{
    let mut fine = true;
    for code in codes {
        fine = fine & (usize::from(*code) < count);
    }
    fine
}
