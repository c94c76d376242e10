//! Whether rows that are to be added are in the dimensions already.
ghost use Rattle.std.specs.Prelude.{◌≡◌, ◌↔◌, All, IsTrue, Some};
ghost use Rattle.std.specs.Bool.{OnFalse, OnTrue};
ghost use Rattle.cube_model.specs.declared.rows.DimRows.{DimRows};
ghost use Rattle.cube_model.specs.Attributes.{attribute_at, axis_of};
ghost use Rattle.stored_rows.specs.Among.{HasCustomer, HasDate, HasPart, ContainsRows, HasSupplier};

use cube_model::{Attr, CustomerRow, DateRow, DimRows, PartRow, SupplierRow};
use dimensions::Dims;

/// Whether each of some rows is in the dimensions already, under its key and with the same texts. It takes no memory.
pub fn has_rows(dims: &Dims, rows: &DimRows) -> bool
    ensures yes { OnTrue result (ContainsRows dims.now rows.now) }
    ensures no { OnFalse result (ContainsRows dims.now rows.now → ⊥) }
{
    if !has_all(dims, rows.customers.as_slice()) {
        return false;
    }
    if !has_all(dims, rows.suppliers.as_slice()) {
        return false;
    }
    if !has_all(dims, rows.parts.as_slice()) {
        return false;
    }
    has_all(dims, rows.dates.as_slice())
}

// The same of the rows of one dimension.
fn has_all<R: KnownRow>(dims: &Dims, rows: &[R]) -> bool
    ensures yes { OnTrue result (All (R.is_among dims.now) rows.now) }
    ensures no { OnFalse result (All (R.is_among dims.now) rows.now → ⊥) }
{
    for row in rows {
        if !row.is_in(dims) {
            return false;
        }
    }
    true
}

/// A row of a dimension, which can be looked for by its key.
trait KnownRow {
    /// Some dimensions have the row under its key.
    ghost is_among: { DimRows → Self → Type 0 };

    /// Whether the dimensions have the row under its key, with the same texts.
    fn is_in(&self, dims: &Dims) -> bool
        ensures yes { OnTrue result (is_among dims.now self.now) }
        ensures no { OnFalse result (is_among dims.now self.now → ⊥) };
}

impl KnownRow for CustomerRow {
    ghost is_among = { HasCustomer };

    fn is_in(&self, dims: &Dims) -> bool {
        if !has_text(dims, self.key, Attr::CustomerCity, self.city.as_slice()) {
            return false;
        }
        if !has_text(dims, self.key, Attr::CustomerNation, self.nation.as_slice()) {
            return false;
        }
        has_text(dims, self.key, Attr::CustomerRegion, self.region.as_slice())
    }
}

impl KnownRow for SupplierRow {
    ghost is_among = { HasSupplier };

    fn is_in(&self, dims: &Dims) -> bool {
        if !has_text(dims, self.key, Attr::SupplierCity, self.city.as_slice()) {
            return false;
        }
        if !has_text(dims, self.key, Attr::SupplierNation, self.nation.as_slice()) {
            return false;
        }
        has_text(dims, self.key, Attr::SupplierRegion, self.region.as_slice())
    }
}

impl KnownRow for PartRow {
    ghost is_among = { HasPart };

    fn is_in(&self, dims: &Dims) -> bool {
        if !has_text(dims, self.key, Attr::PartBrand1, self.brand1.as_slice()) {
            return false;
        }
        if !has_text(dims, self.key, Attr::PartCategory, self.category.as_slice()) {
            return false;
        }
        has_text(dims, self.key, Attr::PartMfgr, self.mfgr.as_slice())
    }
}

impl KnownRow for DateRow {
    ghost is_among = { HasDate };

    fn is_in(&self, dims: &Dims) -> bool {
        if !has_text(dims, self.key, Attr::DateYear, self.year.as_slice()) {
            return false;
        }
        if !has_text(
            dims,
            self.key,
            Attr::DateYearmonthnum,
            self.yearmonthnum.as_slice(),
        ) {
            return false;
        }
        if !has_text(
            dims,
            self.key,
            Attr::DateYearmonth,
            self.yearmonth.as_slice(),
        ) {
            return false;
        }
        has_text(
            dims,
            self.key,
            Attr::DateWeeknuminyear,
            self.weeknuminyear.as_slice(),
        )
    }
}

// Whether the row with a key of an attribute's dimension is there and has a text there.
fn has_text(dims: &Dims, key: u32, attr: Attr, text: &[u8]) -> bool
    ensures { IsTrue result ↔ (attribute_at dims.now (axis_of attr) key attr ≡ Some text.now) }
{
    match dims.attribute(attr.axis(), key, attr) {
        Some(found) => *found == *text,
        None => false,
    }
}
