//! Reading dimensions.
ghost use Rattle.std.specs.Prelude.{◌≡◌, ◌≢◌, ◌⊎◌, ℕ, List, [], length, IfErr, IfOk};
ghost use Rattle.cube_model.specs.declared.fault.Fault.{Fault};
ghost use Rattle.cube_model.specs.declared.rows.DimRows.{DimRows};
ghost use Rattle.dimensions.specs.Coded.{ColumnsHaveTexts};
ghost use Rattle.dimensions.specs.Shapes.{lowers_of};
ghost use Rattle.dimension_objects.specs.Spelled.{AreDimensionObjects};
ghost use Rattle.dimension_objects.specs.Columns.{IsSpelled, ReadsDimensionHeader, SpellsNoRows};

use crate::columns::empty_columns;
use crate::order::{linked_columns, row_columns, stored_columns};
use crate::reading::{read_columns, read_header, read_keys, read_texts};
use cube_model::{Axis, Fault, Items};
use dimensions::{CodedColumn, CodedDims, CodedRows, Dims};
use std::alloc::Global;
use wire::Cursor;

/// The dimensions whose four objects have these bytes: customers, suppliers, parts, dates.
///
/// `BadLayout` exactly where the bytes are those of no valid rows with short texts. It can also fail when out of
/// memory.
pub fn decode(
    alloc: Global,
    customers: &[u8],
    suppliers: &[u8],
    parts: &[u8],
    dates: &[u8],
) -> Result<Dims, Fault>
    ensures ok { IfOk result (AreDimensionObjects customers.now suppliers.now parts.now dates.now) }
    ensures refused { IfErr result (λ fault. (fault ≡ Fault.Memory) ⊎ ((fault ≡ Fault.BadLayout)
        × ((rows : DimRows) → ¬ AreDimensionObjects customers.now suppliers.now parts.now dates.now rows))) }
{
    let customers = read_rows(alloc, Axis::Customer, customers)?;
    let suppliers = read_rows(alloc, Axis::Supplier, suppliers)?;
    let parts = read_rows(alloc, Axis::Part, parts)?;
    let dates = read_rows(alloc, Axis::Date, dates)?;
    Dims::of_coded(
        alloc,
        CodedDims {
            customers,
            suppliers,
            parts,
            dates,
        },
    )
}

// The rows by codes of a dimension.
fn read_rows(alloc: Global, axis: Axis, bytes: &[u8]) -> Result<CodedRows, Fault>
    ensures ok { IfOk result (IsSpelled axis bytes.now) }
    ensures refused { IfErr result (λ fault. (fault ≡ Fault.Memory) ⊎ ((fault ≡ Fault.BadLayout)
        × SpellsNoRows axis bytes.now)) }
{
    let mut cursor = Cursor::new(bytes);
    let rows = read_header(&mut cursor, axis)?;
    let mut columns = empty_columns(alloc, axis)?;
    let keys = read_parts(alloc, &mut cursor, axis, rows, &mut columns)?;
    if !cursor.is_empty() {
        return Err(Fault::BadLayout);
    }
    Ok(CodedRows {
        keys,
        columns: Items::from_vec(columns),
    })
}

// Reads what is after the header into columns with no text and no code, and answers the keys. `BadLayout` only where no
// rows have bytes that begin so.
fn read_parts(
    alloc: Global,
    cursor: &mut Cursor<'_>,
    axis: Axis,
    rows: u32,
    columns: &mut Vec<CodedColumn>,
) -> Result<Items<u32>, Fault>
    requires count { length columns.old.items ≡ length (lowers_of axis) }
    requires have { ColumnsHaveTexts columns.old.items }
    ensures ok { IfOk result (λ keys. (bytes : List ℕ) → ReadsDimensionHeader axis bytes cursor.old rows
        → cursor.new ≡ []
        → IsSpelled axis bytes (record { keys = keys; columns = columns.new.items })) }
    ensures after { IfOk result (λ _. (bytes : List ℕ) → ReadsDimensionHeader axis bytes cursor.old rows
        → cursor.new ≢ []
        → SpellsNoRows axis bytes) }
    ensures refused { IfErr result (λ fault. (fault ≡ Fault.Memory) ⊎ ((fault ≡ Fault.BadLayout)
        × ((bytes : List ℕ) → ReadsDimensionHeader axis bytes cursor.old rows → SpellsNoRows axis bytes))) }
{
    read_texts(alloc, cursor, stored_columns(axis), columns)?;
    read_columns(alloc, cursor, axis, rows, linked_columns(axis), columns)?;
    let keys = read_keys(alloc, cursor, rows as usize)?;
    read_columns(alloc, cursor, axis, rows, row_columns(axis), columns)?;
    Ok(keys)
}
