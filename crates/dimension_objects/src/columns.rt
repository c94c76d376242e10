//! The columns of a dimension, while they are read.
ghost use Rattle.std.specs.Prelude.{◌≡◌, ◌<◌, length, IfSome, IfOk, IsOkUnless};
ghost use Rattle.cube_model.specs.declared.fault.Fault.{Fault};
ghost use Rattle.dimensions.specs.Shapes.{lowers_of, lower_of};
ghost use Rattle.dimensions.specs.Coded.{ColumnsHaveTexts};
ghost use Rattle.dimension_objects.specs.Columns.{places_of};

use cube_model::limits::MOST_MEMBERS;
use cube_model::{Axis, Fault, Items};
use dictionary::Dictionary;
use dimensions::{CodedColumn, column_count, lower_column};
use std::alloc::Global;

// The columns of a dimension with no text and no code. It can only fail when out of memory.
pub(crate) fn empty_columns(alloc: Global, axis: Axis) -> Result<Vec<CodedColumn>, Fault>
    ensures count { IfOk result (λ columns. length columns.items ≡ length (lowers_of axis)) }
    ensures have { IfOk result (λ columns. ColumnsHaveTexts columns.items) }
    ensures memory { IsOkUnless result Fault.Memory }
{
    let count = column_count(axis);
    let mut columns = Vec::with_capacity(alloc, count)?;
    for _ in 0..count {
        columns.push(CodedColumn {
            texts: Dictionary::new(alloc, MOST_MEMBERS as u32),
            codes: Items::new(alloc),
        })?;
    }
    Ok(columns)
}

// How many places a column of a dimension has, where there are so many rows.
pub(crate) fn place_count(axis: Axis, column: usize, rows: u32, columns: &[CodedColumn]) -> usize
    requires { IfSome (lower_of axis column) (λ lower. lower < length columns.now) }
    ensures { result ≡ places_of rows columns.now (lower_of axis column) }
{
    match lower_column(axis, column) {
        None => rows as usize,
        Some(lower) => columns[lower].texts.len(),
    }
}
