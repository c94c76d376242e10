//! Spelling a dimension.
ghost use Rattle.std.specs.Prelude.{◌≡◌, ◌<◌, ◌++◌, length, IfOk, OnOk, IsOkUnless};
ghost use Rattle.std.specs.List.{AllByRecursion};
ghost use Rattle.cube_model.specs.declared.fault.Fault.{Fault};
ghost use Rattle.dictionary.specs.Columns.{codes_spelling};
ghost use Rattle.dimensions.specs.Shapes.{lowers_of};
ghost use Rattle.dimensions.specs.Shown.{AreStorable, rows_on};
ghost use Rattle.dimension_objects.specs.Spelled.{codes_in_order, dimension_spelling, dimension_header, keys_spelling};
ghost use Rattle.dimension_objects.specs.Spelled.{dimension_parts, texts_in_order};

use crate::order::{axis_number, linked_columns, row_columns, stored_columns};
use cube_model::{Axis, Fault};
use dimensions::Dims;
use std::alloc::Global;
use wire::{push_bytes, push_u16, push_u32};

// The first bytes of each object of a dimension.
pub(crate) const NAME: &[u8] = b"DIM1";

/// The bytes of a dimension. It can only fail when out of memory.
pub fn encode(alloc: Global, dims: &Dims, axis: Axis) -> Result<Vec<u8>, Fault>
    ensures ok { IfOk result (λ bytes. bytes.items ≡ dimension_spelling axis (rows_on dims.now axis)) }
    ensures memory { IsOkUnless result Fault.Memory }
    ensures storable { AreStorable dims.now }
{
    let mut out = Vec::new(alloc);
    let keys = dims.keys(axis);
    push_header(&mut out, axis, keys.len() as u32)?;
    push_texts(&mut out, dims, axis, stored_columns(axis))?;
    push_columns(&mut out, dims, axis, linked_columns(axis))?;
    push_keys(&mut out, keys)?;
    push_columns(&mut out, dims, axis, row_columns(axis))?;
    Ok(out)
}

// Adds what is before the columns.
fn push_header(out: &mut Vec<u8>, axis: Axis, rows: u32) -> Result<(), Fault>
    ensures ok { OnOk result (out.new.items ≡ out.old.items ++ dimension_header axis rows) }
    ensures memory { IsOkUnless result Fault.Memory }
{
    push_bytes(out, NAME)?;
    push_u32(out, axis_number(axis))?;
    push_u32(out, rows)
}

// Adds the texts of columns.
fn push_texts(out: &mut Vec<u8>, dims: &Dims, axis: Axis, columns: &[usize]) -> Result<(), Fault>
    requires { AllByRecursion (λ column. column < length (lowers_of axis)) columns.now }
    ensures ok { OnOk result
        (out.new.items ≡ out.old.items ++ texts_in_order (dimension_parts axis (rows_on dims.now axis)).texts
        columns.now) }
    ensures memory { IsOkUnless result Fault.Memory }
{
    for column in columns {
        dims.texts(axis, *column).push_to(out)?;
    }
    Ok(())
}

// Adds the codes of columns.
fn push_columns(out: &mut Vec<u8>, dims: &Dims, axis: Axis, columns: &[usize]) -> Result<(), Fault>
    requires { AllByRecursion (λ column. column < length (lowers_of axis)) columns.now }
    ensures ok { OnOk result
        (out.new.items ≡ out.old.items ++ codes_in_order (dimension_parts axis (rows_on dims.now axis)).codes
        columns.now) }
    ensures memory { IsOkUnless result Fault.Memory }
{
    for column in columns {
        push_codes(out, dims.codes(axis, *column))?;
    }
    Ok(())
}

// Adds codes.
fn push_codes(out: &mut Vec<u8>, codes: &[u16]) -> Result<(), Fault>
    ensures ok { OnOk result (out.new.items ≡ out.old.items ++ codes_spelling codes.now) }
    ensures memory { IsOkUnless result Fault.Memory }
{
    out.reserve(2 * codes.len())?;
    for code in codes {
        push_u16(out, *code)?;
    }
    Ok(())
}

// Adds keys.
fn push_keys(out: &mut Vec<u8>, keys: &[u32]) -> Result<(), Fault>
    ensures ok { OnOk result (out.new.items ≡ out.old.items ++ keys_spelling keys.now) }
    ensures memory { IsOkUnless result Fault.Memory }
{
    out.reserve(4 * keys.len())?;
    for key in keys {
        push_u32(out, *key)?;
    }
    Ok(())
}
