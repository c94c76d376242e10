//! Reading the parts of a dimension from the front of bytes.
ghost use Rattle.std.specs.Prelude.{◌≡◌, ◌⊎◌, ◌<◌, ◌^◌, ◌*◌, [], length, IfErr, IfOk, IsErr, IsOkUnless, OnOk};
ghost use Rattle.cube_model.specs.declared.fault.Fault.{Fault};
ghost use Rattle.dimensions.specs.Coded.{ColumnsHaveTexts};
ghost use Rattle.dimensions.specs.Shapes.{lowers_of};
ghost use Rattle.dimension_objects.specs.Columns.{IsOrderOfColumns, BeginsWithNoCodes, BeginsWithNoHeader};
ghost use Rattle.dimension_objects.specs.Columns.{BeginsWithNoTexts};
ghost use Rattle.dimension_objects.specs.Columns.{ReadsCodes, ReadsColumns, ReadsDimensionHeader, ReadsKeys};
ghost use Rattle.dimension_objects.specs.Columns.{ReadsColumnTexts};

use crate::columns::place_count;
use crate::encoding::NAME;
use crate::order::axis_number;
use byteorder::{ByteOrder, LittleEndian};
use cube_model::limits::MOST_MEMBERS;
use cube_model::{Axis, Fault, Items};
use dictionary::Dictionary;
use dimensions::CodedColumn;
use std::alloc::{AllocError, Global};
use wire::Cursor;

// Reads what is before the columns, and answers how many rows there are.
pub(crate) fn read_header(cursor: &mut Cursor<'_>, axis: Axis) -> Result<u32, Fault>
    ensures ok { IfOk result (ReadsDimensionHeader axis cursor.old cursor.new) }
    ensures fault { IsOkUnless result Fault.BadLayout }
    ensures none { IsErr result → BeginsWithNoHeader axis cursor.old }
{
    if cursor.bytes(4)? != NAME {
        return Err(Fault::BadLayout);
    }
    if cursor.u32()? != axis_number(axis) {
        return Err(Fault::BadLayout);
    }
    cursor.u32()
}

// Reads the texts of columns, in an order.
pub(crate) fn read_texts(
    alloc: Global,
    cursor: &mut Cursor<'_>,
    order: &[usize],
    columns: &mut Vec<CodedColumn>,
) -> Result<(), Fault>
    requires order { IsOrderOfColumns (length columns.old.items) order.now }
    requires have { ColumnsHaveTexts columns.old.items }
    ensures ok { OnOk result (ReadsColumnTexts order.now cursor.old cursor.new columns.old.items columns.new.items) }
    ensures refused { IfErr result (λ fault. (fault ≡ Fault.Memory) ⊎ ((fault ≡ Fault.BadLayout)
        × BeginsWithNoTexts order.now cursor.old)) }
{
    for column in order {
        let texts = Dictionary::read(alloc, cursor, MOST_MEMBERS as u32)?;
        columns[*column].texts = texts;
    }
    Ok(())
}

// Reads the codes of columns, in an order.
pub(crate) fn read_columns(
    alloc: Global,
    cursor: &mut Cursor<'_>,
    axis: Axis,
    rows: u32,
    order: &[usize],
    columns: &mut Vec<CodedColumn>,
) -> Result<(), Fault>
    requires order { IsOrderOfColumns (length (lowers_of axis)) order.now }
    requires count { length columns.old.items ≡ length (lowers_of axis) }
    requires have { ColumnsHaveTexts columns.old.items }
    ensures ok { OnOk result
        (ReadsColumns axis rows order.now cursor.old cursor.new columns.old.items columns.new.items) }
    ensures refused { IfErr result (λ fault. (fault ≡ Fault.Memory) ⊎ ((fault ≡ Fault.BadLayout)
        × BeginsWithNoCodes axis rows order.now columns.old.items cursor.old)) }
{
    for column in order {
        let places = place_count(axis, *column, rows, columns.as_slice());
        let codes = read_codes(alloc, cursor, places)?;
        columns[*column].codes = codes;
    }
    Ok(())
}

// Reads so many codes.
fn read_codes(alloc: Global, cursor: &mut Cursor<'_>, count: usize) -> Result<Items<u16>, Fault>
    requires { count < 2 ^ 32 }
    ensures ok { IfOk result (ReadsCodes count cursor.old cursor.new) }
    ensures refused { IfErr result (λ fault. (fault ≡ Fault.Memory) ⊎ ((fault ≡ Fault.BadLayout)
        × (length cursor.old < 2 * count))) }
{
    let part = cursor.bytes(2 * count)?;
    let codes = codes_of(alloc, part, count)?;
    Ok(Items::from_vec(codes))
}

// The codes that bytes spell.
fn codes_of(alloc: Global, part: &[u8], count: usize) -> Result<Vec<u16>, AllocError>
    requires { length part.now ≡ 2 * count }
    ensures { IfOk result (λ codes. ReadsCodes count part.now [] codes.items) }
{
    let mut codes = vec![in alloc; 0; count]?;
    LittleEndian::read_u16_into(part, codes.as_mut_slice());
    Ok(codes)
}

// Reads so many keys.
pub(crate) fn read_keys(
    alloc: Global,
    cursor: &mut Cursor<'_>,
    count: usize,
) -> Result<Items<u32>, Fault>
    requires { count < 2 ^ 32 }
    ensures ok { IfOk result (ReadsKeys count cursor.old cursor.new) }
    ensures refused { IfErr result (λ fault. (fault ≡ Fault.Memory) ⊎ ((fault ≡ Fault.BadLayout)
        × (length cursor.old < 4 * count))) }
{
    let part = cursor.bytes(4 * count)?;
    let keys = keys_of(alloc, part, count)?;
    Ok(Items::from_vec(keys))
}

// The keys that bytes spell.
fn keys_of(alloc: Global, part: &[u8], count: usize) -> Result<Vec<u32>, AllocError>
    requires { length part.now ≡ 4 * count }
    ensures { IfOk result (λ keys. ReadsKeys count part.now [] keys.items) }
{
    let mut keys = vec![in alloc; 0; count]?;
    LittleEndian::read_u32_into(part, keys.as_mut_slice());
    Ok(keys)
}
