//! How a line becomes a row.
ghost use Rattle.std.specs.Prelude.{◌≡◌, ◌⊎◌, ◌≤◌, ◌∷◌, [], ℕ, Some, None, Ok, Err, MatchResult, IfSome, IfOk, IfErr};
ghost use Rattle.std.specs.Prelude.{drop, length, take, IsOkUnless};
ghost use Rattle.batch_loader.specs.Columns.{fields_fault, row_of, field_text};
ghost use Rattle.batch_loader.specs.LineFields.{fields_at};
ghost use Rattle.batch_loader.specs.Parsing.{AreNumbers, ReadsNumbers};
ghost use Rattle.batch_loader.specs.Tables.{lineorder_columns, lineorder_of_fields};

use crate::columns::{
    AMOUNT, CUSTOMER, DATE, KEY, KEY_LIMIT, LINEORDER, PART, SMALL_LIMIT, SUPPLIER, TEXT, fitting,
    fitting_few_digits, numbers_of,
};
use crate::line_fields::{FieldsInPlace, fields, split};
use cube_model::{
    Amount, CustomerRow, DateRow, Fault, Items, LineOrder, PartRow, RowText, SupplierRow, Text,
};
use std::alloc::Global;

/// A row of a table, which a line of the table's text spells.
pub trait TableRow {
    ghost use Rattle.std.specs.Prelude.{ℕ, List};
    ghost use Rattle.cube_model.specs.Limits.{longest_line};
    ghost use Rattle.batch_loader.specs.declared.columns.Column.{Column};

    ghost columns: { List Column };

    ghost of_fields: { List (List ℕ) → Self };

    /// Reads the row of a line with a number. It fails when out of memory, or with the line's first fault.
    fn read(alloc: Global, line: &[u8], number: u64) -> Result<Self, Fault>
    where
        Self: Sized,
        requires { length line.now ≤ longest_line }
        ensures { MatchResult result (λ row. row_of columns of_fields number line.now ≡ Ok row)
            (λ fault. (fault ≡ Fault.Memory) ⊎ (row_of columns of_fields number line.now ≡ Err fault)) };
}

impl TableRow for CustomerRow {
    ghost use Rattle.batch_loader.specs.Tables.{customer_columns, customer_of_fields};

    ghost columns = { customer_columns };

    ghost of_fields = { customer_of_fields };

    fn read(alloc: Global, line: &[u8], number: u64) -> Result<Self, Fault> {
        let fields = fields::<8>(line, number)?;
        let numbers = numbers_of(&CUSTOMER, &fields, number)?;
        let (city, nation, region) = texts(alloc, fields.get(3), fields.get(4), fields.get(5))?;
        Ok(CustomerRow {
            key: numbers[0] as u32,
            city,
            nation,
            region,
        })
    }
}

impl TableRow for SupplierRow {
    ghost use Rattle.batch_loader.specs.Tables.{supplier_columns, supplier_of_fields};

    ghost columns = { supplier_columns };

    ghost of_fields = { supplier_of_fields };

    fn read(alloc: Global, line: &[u8], number: u64) -> Result<Self, Fault> {
        let fields = fields::<7>(line, number)?;
        let numbers = numbers_of(&SUPPLIER, &fields, number)?;
        let (city, nation, region) = texts(alloc, fields.get(3), fields.get(4), fields.get(5))?;
        Ok(SupplierRow {
            key: numbers[0] as u32,
            city,
            nation,
            region,
        })
    }
}

impl TableRow for PartRow {
    ghost use Rattle.batch_loader.specs.Tables.{part_columns, part_of_fields};

    ghost columns = { part_columns };

    ghost of_fields = { part_of_fields };

    fn read(alloc: Global, line: &[u8], number: u64) -> Result<Self, Fault> {
        let fields = fields::<9>(line, number)?;
        let numbers = numbers_of(&PART, &fields, number)?;
        let (brand1, category, mfgr) = texts(alloc, fields.get(4), fields.get(3), fields.get(2))?;
        Ok(PartRow {
            key: numbers[0] as u32,
            brand1,
            category,
            mfgr,
        })
    }
}

impl TableRow for DateRow {
    ghost use Rattle.batch_loader.specs.Tables.{date_columns, date_of_fields};

    ghost columns = { date_columns };

    ghost of_fields = { date_of_fields };

    fn read(alloc: Global, line: &[u8], number: u64) -> Result<Self, Fault> {
        let fields = fields::<17>(line, number)?;
        let numbers = numbers_of(&DATE, &fields, number)?;
        let (year, yearmonthnum, yearmonth) = texts(
            alloc,
            fields.get(4),
            fields.get(5),
            fields.get(6),
        )?;
        let weeknuminyear = text(alloc, fields.get(11))?;
        Ok(DateRow {
            key: numbers[0] as u32,
            year,
            yearmonthnum,
            yearmonth,
            weeknuminyear,
        })
    }
}

impl TableRow for LineOrder {
    ghost use Rattle.batch_loader.specs.Tables.{lineorder_columns, lineorder_of_fields};

    ghost columns = { lineorder_columns };

    ghost of_fields = { lineorder_of_fields };

    fn read(alloc: Global, line: &[u8], number: u64) -> Result<Self, Fault> {
        let mut ends = [0usize; 17];
        let Some(text) = split(line, &mut ends) else {
            return Err(Fault::FieldCount { line: number });
        };
        let fields = FieldsInPlace::new(text, &ends);
        let numbers = line_order_numbers(&fields, number)?;
        line_order(alloc, &fields, &numbers)
    }
}

// The numbers of a fact row's fields, or the fault of the first field that does not fit its column.
#[inline(always)]
fn line_order_numbers(fields: &FieldsInPlace<'_, '_, 17>, line: u64) -> Result<[u64; 17], Fault>
    ensures fits { IfOk result (λ _. fields_fault line 1 lineorder_columns (fields_at fields.now) ≡ None) }
    ensures numbers { IfOk result (AreNumbers 0 lineorder_columns (fields_at fields.now)) }
    ensures refused { IfErr result
        (λ fault. fields_fault line 1 lineorder_columns (fields_at fields.now) ≡ Some fault) }
{
    match fitting_numbers(fields) {
        Some(numbers) => Ok(numbers),
        None => numbers_by_columns(fields, line),
    }
}

// The numbers of a fact row's fields, or nothing where a field does not fit its column. A loop over the columns would
// tell them apart anew in each row.
#[inline(always)]
fn fitting_numbers(fields: &FieldsInPlace<'_, '_, 17>) -> Option<[u64; 17]>
    ensures fits { IfSome result
        (λ _. (line : ℕ) → fields_fault line 1 lineorder_columns (fields_at fields.now) ≡ None) }
    ensures numbers { IfSome result (AreNumbers 0 lineorder_columns (fields_at fields.now)) }
{
    let keys = fitting_keys(fields)?;
    let order = fitting_order(fields)?;
    let amounts = fitting_amounts(fields)?;
    Some([
        keys.0, keys.1, keys.2, keys.3, keys.4, keys.5, order.0, order.1, order.2, order.3,
        order.4, amounts.0, amounts.1, amounts.2, amounts.3, amounts.4, amounts.5,
    ])
}

// Those of the six keys.
#[inline(always)]
fn fitting_keys(fields: &FieldsInPlace<'_, '_, 17>) -> Option<(u64, u64, u64, u64, u64, u64)>
    ensures { IfSome result (λ n. ReadsNumbers 0 (take 6 lineorder_columns) (fields_at fields.now)
        (n.0 ∷ n.1 ∷ n.2 ∷ n.3 ∷ n.4 ∷ n.5 ∷ [])) }
{
    Some((
        fitting(AMOUNT, fields, 0)?,
        fitting_few_digits(KEY_LIMIT, fields, 1)?,
        fitting(KEY, fields, 2)?,
        fitting(KEY, fields, 3)?,
        fitting(KEY, fields, 4)?,
        fitting(KEY, fields, 5)?,
    ))
}

// Those of the next five, from the priority of the order to its total price.
#[inline(always)]
fn fitting_order(fields: &FieldsInPlace<'_, '_, 17>) -> Option<(u64, u64, u64, u64, u64)>
    ensures { IfSome result (λ n. ReadsNumbers 6 (take 5 (drop 6 lineorder_columns)) (fields_at fields.now)
        (n.0 ∷ n.1 ∷ n.2 ∷ n.3 ∷ n.4 ∷ [])) }
{
    Some((
        fitting(TEXT, fields, 6)?,
        fitting(TEXT, fields, 7)?,
        fitting_few_digits(SMALL_LIMIT, fields, 8)?,
        fitting(AMOUNT, fields, 9)?,
        fitting(AMOUNT, fields, 10)?,
    ))
}

// Those of the last six, from the discount to the ship mode.
#[inline(always)]
fn fitting_amounts(fields: &FieldsInPlace<'_, '_, 17>) -> Option<(u64, u64, u64, u64, u64, u64)>
    ensures { IfSome result (λ n. ReadsNumbers 11 (drop 11 lineorder_columns) (fields_at fields.now)
        (n.0 ∷ n.1 ∷ n.2 ∷ n.3 ∷ n.4 ∷ n.5 ∷ [])) }
{
    Some((
        fitting_few_digits(SMALL_LIMIT, fields, 11)?,
        fitting(AMOUNT, fields, 12)?,
        fitting(AMOUNT, fields, 13)?,
        fitting_few_digits(SMALL_LIMIT, fields, 14)?,
        fitting(TEXT, fields, 15)?,
        fitting(TEXT, fields, 16)?,
    ))
}

// The same column by column, which finds the fault.
#[inline(never)]
fn numbers_by_columns(fields: &FieldsInPlace<'_, '_, 17>, line: u64) -> Result<[u64; 17], Fault>
    ensures fits { IfOk result (λ _. fields_fault line 1 lineorder_columns (fields_at fields.now) ≡ None) }
    ensures numbers { IfOk result (AreNumbers 0 lineorder_columns (fields_at fields.now)) }
    ensures refused { IfErr result
        (λ fault. fields_fault line 1 lineorder_columns (fields_at fields.now) ≡ Some fault) }
{
    numbers_of(&LINEORDER, &fields.copied(), line)
}

// The fact row of a line's fields, whose numbers were read. It can only fail when out of memory.
#[inline]
fn line_order(
    alloc: Global,
    fields: &FieldsInPlace<'_, '_, 17>,
    numbers: &[u64; 17],
) -> Result<LineOrder, Fault>
    requires { AreNumbers 0 lineorder_columns (fields_at fields.now) numbers.now }
    ensures ok { IfOk result (λ row. row ≡ lineorder_of_fields (fields_at fields.now)) }
    ensures err { IsOkUnless result Fault.Memory }
{
    let texts = line_order_texts(alloc, fields)?;
    Ok(LineOrder {
        orderkey: Amount::new(numbers[0]),
        linenumber: numbers[1] as u32,
        custkey: numbers[2] as u32,
        partkey: numbers[3] as u32,
        suppkey: numbers[4] as u32,
        orderdate: numbers[5] as u32,
        orderpriority: texts.0,
        shippriority: texts.1,
        quantity: numbers[8] as u8,
        extendedprice: Amount::new(numbers[9]),
        ordtotalprice: Amount::new(numbers[10]),
        discount: numbers[11] as u8,
        revenue: Amount::new(numbers[12]),
        supplycost: Amount::new(numbers[13]),
        tax: numbers[14] as u8,
        commitdate: texts.2,
        shipmode: texts.3,
    })
}

// The texts of a fact row: the priorities of the order and of shipping, the commit date and the ship mode.
#[inline]
fn line_order_texts(
    alloc: Global,
    fields: &FieldsInPlace<'_, '_, 17>,
) -> Result<(RowText, RowText, RowText, RowText), Fault>
    ensures ok { IfOk result (λ texts. (texts.0 ≡ field_text (fields_at fields.now) 6)
        × (texts.1 ≡ field_text (fields_at fields.now) 7)
        × (texts.2 ≡ field_text (fields_at fields.now) 15) × (texts.3 ≡ field_text (fields_at fields.now) 16)) }
    ensures err { IsOkUnless result Fault.Memory }
{
    let (orderpriority, shippriority) = row_texts(alloc, fields.get(6), fields.get(7))?;
    let (commitdate, shipmode) = row_texts(alloc, fields.get(15), fields.get(16))?;
    Ok((orderpriority, shippriority, commitdate, shipmode))
}

/// A copy of a field as a text of its own.
fn text(alloc: Global, bytes: &[u8]) -> Result<Text, Fault>
    ensures ok { IfOk result (λ text. text ≡ bytes.now) }
    ensures err { IsOkUnless result Fault.Memory }
{
    let bytes = Vec::from_slice(alloc, bytes)?;
    Ok(Items::from_vec(bytes))
}

/// Copies of three fields as texts of their own.
fn texts(
    alloc: Global,
    first: &[u8],
    second: &[u8],
    third: &[u8],
) -> Result<(Text, Text, Text), Fault>
    ensures ok { IfOk result (λ texts. (texts.0 ≡ first.now) × (texts.1 ≡ second.now) × (texts.2 ≡ third.now)) }
    ensures err { IsOkUnless result Fault.Memory }
{
    let first = text(alloc, first)?;
    let second = text(alloc, second)?;
    let third = text(alloc, third)?;
    Ok((first, second, third))
}

/// Copies of two fields as texts of a fact row.
#[inline]
fn row_texts(alloc: Global, first: &[u8], second: &[u8]) -> Result<(RowText, RowText), Fault>
    ensures ok { IfOk result (λ texts. (texts.0 ≡ first.now) × (texts.1 ≡ second.now)) }
    ensures err { IsOkUnless result Fault.Memory }
{
    let first = RowText::from_slice(alloc, first)?;
    let second = RowText::from_slice(alloc, second)?;
    Ok((first, second))
}
