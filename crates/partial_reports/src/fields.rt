//! The fields of a line.
ghost use Rattle.std.specs.Prelude.{◌≡◌, ◌<◌, ◌^◌, [], ◌∷◌, ◌++◌, ℕ, ℤ, false, List, Some, length, map, IsOkAnd};
ghost use Rattle.std.specs.Prelude.{IsSomeAnd};
ghost use Rattle.std.specs.Fmt.{signed_decimal};
ghost use Rattle.std.specs.Int.Signed.{mag};
ghost use Rattle.std.specs.List.{AllByRecursion, join_with_byte};
ghost use Rattle.std.specs.Option.{option_map};
ghost use Rattle.cube_model.specs.declared.answer.Line.{Line};
ghost use Rattle.cube_model.specs.declared.answer.Member.{Member};
ghost use Rattle.cube_model.specs.declared.answer.Value.{Value};
ghost use Rattle.partial_reports.specs.Readable.{IsPlainMember, IsReadableLine, IsWholeNumber};
ghost use Rattle.ssb_reports.specs.Report.{member_text, value_text};
ghost use Rattle.partial_reports.specs.HeadReading.{UnlessMemory};
ghost use Rattle.partial_reports.specs.Reading.{FieldsAreLeft, line_fields};

use crate::head_reading::cut;
use crate::refused::{Refused, Wrong};
use cube_model::{Items, Line, Member, Query, Value};
use std::alloc::Global;

/// The line that a text may spell: a member for each column of a query, then a number for each aggregate. Its spelling
/// is compared by the caller.
pub(crate) fn parse_line(
    alloc: Global,
    number: u64,
    query: &Query,
    text: &[u8],
) -> Result<Line, Refused>
    ensures { (line : Line) → IsReadableLine query.now line → text.now ≡ join_with_byte 124 (line_fields line)
        → UnlessMemory result (λ read. read ≡ line) }
{
    let mut fields = LineFields { left: Some(text) };
    let key = parse_key(alloc, number, query.columns.len(), &mut fields)?;
    let values = parse_values(alloc, number, query.aggregates.len(), &mut fields)?;
    if fields.has_more() {
        return Err(Refused::at(number, Wrong::FieldCount));
    }
    Ok(Line { key, values })
}

// The fields of a line that are left, and nothing after the last of them.
#[derive(Drop)]
struct LineFields<'a> {
    left: Option<&'a [u8]>,
}

impl<'a> LineFields<'a> {
    // The next field.
    fn next(&mut self) -> Option<&'a [u8]>
        ensures { (field : List ℕ) (others : List (List ℕ))
            → FieldsAreLeft (option_map (λ text. text.now) self.old.left) (field ∷ others)
            → IsSomeAnd result (λ read. read.now ≡ field)
            × FieldsAreLeft (option_map (λ text. text.now) self.new.left) others }
    {
        let left = self.left?;
        match cut(left, b'|') {
            Some((field, others)) => {
                self.left = Some(others);
                Some(field)
            }
            None => {
                self.left = None;
                Some(left)
            }
        }
    }

    // Whether there is text that no field was taken of.
    fn has_more(&self) -> bool
        ensures { FieldsAreLeft (option_map (λ text. text.now) self.now.left) [] → result ≡ false }
    {
        match self.left {
            Some(left) => !left.is_empty(),
            None => false,
        }
    }
}

// A member for each of so many columns.
fn parse_key(
    alloc: Global,
    line: u64,
    columns: usize,
    fields: &mut LineFields<'_>,
) -> Result<Items<Member>, Refused>
    ensures { (key : List Member) (others : List (List ℕ)) → length key ≡ columns → AllByRecursion IsPlainMember key
        → FieldsAreLeft (option_map (λ text. text.now) fields.old.left) (map member_text key ++ others)
        → UnlessMemory result
        (λ read. (read ≡ key) × FieldsAreLeft (option_map (λ text. text.now) fields.new.left) others) }
{
    let mut key = Items::new(alloc);
    for _column in 0..columns {
        match fields.next() {
            Some(field) => key.push(member_of(alloc, field)?)?,
            None => return Err(Refused::at(line, Wrong::FieldCount)),
        }
    }
    Ok(key)
}

// A number for each of so many aggregates.
fn parse_values(
    alloc: Global,
    line: u64,
    aggregates: usize,
    fields: &mut LineFields<'_>,
) -> Result<Items<Value>, Refused>
    ensures { (values : List Value) → length values ≡ aggregates → AllByRecursion IsWholeNumber values
        → FieldsAreLeft (option_map (λ text. text.now) fields.old.left) (map value_text values)
        → UnlessMemory result
        (λ read. (read ≡ values) × FieldsAreLeft (option_map (λ text. text.now) fields.new.left) []) }
{
    let mut values = Items::new(alloc);
    for _aggregate in 0..aggregates {
        match fields.next() {
            Some(field) => values.push(value_of(line, field)?)?,
            None => return Err(Refused::at(line, Wrong::FieldCount)),
        }
    }
    Ok(values)
}

fn member_of(alloc: Global, field: &[u8]) -> Result<Member, Refused>
    ensures { (member : Member) → IsPlainMember member → field.now ≡ member_text member
        → UnlessMemory result (λ read. read ≡ member) }
{
    if field == b"ALL".as_slice() {
        return Ok(Member::All);
    }
    let text = Vec::from_slice(alloc, field)?;
    Ok(Member::Text(Items::from_vec(text)))
}

fn value_of(line: u64, field: &[u8]) -> Result<Value, Refused>
    ensures { (value : Value) → IsWholeNumber value → field.now ≡ value_text value
        → IsOkAnd result (λ read. read ≡ value) }
{
    match whole_number(field) {
        Some(number) => Ok(Value::Whole(number)),
        None => Err(Refused::at(line, Wrong::Field)),
    }
}

fn whole_number(field: &[u8]) -> Option<i64>
    ensures { (number : ℤ) → mag number < 2 ^ 63 → field.now ≡ signed_decimal number → result ≡ Some number }
{
    match str::from_utf8(field) {
        Ok(text) => text.parse::<i64>().ok(),
        Err(_) => None,
    }
}
