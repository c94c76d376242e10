//! The words of columns.
ghost use Rattle.std.specs.Prelude.{◌≡◌, Some, map};
ghost use Rattle.std.specs.Option.{option_map, IsSomeAnd};
ghost use Rattle.query_words.specs.Known.{column_name};
ghost use Rattle.query_words.specs.Mistakes.{IsColumnMistake, IsUnknownWord};
ghost use Rattle.query_words.specs.declared.known.Known.TheVariants.{Attribute};
ghost use Rattle.query_words.specs.Reading.{Reads};
ghost use Rattle.query_words.specs.Spelled.{AreNamed};

use crate::known::{Column, Known};
use crate::names::column;
use crate::parts::parts;
use crate::refused::Refused;
use cube_model::Items;
use std::alloc::Global;

/// Reads columns that are separated by commas, such as `d_year,lo_shipmode,p_brand1`. Without a word there are none.
pub fn read_columns(alloc: Global, by: Option<&str>) -> Result<Items<Column>, Refused<'_>>
    ensures { let by = option_map (λ text. text.now) by.entry in
        Reads (AreNamed by) (λ refused. IsSomeAnd by (λ text. IsColumnMistake text refused)) result }
{
    match by {
        None => Ok(Items::new(alloc)),
        Some(names) => columns_named(alloc, names),
    }
}

fn columns_named(alloc: Global, text: &str) -> Result<Items<Column>, Refused<'_>>
    ensures { Reads (AreNamed (Some text.now)) (IsColumnMistake text.now) result }
{
    if text.is_empty() {
        return Err(Refused::NoColumn);
    }
    let names = parts(alloc, text, ',')?;
    columns_of(alloc, names.as_slice())
}

// The columns of names.
fn columns_of<'a>(alloc: Global, names: &[&'a str]) -> Result<Items<Column>, Refused<'a>>
    ensures { let names = map (λ name. name.now) names.now in
        Reads (λ columns. map column_name columns ≡ names) (IsUnknownWord Attribute names) result }
{
    let mut columns = Items::new(alloc);
    for name in names {
        let Some(column) = column(name) else {
            return Err(Refused::Unknown {
                word: name,
                known: Known::Attribute,
            });
        };
        columns.push(column)?;
    }
    Ok(columns)
}
