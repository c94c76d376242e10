//! The fields that lines can spell.
ghost use Rattle.std.specs.Prelude.{◌≡◌, true};
ghost use Rattle.std.specs.List.{list_all};
ghost use Rattle.table_texts.specs.Spellable.{ends_in_cr, is_field_text, is_plain_byte, is_spellable_cell};

use crate::cell::Cell;
use cube_model::limits::LONGEST_TEXT;

/// Whether a line can hold some fields: all numbers, and the texts that a field can hold.
pub(crate) fn are_fields(cells: &[Cell<'_>]) -> bool
    ensures { result ≡ list_all is_spellable_cell cells.now }
{
    cells.iter().all(is_spellable_cell)
}

fn is_spellable_cell(cell: &Cell<'_>) -> bool
    ensures { result ≡ is_spellable_cell cell.now }
{
    match cell {
        Cell::Number(_) => true,
        Cell::Text(text) => is_field_text(text),
    }
}

/// Whether fields can hold some texts.
pub(crate) fn are_field_texts(texts: &[&[u8]]) -> bool
    ensures { result ≡ list_all (λ text. is_field_text text.now) texts.now }
{
    texts.iter().all(|text| is_field_text(text))
}

fn is_field_text(text: &[u8]) -> bool
    ensures { result ≡ is_field_text text.now }
{
    text.len() <= LONGEST_TEXT && has_plain_bytes(text)
}

// Whether a text has neither a bar nor a line feed.
fn has_plain_bytes(text: &[u8]) -> bool
    ensures { result ≡ list_all is_plain_byte text.now }
{
    text.iter().all(is_plain_byte)
}

fn is_plain_byte(byte: &u8) -> bool
    ensures { result ≡ is_plain_byte byte.now }
{
    *byte != b'|' && *byte != b'\n'
}

/// Whether a text ends with a carriage return, which a reader would drop at the end of a line.
pub(crate) fn ends_in_cr(text: &[u8]) -> bool
    ensures { result ≡ ends_in_cr text.now }
{
    !text.is_empty() && text[text.len() - 1] == b'\r'
}
