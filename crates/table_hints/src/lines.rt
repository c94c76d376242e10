//! The fields of a line by place.
ghost use Rattle.std.specs.Prelude.{◌≡◌, length, option_map, slice_get};
ghost use Rattle.batch_loader.specs.Fields.{between_bars, without_cr};
ghost use Rattle.table_hints.specs.Lines.{count_of_fields};

use batch_loader::without_cr;

/// How many fields a line has. A bar after the last one is no further field.
pub fn field_count(line: &[u8]) -> usize
    ensures { result ≡ count_of_fields (without_cr line.now) }
{
    let line = without_cr(line);
    let parts = part_count(line);
    if line.last() == Some(&b'|') {
        parts.saturating_sub(1)
    } else {
        parts
    }
}

// How many parts there are between the bars of a text.
fn part_count(text: &[u8]) -> usize
    ensures { result ≡ length (between_bars text.now) }
{
    text.split(|byte| *byte == b'|').count()
}

/// A field by its place from 0, if the line has one there.
pub fn field(line: &[u8], place: usize) -> Option<&[u8]>
    ensures { option_map (λ text. text.now) result ≡ slice_get (between_bars (without_cr line.now)) place }
{
    without_cr(line).split(|byte| *byte == b'|').nth(place)
}
