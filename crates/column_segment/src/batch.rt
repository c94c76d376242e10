//! The test of what a batch has to keep.
ghost use Rattle.std.specs.Prelude.{◌↔◌, ◌≤◌, All, IsTrue, length};
ghost use Rattle.cube_model.specs.Limits.{longest_text};
ghost use Rattle.column_segment.specs.Columns.{text_of};
ghost use Rattle.column_segment.specs.Segment.{HasShortFactTexts, IsBatch};

use crate::columns::TextColumn;
use cube_model::LineOrder;
use cube_model::limits::{LONGEST_TEXT, MOST_BATCH_ROWS};

/// Whether rows can be a batch: at most 65,536 of them, and no text above 255 bytes.
pub fn is_batch(rows: &[LineOrder]) -> bool
    ensures { IsTrue result ↔ IsBatch rows.now }
{
    if rows.len() > MOST_BATCH_ROWS {
        return false;
    }
    have_short_texts(rows)
}

// Whether no text of any row is too long.
fn have_short_texts(rows: &[LineOrder]) -> bool
    ensures { IsTrue result ↔ All HasShortFactTexts rows.now }
{
    rows.iter().all(|row| has_short_texts(row))
}

// Whether no text of a row is too long.
fn has_short_texts(row: &LineOrder) -> bool
    ensures { IsTrue result ↔ HasShortFactTexts row.now }
{
    is_short(row, TextColumn::OrderPriority)
        & is_short(row, TextColumn::ShipPriority)
        & is_short(row, TextColumn::CommitDate)
        & is_short(row, TextColumn::ShipMode)
}

// Whether a text of a row is not too long.
fn is_short(row: &LineOrder, column: TextColumn) -> bool
    ensures { IsTrue result ↔ (length (text_of column row.now) ≤ longest_text) }
{
    column.of(row).len() <= LONGEST_TEXT
}
