//! Passing over the columns of texts of a stored batch. Their dictionaries are read, a sector at a time, and of their
//! codes only those that are in the last of these sectors.
ghost use Rattle.std.specs.Prelude.{◌≡◌, ◌+◌, ◌-◌, ◌<◌, ◌≤◌, ◌^◌, ℕ, List, Some, drop, length, IfOk, IfSome};
ghost use Rattle.std.specs.Prelude.{IsErrOf, IsNone, IsSomeAnd};
ghost use Rattle.cube_model.specs.declared.fault.Fault.TheVariants.{BadLayout};
ghost use Rattle.cube_model.specs.declared.rows.LineOrder.{LineOrder};
ghost use Rattle.cube_model.specs.Limits.{most_batch_rows};
ghost use Rattle.wire.specs.Runs.{ReadsSourceOr};
ghost use Rattle.column_segment.specs.Columns.{text_columns};
ghost use Rattle.column_segment.specs.Reading.{BeginsWithNoColumn};
ghost use Rattle.stored_rows.specs.Passing.{BeginsWithDictionary, BeginsWithTexts, LeadsToLast, PassesColumn};
ghost use Rattle.stored_rows.specs.TextColumns.{SpellColumns};

use crate::window::{Passed, WINDOW_BYTES, pass_texts};
use cube_model::Fault;
use wire::{Source, read_part};

// How many columns of texts are before that of the ship modes: the order priorities, the ship priorities and the
// commit dates.
const OTHER_COLUMNS: usize = 3;

// How many bytes the count of a dictionary's texts takes.
const COUNT_BYTES: usize = 4;

/// Where the column of the ship modes begins in a text, whose first column of texts is at a place. Of the columns
/// before it the dictionaries are read, window by window, and of the codes those in the last window alone.
///
/// `BadLayout` where the text has no such columns of so many rows, as far as what is read shows it. It can also fail
/// with what the source answers.
pub(crate) fn after_columns<S: Source>(
    source: &mut S,
    id: u32,
    from: usize,
    rows: usize,
) -> Result<usize, Fault>
    requires few { rows ≤ most_batch_rows }
    ensures passed { IfOk result (λ end. S.keeps_word source.new → (text : List ℕ) → S.texts source.old id ≡ Some text
        → LeadsToLast rows (drop from text) (drop end text)) }
    ensures refused { IsErrOf result BadLayout → S.keeps_word source.new → (text : List ℕ)
        → S.texts source.old id ≡ Some text
        → (others : List LineOrder) → ¬ SpellColumns text_columns rows (drop from text) others }
    ensures run { ReadsSourceOr S.Source (λ fault. fault ≡ BadLayout) source.old source.new result }
{
    let mut at = from;
    for _ in 0..OTHER_COLUMNS {
        at = after_column(source, id, at, rows)?;
    }
    Ok(at)
}

// Where the column of texts of so many rows ends that a text has at a place. Its codes are passed over.
fn after_column<S: Source>(source: &mut S, id: u32, at: usize, rows: usize) -> Result<usize, Fault>
    requires few { rows ≤ most_batch_rows }
    ensures passed { IfOk result (λ end. S.keeps_word source.new → (text : List ℕ) → S.texts source.old id ≡ Some text
        → PassesColumn rows (drop at text) (drop end text)) }
    ensures refused { IsErrOf result BadLayout → S.keeps_word source.new → (text : List ℕ)
        → S.texts source.old id ≡ Some text → BeginsWithNoColumn rows (drop at text) }
    ensures run { ReadsSourceOr S.Source (λ fault. fault ≡ BadLayout) source.old source.new result }
{
    let codes = after_dictionary(source, id, at, rows)?;
    match place_after(source, id, codes, 2 * rows) {
        Some(end) => Ok(end),
        None => Err(Fault::BadLayout),
    }
}

/// How many bytes of a text are after the first so many. Nothing where it has fewer, or where there is none.
pub(crate) fn left_after<S: Source>(source: &S, id: u32, from: usize) -> Option<usize>
    ensures total { IfSome result (λ count. IsSomeAnd (S.totals source.now id) (λ total. from + count ≡ total)) }
    ensures fits { IfSome result (λ count. from + count < 2 ^ 64) }
    ensures text { IfSome result (λ count. S.keeps_word source.now
        → IsSomeAnd (S.texts source.now id) (λ text. from + count ≡ length text)) }
    ensures none { IsNone result → S.keeps_word source.now → (text : List ℕ) → S.texts source.now id ≡ Some text
        → length text < from }
{
    let total = source.total(id)?;
    (total as usize).checked_sub(from)
}

// The place in a text so many bytes after another one. Nothing where it has fewer from that one on, or where there is
// none.
fn place_after<S: Source>(source: &S, id: u32, at: usize, count: usize) -> Option<usize>
    ensures place { IfSome result (λ end. end ≡ at + count) }
    ensures total { 0 < count → IfSome result (λ end. IsSomeAnd (S.totals source.now id) (λ total. end ≤ total)) }
    ensures none { IsNone result → S.keeps_word source.now → (text : List ℕ) → S.texts source.now id ≡ Some text
        → length (drop at text) < count }
{
    let left = (source.total(id)? as usize).saturating_sub(at);
    if left < count {
        return None;
    }
    Some(at + count)
}

// Where the dictionary ends that a text has at a place. It is to have no more than so many texts.
fn after_dictionary<S: Source>(
    source: &mut S,
    id: u32,
    at: usize,
    most: usize,
) -> Result<usize, Fault>
    requires few { most ≤ most_batch_rows }
    ensures passed { IfOk result (λ end. S.keeps_word source.new → (text rest : List ℕ)
        → S.texts source.old id ≡ Some text → BeginsWithDictionary most (drop at text) rest → drop end text ≡ rest) }
    ensures refused { IsErrOf result BadLayout → S.keeps_word source.new → (text rest : List ℕ)
        → S.texts source.old id ≡ Some text → BeginsWithDictionary most (drop at text) rest → ⊥ }
    ensures run { ReadsSourceOr S.Source (λ fault. fault ≡ BadLayout) source.old source.new result }
{
    let (count, from) = count_at(source, id, at, most)?;
    after_texts(source, id, from, count)
}

// How many texts the dictionary has that a text has at a place, and where the first of them begins. They are to be no
// more than so many.
fn count_at<S: Source>(
    source: &mut S,
    id: u32,
    at: usize,
    most: usize,
) -> Result<(u32, usize), Fault>
    requires few { most ≤ most_batch_rows }
    ensures found { IfOk result (λ counted. S.keeps_word source.new → (text rest : List ℕ)
        → S.texts source.old id ≡ Some text → BeginsWithDictionary most (drop at text) rest
        → BeginsWithTexts counted.0 (drop counted.1 text) rest) }
    ensures refused { IsErrOf result BadLayout → S.keeps_word source.new → (text rest : List ℕ)
        → S.texts source.old id ≡ Some text → BeginsWithDictionary most (drop at text) rest → ⊥ }
    ensures run { ReadsSourceOr S.Source (λ fault. fault ≡ BadLayout) source.old source.new result }
{
    let Some(from) = place_after(source, id, at, COUNT_BYTES) else {
        return Err(Fault::BadLayout);
    };
    let mut field = [0; COUNT_BYTES];
    read_part(source, id, at as u64, &mut field)?;
    let count = u32::from_le_bytes(field);
    if count as usize > most {
        return Err(Fault::BadLayout);
    }
    Ok((count, from))
}

// Where so many texts end that a text has from a place on. They are read one window after another.
fn after_texts<S: Source>(source: &mut S, id: u32, from: usize, count: u32) -> Result<usize, Fault>
    ensures passed { IfOk result (λ end. S.keeps_word source.new → (text rest : List ℕ)
        → S.texts source.old id ≡ Some text → BeginsWithTexts count (drop from text) rest → drop end text ≡ rest) }
    ensures refused { IsErrOf result BadLayout → S.keeps_word source.new → (text rest : List ℕ)
        → S.texts source.old id ≡ Some text → BeginsWithTexts count (drop from text) rest → ⊥ }
    ensures run { ReadsSourceOr S.Source (λ fault. fault ≡ BadLayout) source.old source.new result }
{
    let mut at = from;
    let mut left = count;
    while left > 0 {
        let passed = pass_window(source, id, at, left)?;
        at += passed.bytes;
        left -= passed.texts;
    }
    Ok(at)
}

// Reads a window on the texts that a text has from a place on, and passes over those that are whole in it.
fn pass_window<S: Source>(source: &mut S, id: u32, at: usize, left: u32) -> Result<Passed, Fault>
    requires some { 0 < left }
    ensures few { IfOk result (λ passed. (0 < passed.texts) × (passed.texts ≤ left)) }
    ensures room { IfOk result (λ passed. at + passed.bytes < 2 ^ 64) }
    ensures passed { IfOk result (λ passed. S.keeps_word source.new → (text rest : List ℕ)
        → S.texts source.old id ≡ Some text → BeginsWithTexts left (drop at text) rest
        → BeginsWithTexts (left - passed.texts) (drop (at + passed.bytes) text) rest) }
    ensures refused { IsErrOf result BadLayout → S.keeps_word source.new → (text rest : List ℕ)
        → S.texts source.old id ≡ Some text → BeginsWithTexts left (drop at text) rest → ⊥ }
    ensures run { ReadsSourceOr S.Source (λ fault. fault ≡ BadLayout) source.old source.new result }
{
    let Some(more) = left_after(source, id, at) else {
        return Err(Fault::BadLayout);
    };
    let mut buffer = [0; WINDOW_BYTES];
    let window = &mut buffer[..more.min(WINDOW_BYTES)];
    read_part(source, id, at as u64, window)?;
    let passed = pass_texts(window, left);
    if passed.texts == 0 {
        return Err(Fault::BadLayout);
    }
    Ok(passed)
}
