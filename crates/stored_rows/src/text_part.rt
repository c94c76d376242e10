//! Reading the ship modes of a stored batch, and none of its columns of numbers.
ghost use Rattle.std.specs.Prelude.{◌≡◌, ◌↔◌, ◌+◌, ◌*◌, ◌≤◌, ◌<◌, List, Some, drop, false, length, IfErr, IfOk};
ghost use Rattle.std.specs.Prelude.{IsErrOf, IsSomeAnd, IsTrue, ℕ};
ghost use Rattle.cube_model.specs.Causes.{EndsDecoding};
ghost use Rattle.cube_model.specs.declared.fault.Fault.TheVariants.{BadLayout};
ghost use Rattle.cube_model.specs.Limits.{most_batch_rows, most_batches};
ghost use Rattle.object_store.specs.Content.{bytes_of};
ghost use Rattle.object_store.specs.Store.{content_of, device_of, has_failed};
ghost use Rattle.wire.specs.Runs.{ReadsSource, ReadsSourceOr};
ghost use Rattle.column_segment.specs.Projected.{HasColumns, HoldsNoneOf};
ghost use Rattle.column_segment.specs.Reading.{HasHeader};
ghost use Rattle.column_segment.specs.Segment.{segment_header};
ghost use Rattle.warehouse_root.specs.Objects.{segment_id};
ghost use Rattle.warehouse_objects.specs.Reads.{EndsReading, ReadsOnly};
ghost use Rattle.stored_rows.specs.Passing.{LeadsToLast};
ghost use Rattle.stored_rows.specs.Stored.{HoldsModes};

use crate::mode_column::ModeColumn;
use crate::passing::{after_columns, left_after};
use cube_model::Fault;
use cube_model::limits::MOST_BATCH_ROWS;
use object_store::Store;
use sector_device::Sectors;
use std::alloc::Global;
use warehouse_root::segment_id;
use wire::{Source, read_part, write_bytes, write_u32};

// How many bytes of a batch are before its columns.
const HEADER_BYTES: usize = 12;

// How many bytes a row takes in the columns of numbers.
const NUMBER_BYTES: usize = 63;

/// The ship mode of each row of the batch of a number. There are to be so many rows. Of its object the header, the
/// dictionaries of the columns of texts and the codes of the ship modes are read.
///
/// `BadLayout` where no such batch is there, as far as these show it. It can also fail when out of memory, or because
/// the device does.
pub(crate) fn read_mode_column<D: Sectors>(
    alloc: Global,
    store: &mut Store<D>,
    number: u32,
    count: u32,
) -> Result<ModeColumn, Fault>
    requires fine { has_failed store.old ≡ false }
    requires few { number ≤ most_batches }
    ensures modes { IfOk result (λ column. D.keeps_word (device_of store.new)
        → HoldsModes (content_of D.Sectors store.old) (segment_id number) number column) }
    ensures count { IfOk result (λ column. length column ≡ count) }
    ensures refused { IsErrOf result BadLayout → D.keeps_word (device_of store.new)
        → HoldsNoneOf (bytes_of (content_of D.Sectors store.old) (segment_id number)) number count }

    // The content stays, at each moment.
    ensures reads { ReadsOnly D.Sectors store.old store.new result }
    ensures causes { IfErr result EndsReading }
{
    let rows = count as usize;
    let bytes = read_last_column(alloc, store, segment_id(number), number, rows)?;
    ModeColumn::decode(alloc, &bytes, rows)
}

// Reads the last column of texts of the batch of a number and of so many rows that a source has at an id.
fn read_last_column<S: Source>(
    alloc: Global,
    source: &mut S,
    id: u32,
    number: u32,
    rows: usize,
) -> Result<Vec<u8>, Fault>
    ensures few { IfOk result (λ _. rows ≤ most_batch_rows) }
    ensures found { IfOk result (λ bytes. S.keeps_word source.new → IsSomeAnd (S.texts source.old id)
        (λ text. HasColumns text number rows × LeadsToLast rows (drop (12 + 63 * rows) text) bytes.items)) }
    ensures refused { IsErrOf result BadLayout → S.keeps_word source.new
        → HoldsNoneOf (S.texts source.old id) number rows }
    ensures run { ReadsSourceOr S.Source EndsDecoding source.old source.new
        result }
{
    if rows > MOST_BATCH_ROWS {
        return Err(Fault::BadLayout);
    }
    if !has_columns(source, id, number, rows)? {
        return Err(Fault::BadLayout);
    }
    let at = after_columns(source, id, HEADER_BYTES + NUMBER_BYTES * rows, rows)?;
    read_rest(alloc, source, id, at)
}

// Reads the bytes of a text from a place on. `BadLayout` where it ends before that.
fn read_rest<S: Source>(alloc: Global, source: &mut S, id: u32, at: usize) -> Result<Vec<u8>, Fault>
    ensures found { IfOk result (λ bytes. S.keeps_word source.new → IsSomeAnd (S.texts source.old id)
        (λ text. bytes.items ≡ drop at text)) }
    ensures refused { IsErrOf result BadLayout → S.keeps_word source.new → (text : List ℕ)
        → S.texts source.old id ≡ Some text → length text < at }
    ensures run { ReadsSourceOr S.Source EndsDecoding source.old source.new
        result }
{
    let Some(count) = left_after(source, id, at) else {
        return Err(Fault::BadLayout);
    };
    let mut bytes = vec![in alloc; 0; count]?;
    read_part(source, id, at as u64, bytes.as_mut_slice())?;
    Ok(bytes)
}

// Whether a source has at an id the header of a batch of a number and of so many rows, and room after it for the
// columns of numbers.
fn has_columns<S: Source>(source: &mut S, id: u32, number: u32, rows: usize) -> Result<bool, Fault>
    requires few { rows ≤ most_batch_rows }
    ensures same { IfOk result (λ yes. S.keeps_word source.new → (text : List ℕ) → S.texts source.old id ≡ Some text
        → IsTrue yes ↔ HasColumns text number rows) }
    ensures run { ReadsSource S.Source source.old source.new result }
{
    match left_after(source, id, HEADER_BYTES + NUMBER_BYTES * rows) {
        Some(_) => has_header(source, id, number, rows),
        None => Ok(false),
    }
}

// Whether a source has at an id the header of a batch of a number and of so many rows.
fn has_header<S: Source>(source: &mut S, id: u32, number: u32, rows: usize) -> Result<bool, Fault>
    requires room { IsSomeAnd (S.totals source.old id) (λ total. 12 ≤ total) }
    requires few { rows ≤ most_batch_rows }
    ensures same { IfOk result (λ yes. S.keeps_word source.new → (text : List ℕ) → S.texts source.old id ≡ Some text
        → IsTrue yes ↔ HasHeader text number rows) }
    ensures run { ReadsSource S.Source source.old source.new result }
{
    let mut header = [0; HEADER_BYTES];
    read_part(source, id, 0, &mut header)?;
    let own = header_of(number, rows as u32);
    Ok(header.as_slice() == own.as_slice())
}

// The header of a batch of a number and of so many rows.
fn header_of(number: u32, rows: u32) -> [u8; HEADER_BYTES]
    ensures { result ≡ segment_header number rows }
{
    let mut header = [0; HEADER_BYTES];
    write_bytes(&mut header, 0, b"SEG1");
    write_u32(&mut header, 4, number);
    write_u32(&mut header, 8, rows);
    header
}
