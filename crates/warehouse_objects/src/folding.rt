//! Folding the batches of a store.
ghost use Rattle.std.specs.Prelude.{◌≡◌, ◌⊎◌, ◌↔◌, ◌+◌, ◌<◌, ◌≤◌, List, false, Some, length, slice_get, take};
ghost use Rattle.std.specs.Prelude.{IfErr, IfOk, IsErrOf, IsTrue, OnErr, OnOk};
ghost use Rattle.cube_model.specs.declared.fault.Fault.TheVariants.{BadLayout, Memory};
ghost use Rattle.cube_model.specs.declared.rows.LineOrder.{LineOrder};
ghost use Rattle.cube_model.specs.Admission.{all_rows};
ghost use Rattle.cube_model.specs.Limits.{most_batches};
ghost use Rattle.object_store.specs.Store.{content_of, device_of, has_failed};
ghost use Rattle.column_segment.specs.Segment.{IsSegment};
ghost use Rattle.cube_query.specs.Asked.{asked_columns};
ghost use Rattle.cube_query.specs.Groups.{IsOver, RepresentsRows};
ghost use Rattle.group_tallies.specs.Limits.{AreFoldable};
ghost use Rattle.warehouse_root.specs.Objects.{segment_id};
ghost use Rattle.warehouse_objects.specs.Counted.{CountsBatch};
ghost use Rattle.warehouse_objects.specs.Reads.{EndsReading, ForHeld, ForHeldOfRoot, ReadsOnly};

use column_segment::{ColumnBuffer, FactColumn, Segment, decode};
use cube_model::Fault;
use cube_query::Fold;
use dimensions::Dims;
use object_store::Store;
use sector_device::Sectors;
use std::alloc::Global;
use warehouse_root::{Root, segment_id};

/// Counts the rows of the batches after the first `from`, up to `as_of`, into a fold, straight from their columns. Of
/// each batch only those are read at which the fold's query looks, into one buffer.
///
/// `BadLayout` where a batch has another number than its place, or another count of rows than the root says, and where
/// the fold cannot take its rows. After a refusal the fold is to be dropped.
pub fn fold_batches<D: Sectors>(
    alloc: Global,
    store: &mut Store<D>,
    root: &Root,
    dims: &Dims,
    fold: &mut Fold,
    from: u32,
    as_of: u32,
) -> Result<(), Fault>
    requires fine { has_failed store.old ≡ false }
    requires over { IsOver dims.now fold.old }
    requires order { from ≤ as_of }
    requires few { as_of ≤ length root.now.batches }

    // A fold that represents the rows of the batches up to the first of them then represents those up to the last.
    ensures ok { OnOk result
        (ForHeld D.Sectors store.old store.new (λ w. RepresentsRows dims.now fold.old (all_rows (take from w.batches))
        → RepresentsRows dims.now fold.new (all_rows (take as_of w.batches)))) }
    ensures over { IsOver dims.now fold.new }
    ensures query { fold.new.query ≡ fold.old.query }
    ensures refused { IsErrOf result BadLayout
        → ForHeldOfRoot D.Sectors store.old store.new root.now
        (λ w. dims.now ≡ w.rows → RepresentsRows dims.now fold.old (all_rows (take from w.batches)) → ⊥) }

    // The content stays, at each moment.
    ensures reads { ReadsOnly D.Sectors store.old store.new result }
    ensures causes { IfErr result EndsReading }
{
    let batches = root.batches();
    let columns = fold.asked_columns()?;
    let mut buffer = ColumnBuffer::new(alloc)?;
    for before in from..as_of {
        let count = batches[before as usize];
        add_batch(store, dims, fold, &mut buffer, &columns, before, count)?;
    }
    Ok(())
}

/// Counts the batch after the first so many into a fold, straight from the columns at which the fold's query looks. A
/// refusal leaves the fold as it was.
///
/// `BadLayout` where the batch is not there as the root says, and where the fold cannot take its rows. The dimensions
/// may be those of an earlier time: it is enough that they have the keys of the batches up to this one.
pub fn fold_batch<D: Sectors>(
    alloc: Global,
    store: &mut Store<D>,
    root: &Root,
    dims: &Dims,
    fold: &mut Fold,
    before: u32,
) -> Result<(), Fault>
    requires fine { has_failed store.old ≡ false }
    requires over { IsOver dims.now fold.old }
    ensures ok { OnOk result
        (ForHeld D.Sectors store.old store.new (λ w. RepresentsRows dims.now fold.old (all_rows (take before w.batches))
        → RepresentsRows dims.now fold.new (all_rows (take (before + 1) w.batches)))) }
    ensures err { OnErr result (fold.new ≡ fold.old) }
    ensures over { IsOver dims.now fold.new }
    ensures query { fold.new.query ≡ fold.old.query }
    ensures refused { IsErrOf result BadLayout
        → ForHeldOfRoot D.Sectors store.old store.new root.now (λ w. before < length w.batches
        → AreFoldable dims.now (all_rows (take (before + 1) w.batches))
        → RepresentsRows dims.now fold.old (all_rows (take before w.batches)) → ⊥) }

    // The content stays, at each moment.
    ensures reads { ReadsOnly D.Sectors store.old store.new result }
    ensures causes { IfErr result EndsReading }
{
    let batches = root.batches();
    if before as usize >= batches.len() {
        return Err(Fault::BadLayout);
    }
    let columns = fold.asked_columns()?;
    let mut buffer = ColumnBuffer::new(alloc)?;
    let count = batches[before as usize];
    add_batch(store, dims, fold, &mut buffer, &columns, before, count)
}

// Reads the columns of the batch after so many others at which the fold's query looks, and counts its rows in. There
// are to be so many. A refusal leaves the fold as it was.
fn add_batch<D: Sectors>(
    store: &mut Store<D>,
    dims: &Dims,
    fold: &mut Fold,
    buffer: &mut ColumnBuffer,
    columns: &[FactColumn],
    before: u32,
    count: u32,
) -> Result<(), Fault>
    requires fine { has_failed store.old ≡ false }
    requires over { IsOver dims.now fold.old }
    requires few { before < most_batches }
    requires asked { columns.now ≡ asked_columns fold.old.query }
    ensures ok { OnOk result
        (CountsBatch dims.now fold.old fold.new before (D.keeps_word (device_of store.new))
        (content_of D.Sectors store.old)) }
    ensures err { OnErr result (fold.new ≡ fold.old) }
    ensures over { IsOver dims.now fold.new }
    ensures query { fold.new.query ≡ fold.old.query }
    ensures refused { IsErrOf result BadLayout
        → ForHeld D.Sectors store.old store.new (λ w. (batch : List LineOrder) → slice_get w.batches before ≡ Some batch
        → count ≡ length batch → AreFoldable dims.now (all_rows (take (before + 1) w.batches))
        → RepresentsRows dims.now fold.old (all_rows (take before w.batches)) → ⊥) }
    ensures reads { ReadsOnly D.Sectors store.old store.new result }
    ensures causes { IfErr result EndsReading }
{
    let number = before + 1;
    buffer.read(store, segment_id(number), number, count, columns)?;
    fold.add_columns(dims, buffer.columns())
}

/// The batch that has these bytes. `BadLayout` where it has another number, or another count of rows.
pub fn decoded_batch(
    alloc: Global,
    bytes: Vec<u8>,
    number: u32,
    count: u32,
) -> Result<Segment, Fault>
    ensures ok { IfOk result (λ segment. IsSegment bytes.items number segment.rows) }
    ensures refused { IfErr result (λ fault. (fault ≡ Memory) ⊎ ((fault ≡ BadLayout)
        × ((rows : List LineOrder) → length rows ≡ count → IsSegment bytes.items number rows → ⊥))) }
{
    let segment = decode(alloc, bytes)?;
    if !is_batch(&segment, number, count) {
        return Err(Fault::BadLayout);
    }
    Ok(segment)
}

// Whether a batch has a number, and so many rows.
fn is_batch(segment: &Segment, number: u32, count: u32) -> bool
    ensures { IsTrue result ↔ (segment.now.number ≡ number) × (length segment.now.rows ≡ count) }
{
    segment.number() == number && segment.len() == count as usize
}
