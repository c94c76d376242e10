//! Reading the fact rows of a stored batch.
ghost use Rattle.std.specs.Prelude.{◌≡◌, ◌<◌, ◌≤◌, false, slice_get, IfErr, IfOk, IfSome, IsErrOf, IsOkUnless};
ghost use Rattle.cube_model.specs.declared.fault.Fault.TheVariants.{BadLayout, Memory};
ghost use Rattle.cube_model.specs.Limits.{most_batches};
ghost use Rattle.object_store.specs.Content.{bytes_of};
ghost use Rattle.object_store.specs.Store.{content_of, device_of, has_failed};
ghost use Rattle.column_segment.specs.Projected.{HoldsNoneOf};
ghost use Rattle.warehouse_root.specs.Objects.{segment_id};
ghost use Rattle.warehouse_objects.specs.Reads.{EndsReading, ForHeldOfRoot, ReadsOnly};
ghost use Rattle.stored_rows.specs.Stored.{HoldsBatch};

use column_segment::Segment;
use cube_model::{Fault, Items, LineOrder};
use object_store::Store;
use sector_device::Sectors;
use std::alloc::Global;
use warehouse_objects::{decoded_batch, read_object};
use warehouse_root::{Root, segment_id};

/// The fact rows of the batch after so many others in a store, in their order, or nothing where its root has no such
/// batch. They are in memory all together, a whole batch of at most 65,536.
///
/// `BadLayout` where the batch has another number than its place, or another count of rows than the root says. It can
/// also fail when out of memory, or because the device does.
pub fn read_rows<D: Sectors>(
    alloc: Global,
    store: &mut Store<D>,
    root: &Root,
    before: u32,
) -> Result<Option<Items<LineOrder>>, Fault>
    requires fine { has_failed store.old ≡ false }

    // The rows are those of that batch of the warehouse, and there are none exactly where it has no such batch.
    ensures rows { IfOk result
        (λ found. ForHeldOfRoot D.Sectors store.old store.new root.now (λ w. found ≡ slice_get w.batches before)) }
    ensures refused { IsErrOf result BadLayout → ForHeldOfRoot D.Sectors store.old store.new root.now (λ w. ⊥) }

    // The content stays, at each moment.
    ensures reads { ReadsOnly D.Sectors store.old store.new result }
    ensures causes { IfErr result EndsReading }
{
    match count_of(root, before) {
        None => Ok(None),
        Some(count) => {
            let rows = read_batch(alloc, store, before + 1, count)?;
            Ok(Some(rows))
        }
    }
}

// How many rows a root says the batch after so many others has.
fn count_of(root: &Root, before: u32) -> Option<u32>
    ensures count { result ≡ slice_get root.now.batches before }
    ensures few { IfSome result (λ _. before < most_batches) }
{
    let count = root.batches().get(before as usize)?;
    Some(*count)
}

// The fact rows of the batch of a number. There are to be so many.
fn read_batch<D: Sectors>(
    alloc: Global,
    store: &mut Store<D>,
    number: u32,
    count: u32,
) -> Result<Items<LineOrder>, Fault>
    requires fine { has_failed store.old ≡ false }
    requires few { number ≤ most_batches }
    ensures rows { IfOk result (λ rows. D.keeps_word (device_of store.new)
        → HoldsBatch (content_of D.Sectors store.old) (segment_id number) number rows) }
    ensures refused { IsErrOf result BadLayout → D.keeps_word (device_of store.new)
        → HoldsNoneOf (bytes_of (content_of D.Sectors store.old) (segment_id number)) number count }
    ensures reads { ReadsOnly D.Sectors store.old store.new result }
    ensures causes { IfErr result EndsReading }
{
    let segment = read_segment(alloc, store, number, count)?;
    rows_in(alloc, &segment)
}

// The batch of a number. There are to be so many rows.
fn read_segment<D: Sectors>(
    alloc: Global,
    store: &mut Store<D>,
    number: u32,
    count: u32,
) -> Result<Segment, Fault>
    requires fine { has_failed store.old ≡ false }
    requires few { number ≤ most_batches }
    ensures rows { IfOk result (λ segment. D.keeps_word (device_of store.new)
        → HoldsBatch (content_of D.Sectors store.old) (segment_id number) number segment.rows) }
    ensures refused { IsErrOf result BadLayout → D.keeps_word (device_of store.new)
        → HoldsNoneOf (bytes_of (content_of D.Sectors store.old) (segment_id number)) number count }
    ensures reads { ReadsOnly D.Sectors store.old store.new result }
    ensures causes { IfErr result EndsReading }
{
    let bytes = read_object(alloc, store, segment_id(number))?;
    decoded_batch(alloc, bytes, number, count)
}

// All rows of a segment.
fn rows_in(alloc: Global, segment: &Segment) -> Result<Items<LineOrder>, Fault>
    ensures rows { IfOk result (λ rows. rows ≡ segment.now.rows) }
    ensures memory { IsOkUnless result Memory }
{
    let count = segment.len();
    let mut rows = Vec::with_capacity(alloc, count)?;
    segment.push_rows(alloc, 0, count, &mut rows)?;
    Ok(Items::from_vec(rows))
}
