//! The batches of a store, checked one after another.
ghost use Rattle.std.specs.Prelude.{◌≡◌, ◌⊎◌, ◌<◌, ℕ, None, Some, is_some, false, List, length, slice_get, take, IfErr};
ghost use Rattle.std.specs.Prelude.{IfOk, IfSome, IsTrue, IsOkUnless};
ghost use Rattle.cube_model.specs.declared.fault.Fault.TheVariants.{Device, Memory};
ghost use Rattle.cube_model.specs.declared.rows.LineOrder.{LineOrder};
ghost use Rattle.cube_model.specs.Limits.{most_batches};
ghost use Rattle.object_store.specs.Store.{content_of, device_of, has_failed};
ghost use Rattle.column_segment.specs.Segment.{IsSegment};
ghost use Rattle.batch_admission.specs.Accepted.{HasAccepted};
ghost use Rattle.warehouse_objects.specs.Warehouse.{Warehouse};
ghost use Rattle.warehouse_objects.specs.Reads.{ReadsOnly};
ghost use Rattle.warehouse_objects.specs.Represents.{IsLaidOut, root_of};
ghost use Rattle.warehouse_check.specs.Checked.{HasBatches, IsCheckedBatch, IsSegmentAt};

use crate::finding::Finding;
use crate::rows::take_in;
use batch_admission::Admission;
use column_segment::{Segment, decode};
use cube_model::{Fault, Totals};
use dimensions::Dims;
use object_store::Store;
use sector_device::Sectors;
use std::alloc::Global;
use warehouse_root::{Root, segment_id};

/// What is wrong with the batches of a store, or with what its root says of them, if anything is. Each segment is read
/// whole and decoded, and its rows are checked as those of a submit are. One batch is in memory at a time.
///
/// It can fail when out of memory, or because the device does.
pub(crate) fn check_batches<D: Sectors>(
    alloc: Global,
    store: &mut Store<D>,
    root: &Root,
    dims: &Dims,
) -> Result<Option<Finding>, Fault>
    requires fine { has_failed store.old ≡ false }
    ensures sound { IfOk result (λ found. found ≡ None → D.keeps_word (device_of store.new)
        → HasBatches (content_of D.Sectors store.old) dims.now root.now) }
    ensures found { IfOk result (λ found. IsTrue (is_some found) → D.keeps_word (device_of store.new) → (w : Warehouse)
        → IsLaidOut (content_of D.Sectors store.old) w
        → root.now ≡ root_of w → dims.now ≡ w.rows → ⊥) }
    ensures reads { ReadsOnly D.Sectors store.old store.new result }
    ensures causes { IfErr result (λ fault. (fault ≡ Memory) ⊎ (fault ≡ Device)) }
{
    let mut admission = Admission::new();
    for said in root.batches() {
        let found = check_batch(alloc, store, dims, &mut admission, *said)?;
        if found.is_some() {
            return Ok(found);
        }
    }
    Ok(check_totals(root.totals(), admission.totals()))
}

// What is wrong with the next batch of a store, of which the root says how many rows it has, if anything is.
fn check_batch<D: Sectors>(
    alloc: Global,
    store: &mut Store<D>,
    dims: &Dims,
    admission: &mut Admission,
    said: u32,
) -> Result<Option<Finding>, Fault>
    requires fine { has_failed store.old ≡ false }
    requires few { admission.old.count < most_batches }
    ensures sound { IfOk result (λ found. found ≡ None → (batches : List (List LineOrder))
        → HasAccepted admission.old batches
        → IsCheckedBatch (D.keeps_word (device_of store.new)) (content_of D.Sectors store.old) dims.now batches said
        admission.new) }
    ensures found { IfOk result (λ found. IsTrue (is_some found) → D.keeps_word (device_of store.new)
        → (w : Warehouse) (before : ℕ) (batch : List LineOrder)
        → IsLaidOut (content_of D.Sectors store.old) w → dims.now ≡ w.rows → slice_get w.batches before ≡ Some batch
        → said ≡ length batch
        → HasAccepted admission.old (take before w.batches) → ⊥) }
    ensures reads { ReadsOnly D.Sectors store.old store.new result }
    ensures causes { IfErr result (λ fault. (fault ≡ Memory) ⊎ (fault ≡ Device)) }
{
    let batch = admission.next_number();
    match read_segment(alloc, store, segment_id(batch))? {
        Some(segment) => take_in(alloc, dims, admission, &segment, said),
        None => Ok(Some(Finding::Segment { batch })),
    }
}

// The segment that an object is, if it is one.
fn read_segment<D: Sectors>(
    alloc: Global,
    store: &mut Store<D>,
    id: u32,
) -> Result<Option<Segment>, Fault>
    requires fine { has_failed store.old ≡ false }
    ensures some { IfOk result (λ found. IfSome found (λ segment. D.keeps_word (device_of store.new)
        → IsSegmentAt (content_of D.Sectors store.old) id segment.number segment.rows)) }
    ensures none { IfOk result (λ found. found ≡ None → D.keeps_word (device_of store.new)
        → (number : ℕ) (rows : List LineOrder)
        → IsSegmentAt (content_of D.Sectors store.old) id number rows → ⊥) }
    ensures reads { ReadsOnly D.Sectors store.old store.new result }
    ensures causes { IfErr result (λ fault. (fault ≡ Memory) ⊎ (fault ≡ Device)) }
{
    match store.get(alloc, id)? {
        Some(bytes) => segment_in(alloc, bytes),
        None => Ok(None),
    }
}

// The segment that bytes are, if they are one.
fn segment_in(alloc: Global, bytes: Vec<u8>) -> Result<Option<Segment>, Fault>
    ensures some { IfOk result (λ found. IfSome found (λ segment. IsSegment bytes.items segment.number segment.rows)) }
    ensures none { IfOk result (λ found. found ≡ None → (number : ℕ) (rows : List LineOrder)
        → IsSegment bytes.items number rows → ⊥) }
    ensures memory { IsOkUnless result Memory }
{
    match decode(alloc, bytes) {
        Ok(segment) => Ok(Some(segment)),
        Err(Fault::BadLayout) => Ok(None),
        Err(_) => Err(Fault::Memory),
    }
}

// Whether the totals that a root says are those of the rows.
fn check_totals(said: Totals, counted: Totals) -> Option<Finding>
    ensures sound { result ≡ None → said ≡ counted }
    ensures found { IsTrue (is_some result) → said ≡ counted → ⊥ }
{
    if said == counted {
        None
    } else {
        Some(Finding::Totals)
    }
}
