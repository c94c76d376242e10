//! The rows of a segment as the next batch.
ghost use Rattle.std.specs.Prelude.{◌≡◌, ◌+◌, None, is_some, [], ◌∷◌, ◌++◌, List, length, IfOk, IsTrue, IsOkUnless};
ghost use Rattle.cube_model.specs.declared.fault.Fault.TheVariants.{Memory};
ghost use Rattle.cube_model.specs.declared.rows.LineOrder.{LineOrder};
ghost use Rattle.batch_admission.specs.Accepted.{HasAccepted};
ghost use Rattle.warehouse_objects.specs.Warehouse.{IsNext};
ghost use Rattle.warehouse_check.specs.Checked.{IsTakenIn};

use crate::finding::Finding;
use batch_admission::Admission;
use column_segment::Segment;
use cube_model::Fault;
use dimensions::Dims;
use std::alloc::Global;

/// Takes the rows of a segment in as the next batch, of which the root says how many there are, or finds what is wrong
/// with them.
pub(crate) fn take_in(
    alloc: Global,
    dims: &Dims,
    admission: &mut Admission,
    segment: &Segment,
    said: u32,
) -> Result<Option<Finding>, Fault>
    ensures sound { IfOk result (λ found. found ≡ None → (batches : List (List LineOrder))
        → HasAccepted admission.old batches
        → IsTakenIn dims.now batches segment.now.number segment.now.rows said admission.new) }
    ensures found { IfOk result (λ found. IsTrue (is_some found) → (batches : List (List LineOrder))
        → HasAccepted admission.old batches
        → segment.now.number ≡ length batches + 1 → length segment.now.rows ≡ said
        → IsNext dims.now batches segment.now.rows → ⊥) }
    ensures memory { IsOkUnless result Memory }
{
    let batch = admission.next_number();
    let number = segment.number();
    if number != batch {
        return Ok(Some(Finding::Number { batch, number }));
    }
    let rows = segment.len();
    if rows != said as usize {
        let rows = rows as u32;
        return Ok(Some(Finding::Rows { batch, rows, said }));
    }
    admit(alloc, dims, admission, segment, batch)
}

// Takes the rows of a segment in as the batch of its number, or finds why not.
fn admit(
    alloc: Global,
    dims: &Dims,
    admission: &mut Admission,
    segment: &Segment,
    batch: u32,
) -> Result<Option<Finding>, Fault>
    ensures sound { IfOk result (λ found. found ≡ None → (batches : List (List LineOrder))
        → HasAccepted admission.old batches → batch ≡ length batches + 1
        → IsNext dims.now batches segment.now.rows) }
    ensures taken { IfOk result (λ found. found ≡ None → (batches : List (List LineOrder))
        → HasAccepted admission.old batches → batch ≡ length batches + 1
        → HasAccepted admission.new (batches ++ segment.now.rows ∷ [])) }
    ensures found { IfOk result (λ found. IsTrue (is_some found) → (batches : List (List LineOrder))
        → HasAccepted admission.old batches → batch ≡ length batches + 1
        → IsNext dims.now batches segment.now.rows → ⊥) }
    ensures memory { IsOkUnless result Memory }
{
    let count = segment.len();
    let mut rows = Vec::with_capacity(alloc, count)?;
    segment.push_rows(alloc, 0, count, &mut rows)?;
    match admission.admit(dims, batch, &rows) {
        Ok(()) => Ok(None),
        Err(fault) => Ok(Some(Finding::Batch { batch, fault })),
    }
}
