//! Batches of a store that are counted into the folds by ship mode, one after another.
ghost use Rattle.std.specs.Prelude.{◌≡◌, ◌<◌, ◌≤◌, ◌+◌, List, false, Some, length, slice_get, take};
ghost use Rattle.std.specs.Prelude.{IfErr, IfSome, IsErrOf, OnOk};
ghost use Rattle.cube_model.specs.declared.fault.Fault.TheVariants.{BadLayout};
ghost use Rattle.cube_model.specs.declared.rows.LineOrder.{LineOrder};
ghost use Rattle.cube_model.specs.Admission.{all_rows};
ghost use Rattle.cube_model.specs.Limits.{most_batches};
ghost use Rattle.mode_folds.specs.States.{CanTakeByModes, IsOverByModes, RepresentsModeRows};
ghost use Rattle.object_store.specs.Store.{content_of, device_of, has_failed};
ghost use Rattle.warehouse_objects.specs.Reads.{EndsReading, ForHeld, ForHeldOfRoot, ReadsOnly};
ghost use Rattle.planned_queries.specs.ModesCounted.{CountsBatchByModes, ServesWithModes};

use crate::mode_counting::count_batch;
use cube_model::{Fault, Query};
use dimensions::Dims;
use lattice::View;
use mode_folds::ModeFold;
use object_store::Store;
use sector_device::Sectors;
use std::alloc::Global;
use warehouse_objects::{decoded_batch, read_object};
use warehouse_root::{Root, segment_id};

/// Counts the batches after the first `from`, up to `as_of`, into a fold of a query: each through its cells of the
/// coarsest view that serves the query, or row by row where no view does. One batch is in memory at a time.
///
/// `BadLayout` where a batch has another number than its place, or another count of rows than the root says, and where
/// the fold cannot take its rows. After a refusal the fold is to be dropped.
pub(crate) fn add_batches<D: Sectors>(
    alloc: Global,
    store: &mut Store<D>,
    root: &Root,
    dims: &Dims,
    fold: &mut ModeFold<'_>,
    query: &Query,
    from: u32,
    as_of: u32,
) -> Result<(), Fault>
    requires fine { has_failed store.old ≡ false }
    requires over { IsOverByModes dims.now fold.old }
    requires query { query.now ≡ fold.old.asked.query }
    requires order { from ≤ as_of }
    requires few { as_of ≤ length root.now.batches }

    // A fold that represents the rows of the batches up to the first of them then represents those up to the last.
    ensures ok { OnOk result
        (ForHeld D.Sectors store.old store.new
        (λ w. RepresentsModeRows dims.now fold.old (all_rows (take from w.batches))
        → RepresentsModeRows dims.now fold.new (all_rows (take as_of w.batches)))) }
    ensures over { IsOverByModes dims.now fold.new }
    ensures query { OnOk result (fold.new.asked ≡ fold.old.asked) }
    ensures refused { IsErrOf result BadLayout
        → ForHeldOfRoot D.Sectors store.old store.new root.now
        (λ w. dims.now ≡ w.rows → RepresentsModeRows dims.now fold.old (all_rows (take from w.batches)) → ⊥) }

    // The content stays, at each moment.
    ensures reads { ReadsOnly D.Sectors store.old store.new result }
    ensures causes { IfErr result EndsReading }
{
    let batches = root.batches();
    let view = moded_view(query);
    for before in from..as_of {
        let rows = batches[before as usize];
        add_batch(alloc, store, dims, fold, view, before, rows)?;
    }
    Ok(())
}

// The coarsest view that serves a query and groups by ship mode, if any view serves it.
fn moded_view(query: &Query) -> Option<View>
    ensures { IfSome result (ServesWithModes query.now) }
{
    let view = View::needed_by(query)?;
    Some(View {
        ship_mode: true,
        ..view
    })
}

// Reads the batch after so many others, and counts it into a fold, through its cells of a view if there is one. There
// are to be so many rows.
fn add_batch<D: Sectors>(
    alloc: Global,
    store: &mut Store<D>,
    dims: &Dims,
    fold: &mut ModeFold<'_>,
    view: Option<View>,
    before: u32,
    rows: u32,
) -> Result<(), Fault>
    requires fine { has_failed store.old ≡ false }
    requires over { IsOverByModes dims.now fold.old }
    requires serves { IfSome view (ServesWithModes fold.old.asked.query) }
    requires few { before < most_batches }
    ensures ok { OnOk result (CountsBatchByModes dims.now fold.old fold.new before (D.keeps_word (device_of store.new))
        (content_of D.Sectors store.old)) }
    ensures over { IsOverByModes dims.now fold.new }
    ensures query { OnOk result (fold.new.asked ≡ fold.old.asked) }
    ensures refused { IsErrOf result BadLayout
        → ForHeld D.Sectors store.old store.new (λ w. (batch : List LineOrder) → slice_get w.batches before ≡ Some batch
        → rows ≡ length batch → CanTakeByModes dims.now fold.old batch → ⊥) }
    ensures reads { ReadsOnly D.Sectors store.old store.new result }
    ensures causes { IfErr result EndsReading }
{
    let number = before + 1;
    let bytes = read_object(alloc, store, segment_id(number))?;
    let segment = decoded_batch(alloc, bytes, number, rows)?;
    count_batch(alloc, dims, fold, view, &segment)
}
