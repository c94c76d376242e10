//! Reading the runs of a stored cuboid, one after another.
ghost use Rattle.std.specs.Prelude.{◌≡◌, ◌↔◌, Some, false, IfErr, IfNone, IfOk, IfSome, IsErrOf, IsTrue};
ghost use Rattle.cube_model.specs.declared.fault.Fault.TheVariants.{BadLayout};
ghost use Rattle.object_store.specs.Content.{bytes_of};
ghost use Rattle.object_store.specs.Store.{content_of, device_of, has_failed, size_in};
ghost use Rattle.cuboid_cells.specs.Cells.{PlainCells};
ghost use Rattle.cuboid_cells.specs.Pieces.{IsAtFirst, size_of_run};
ghost use Rattle.cuboid_cells.specs.declared.span.Span.{Span};
ghost use Rattle.stored_cuboids.specs.Steps.{GoesOn, ObjectIsRun, IsNextRun, run_head_of};
ghost use Rattle.stored_cuboids.specs.declared.reading.Progress.{Progress};
ghost use Rattle.warehouse_objects.specs.Reads.{EndsReading, ReadsOnly};

use cube_model::Fault;
use cuboid_cells::{Cells, RunHead, RunReader, Span, decode_from};
use lattice::View;
use object_store::Store;
use sector_device::Sectors;
use std::alloc::Global;
use warehouse_root::StoredCuboid;

// How far the runs of a cuboid are read.
#[derive(Clone, Copy)]
pub(crate) struct Progress {
    // The last batch of the runs so far.
    pub(crate) end: u32,
    // How many cells the other runs are to have.
    pub(crate) left: u32,
}

impl Progress {
    // Whether the runs end at the mark of their cuboid, and have as many cells as it is to have.
    pub(crate) fn is_whole(self, cuboid: StoredCuboid) -> bool
        ensures { IsTrue result ↔ (self.end ≡ cuboid.mark) × (self.left ≡ 0) }
    {
        self.end == cuboid.mark && self.left == 0
    }
}

// The cells of the run of a view that an object has, and how far the runs are read with it.
//
// `BadLayout` where there is no run, and where it is none of this view, does not begin where the others end, or has
// more cells than are left.
pub(crate) fn read_next<D: Sectors>(
    alloc: Global,
    store: &mut Store<D>,
    view: View,
    at: Progress,
    id: u32,
) -> Result<(Cells, Progress), Fault>
    requires fine { has_failed store.old ≡ false }
    ensures ok { IfOk result (λ run. D.keeps_word (device_of store.new)
        → IsNextRun (content_of D.Sectors store.old) id view at run.0 run.1) }
    ensures view { IfOk result (λ run. run.0.view ≡ view) }
    ensures refused { IsErrOf result BadLayout → D.keeps_word (device_of store.new)
        → (cells : PlainCells) (next : Progress)
        → IsNextRun (content_of D.Sectors store.old) id view at cells next → ⊥ }
    ensures reads { ReadsOnly D.Sectors store.old store.new result }
    ensures causes { IfErr result EndsReading }
{
    let (span, cells) = read_run(alloc, store, id)?;
    match go_on(view, at, head_of(span, &cells)) {
        Some(next) => Ok((cells, next)),
        None => Err(Fault::BadLayout),
    }
}

// The run of a view that an object has, of which the header is read, and how far the runs are read with it.
//
// `BadLayout` as `read_next`, and that the object is a run is known only where all cells are read.
pub(crate) fn open_next<D: Sectors>(
    alloc: Global,
    store: &mut Store<D>,
    view: View,
    at: Progress,
    id: u32,
) -> Result<(RunReader, Progress), Fault>
    requires fine { has_failed store.old ≡ false }
    ensures id { IfOk result (λ both. both.0.id ≡ id) }
    ensures total { IfOk result (λ both. size_in store.new id ≡ Some (size_of_run both.0)) }
    ensures ok { IfOk result (λ both. D.keeps_word (device_of store.new)
        → IsAtFirst (bytes_of (content_of D.Sectors store.old) id) both.0) }
    ensures goes_on { IfOk result (λ both. GoesOn view at both.0.head both.1) }
    ensures refused { IsErrOf result BadLayout → D.keeps_word (device_of store.new)
        → (cells : PlainCells) (next : Progress)
        → IsNextRun (content_of D.Sectors store.old) id view at cells next → ⊥ }
    ensures reads { ReadsOnly D.Sectors store.old store.new result }
    ensures causes { IfErr result EndsReading }
{
    let reader = open_run(alloc, store, id)?;
    match go_on(view, at, reader.head()) {
        Some(next) => Ok((reader, next)),
        None => Err(Fault::BadLayout),
    }
}

// The run that an object has, of which the header is read.
fn open_run<D: Sectors>(alloc: Global, store: &mut Store<D>, id: u32) -> Result<RunReader, Fault>
    requires fine { has_failed store.old ≡ false }
    ensures id { IfOk result (λ run. run.id ≡ id) }
    ensures total { IfOk result (λ run. size_in store.new id ≡ Some (size_of_run run)) }
    ensures ok { IfOk result (λ run. D.keeps_word (device_of store.new)
        → IsAtFirst (bytes_of (content_of D.Sectors store.old) id) run) }
    ensures refused { IsErrOf result BadLayout → D.keeps_word (device_of store.new) → (span : Span) (cells : PlainCells)
        → ObjectIsRun (content_of D.Sectors store.old) id span cells → ⊥ }
    ensures reads { ReadsOnly D.Sectors store.old store.new result }
    ensures causes { IfErr result EndsReading }
{
    RunReader::open(alloc, store, id)
}

// The run that an object has: its batches, and its cells.
fn read_run<D: Sectors>(
    alloc: Global,
    store: &mut Store<D>,
    id: u32,
) -> Result<(Span, Cells), Fault>
    requires fine { has_failed store.old ≡ false }
    ensures ok { IfOk result (λ run. D.keeps_word (device_of store.new)
        → ObjectIsRun (content_of D.Sectors store.old) id run.0 run.1) }
    ensures refused { IsErrOf result BadLayout → D.keeps_word (device_of store.new) → (span : Span) (cells : PlainCells)
        → ObjectIsRun (content_of D.Sectors store.old) id span cells → ⊥ }
    ensures reads { ReadsOnly D.Sectors store.old store.new result }
    ensures causes { IfErr result EndsReading }
{
    decode_from(alloc, store, id)
}

// How far the runs are read with one more. Nothing where its header says that it is none of this view, does not begin
// where the others end, or has more cells than are left.
fn go_on(view: View, at: Progress, head: RunHead) -> Option<Progress>
    ensures some { IfSome result (GoesOn view at head) }
    ensures none { IfNone result ((next : Progress) → GoesOn view at head next → ⊥) }
{
    let (own, number) = (head.view.index(), view.index());
    if own != number || head.span.from != at.end || head.count > at.left as usize {
        return None;
    }
    Some(Progress {
        end: head.span.to,
        left: at.left - head.count as u32,
    })
}

// The header of the run of cells over some batches.
fn head_of(span: Span, cells: &Cells) -> RunHead
    ensures { result ≡ run_head_of span cells.now }
{
    RunHead {
        view: cells.view(),
        span,
        count: cells.as_slice().len(),
    }
}
