//! Making what a commit puts to bring a stored cuboid on.
ghost use Rattle.std.specs.Prelude.{◌≡◌, ◌<◌, ◌≤◌, ◌+◌, ◌-◌, ◌↔◌, length, take, IfOk, IsTrue, IsOkUnless};
ghost use Rattle.std.specs.List.{range_with_len};
ghost use Rattle.cube_model.specs.declared.fault.Fault.TheVariants.{Memory};
ghost use Rattle.cube_model.specs.Admission.{all_rows};
ghost use Rattle.lattice.specs.Views.{index_of};
ghost use Rattle.cuboid_cells.specs.Limits.{most_cells};
ghost use Rattle.cuboid_upkeep.specs.Grouping.{RepresentRows};
ghost use Rattle.warehouse_root.specs.Limits.{most_runs};
ghost use Rattle.warehouse_root.specs.Objects.{run_id};
ghost use Rattle.warehouse_root.specs.Root.{IsProperCuboid};
ghost use Rattle.warehouse_objects.specs.Represents.{rows_in};
ghost use Rattle.warehouse_objects.specs.Warehouse.{ship_modes_of};
ghost use Rattle.stored_cuboids.specs.Nexts.{IsMade, IsNextStep};

use crate::keeping::Next;
use cube_model::Fault;
use cuboid_cells::{Cells, Span};
use std::alloc::Global;
use warehouse_root::limits::{MOST_CELLS, MOST_RUNS};
use warehouse_root::{Root, StoredCuboid, run_id};

// Whether a cuboid has room for a further run of so many cells.
pub(crate) fn has_room(cuboid: StoredCuboid, cells: usize) -> bool
    requires { cells ≤ most_cells }
    ensures { IsTrue result ↔ ((cuboid.runs < most_runs) × (cuboid.cells + cells ≤ most_cells)) }
{
    cuboid.runs < MOST_RUNS && cuboid.cells as usize + cells <= MOST_CELLS as usize
}

// The next run of a cuboid, put after the others. It has the cells of the batches of a span, from the cuboid's mark on.
pub(crate) fn appended(
    alloc: Global,
    root: &Root,
    cuboid: StoredCuboid,
    tail: &Cells,
    span: Span,
) -> Result<Next, Fault>
    requires proper { IsProperCuboid root.now.layout (length root.now.batches) cuboid }
    requires view { index_of tail.now.view ≡ cuboid.view }
    requires from { span.from ≡ cuboid.mark }
    requires some { span.from < span.to }
    requires to { span.to ≤ length root.now.batches }
    requires runs { cuboid.runs < most_runs }
    requires cells { cuboid.cells + length tail.now.cells ≤ most_cells }
    ensures ok { IfOk result
        (IsNextStep (λ w. RepresentRows w.rows (ship_modes_of w) (rows_in w.batches span) tail.now) root.now cuboid
        span.to) }
    ensures memory { IsOkUnless result Memory }
{
    let after = StoredCuboid {
        view: cuboid.view,
        runs: cuboid.runs + 1,
        mark: span.to,
        cells: cuboid.cells + tail.as_slice().len() as u32,
    };
    let id = run_id(cuboid.view, cuboid.runs);
    made(alloc, root, after, id, tail, span, Vec::new(alloc))
}

// One run in the place of all runs of a cuboid. It has the cells of the first batches, so many.
pub(crate) fn replaced(
    alloc: Global,
    root: &Root,
    cuboid: StoredCuboid,
    cells: &Cells,
    mark: u32,
) -> Result<Next, Fault>
    requires proper { IsProperCuboid root.now.layout (length root.now.batches) cuboid }
    requires view { index_of cells.now.view ≡ cuboid.view }
    requires above { cuboid.mark < mark }
    requires to { mark ≤ length root.now.batches }
    ensures ok { IfOk result
        (IsNextStep (λ w. RepresentRows w.rows (ship_modes_of w) (all_rows (take mark w.batches)) cells.now) root.now
        cuboid
        mark) }
    ensures memory { IsOkUnless result Memory }
{
    let after = StoredCuboid {
        view: cuboid.view,
        runs: 1,
        mark,
        cells: cells.as_slice().len() as u32,
    };
    let drops = later_runs(alloc, cuboid)?;
    let span = Span { from: 0, to: mark };
    made(
        alloc,
        root,
        after,
        run_id(cuboid.view, 0),
        cells,
        span,
        drops,
    )
}

// The ids of the runs of a cuboid after the first.
fn later_runs(alloc: Global, cuboid: StoredCuboid) -> Result<Vec<u32>, Fault>
    ensures ok { IfOk result (λ ids. ids.items ≡ range_with_len (run_id cuboid.view 1) (cuboid.runs - 1)) }
    ensures memory { IsOkUnless result Memory }
{
    let mut ids = Vec::new(alloc);
    for run in 1..cuboid.runs {
        ids.push(run_id(cuboid.view, run))?;
    }
    Ok(ids)
}

// What a commit puts: the bytes of a run, and the root with a cuboid, and its bytes.
fn made(
    alloc: Global,
    root: &Root,
    after: StoredCuboid,
    id: u32,
    cells: &Cells,
    span: Span,
    drops: Vec<u32>,
) -> Result<Next, Fault>
    requires proper { IsProperCuboid root.now.layout (length root.now.batches) after }
    requires some { span.from < span.to }
    ensures ok { IfOk result (IsMade root.now after id span cells.now drops.items) }
    ensures memory { IsOkUnless result Memory }
{
    let bytes = cells.encode(alloc, span)?;
    let root = root.with_cuboid(alloc, after)?;
    let root_bytes = root.encode(alloc)?;
    Ok(Next {
        id,
        bytes,
        drops,
        root,
        root_bytes,
    })
}
