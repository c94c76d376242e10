//! Counting a batch into the folds by ship mode, through its cells where a view serves the query.
ghost use Rattle.std.specs.Prelude.{◌≡◌, Err, IfErr, IfOk, IfSome, OnOk, IsOkUnless};
ghost use Rattle.group_tallies.specs.Limits.{EndsFolding};
ghost use Rattle.mode_folds.specs.States.{CanTakeByModes, IsOverByModes, TakesByModes};
ghost use Rattle.planned_queries.specs.ModesCounted.{AreCellsOf, ServesWithModes};

use column_segment::{Segment, TextColumn};
use cube_model::{Fault, LineOrder};
use cube_query::RowsWithModes;
use cuboid_cells::Cells;
use cuboid_upkeep::GrowingCells;
use dictionary::Dictionary;
use dimensions::Dims;
use lattice::View;
use mode_folds::ModeFold;
use std::alloc::Global;

/// Counts the rows of a batch into a fold: through the cells of a view that serves its query, over the ship modes of
/// the batch, and row by row where there is no such view or where the rows have no such cells.
pub(crate) fn count_batch(
    alloc: Global,
    dims: &Dims,
    fold: &mut ModeFold<'_>,
    view: Option<View>,
    segment: &Segment,
) -> Result<(), Fault>
    requires over { IsOverByModes dims.now fold.old }
    requires serves { IfSome view (ServesWithModes fold.old.asked.query) }
    ensures over { IsOverByModes dims.now fold.new }
    ensures ok { OnOk result (TakesByModes dims.now fold.old segment.now.rows fold.new) }
    ensures refused { result ≡ Err Fault.BadLayout → CanTakeByModes dims.now fold.old segment.now.rows → ⊥ }
    ensures only { IfErr result EndsFolding }
{
    let (modes, _) = segment.coded(TextColumn::ShipMode);
    if let Some(view) = view {
        if let Some(cells) = cells_of(alloc, dims, view, segment, modes)? {
            return fold.add_cells(dims, &cells, modes);
        }
    }
    let rows = rows_of(alloc, segment)?;
    fold.add_rows(dims, rows)?;
    Ok(())
}

// The cells of a view for the rows of a batch, over some ship modes, or nothing where the rows have no such cells. It
// can only fail when out of memory.
fn cells_of(
    alloc: Global,
    dims: &Dims,
    view: View,
    segment: &Segment,
    modes: &Dictionary,
) -> Result<Option<Cells>, Fault>
    ensures cells { IfOk result
        (λ found. IfSome found (AreCellsOf dims.now modes.now.texts view segment.now.rows)) }
    ensures memory { IsOkUnless result Fault.Memory }
{
    let rows = RowsWithModes::of(segment);
    let mut cells = GrowingCells::new(alloc, dims, view)?;
    match cells.add_rows(alloc, dims, &rows, Some(modes)) {
        Ok(()) => Ok(Some(cells.finish(alloc)?)),
        Err(Fault::Memory) => Err(Fault::Memory),
        Err(_) => Ok(None),
    }
}

// All rows of a batch. It can only fail when out of memory.
fn rows_of(alloc: Global, segment: &Segment) -> Result<Vec<LineOrder>, Fault>
    ensures rows { IfOk result (λ rows. rows.items ≡ segment.now.rows) }
    ensures memory { IsOkUnless result Fault.Memory }
{
    let count = segment.len();
    let mut rows = Vec::with_capacity(alloc, count)?;
    segment.push_rows(alloc, 0, count, &mut rows)?;
    Ok(rows)
}
