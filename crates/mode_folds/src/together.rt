//! The fold of fact rows together, whatever their ship modes.
ghost use Rattle.std.specs.Prelude.{◌≡◌, ◌++◌, Err, List, IfErr, OnOk};
ghost use Rattle.group_tallies.specs.Limits.{AreFoldable, EndsFolding};
ghost use Rattle.cube_model.specs.declared.rows.LineOrder.{LineOrder};
ghost use Rattle.cube_query.specs.Groups.{IsOver, RepresentsRows};
ghost use Rattle.cuboid_upkeep.specs.Grouping.{RepresentRows};
ghost use Rattle.lattice.specs.Determined.{Serves};
ghost use Rattle.mode_folds.specs.States.{TakesTogether, folds_together, rows_together};
ghost use Rattle.mode_queries.specs.Joining.{passing};
ghost use Rattle.mode_queries.specs.References.{asked_by};

use crate::joining::has_coarser;
use cube_model::{Fault, LineOrder};
use cube_query::Fold;
use cuboid_cells::Cells;
use dictionary::Dictionary;
use dimensions::Dims;
use mode_queries::QueryRef;

/// Counts those of some rows that pass the conditions on ship modes into the fold of the rows together, unless the ship
/// mode is a column that is grouped in each line. A refusal leaves the fold as it was.
pub(crate) fn add_together(
    dims: &Dims,
    asked: &QueryRef<'_>,
    together: &mut Fold,
    rows: &[LineOrder],
) -> Result<(), Fault>
    requires over { IsOver dims.now together.old }
    ensures ok { OnOk result ((all : List LineOrder) → rows.now ≡ passing (asked_by asked.now).conditions all
        → TakesTogether dims.now (asked_by asked.now) together.old all together.new) }
    ensures over { IsOver dims.now together.new }
    ensures query { together.new.query ≡ together.old.query }
    ensures refused { result ≡ Err Fault.BadLayout → (so_far all : List LineOrder)
        → rows.now ≡ passing (asked_by asked.now).conditions all
        → RepresentsRows dims.now together.old (rows_together (asked_by asked.now) so_far)
        → AreFoldable dims.now (so_far ++ all) → ⊥ }
    ensures only { IfErr result EndsFolding }
{
    if folds_together(asked) {
        return together.add_rows(dims, rows);
    }
    Ok(())
}

/// Counts cells in that represent those of some rows that pass the conditions on ship modes, as `add_together` counts
/// rows. The fifth codes of cells are places among the modes. A refusal leaves the fold as it was.
pub(crate) fn add_cells_together(
    dims: &Dims,
    asked: &QueryRef<'_>,
    together: &mut Fold,
    cells: &Cells,
    modes: &Dictionary,
) -> Result<(), Fault>
    requires over { IsOver dims.now together.old }
    requires serves { Serves cells.now.view together.old.query }
    ensures ok { OnOk result ((all : List LineOrder)
        → RepresentRows dims.now modes.now.texts (passing (asked_by asked.now).conditions all) cells.now
        → TakesTogether dims.now (asked_by asked.now) together.old all together.new) }
    ensures over { IsOver dims.now together.new }
    ensures query { together.new.query ≡ together.old.query }
    ensures refused { result ≡ Err Fault.BadLayout → (so_far all : List LineOrder)
        → RepresentRows dims.now modes.now.texts (passing (asked_by asked.now).conditions all) cells.now
        → RepresentsRows dims.now together.old (rows_together (asked_by asked.now) so_far)
        → AreFoldable dims.now (so_far ++ all) → ⊥ }
    ensures only { IfErr result EndsFolding }
{
    if folds_together(asked) {
        return together.add_cells(dims, cells, Some(modes));
    }
    Ok(())
}

// Whether rows are folded together, unless the ship mode is a column that is grouped in each line.
fn folds_together(asked: &QueryRef<'_>) -> bool
    ensures { result ≡ folds_together (asked_by asked.now) }
{
    asked.place().is_none() || has_coarser(asked.query().kind)
}
