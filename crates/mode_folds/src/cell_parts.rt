//! The cells of a view in the folds of ship modes.
ghost use Rattle.std.specs.Prelude.{◌≡◌, ◌++◌, true, Err, List, IfErr, OnOk};
ghost use Rattle.std.specs.List.{AllByRecursion};
ghost use Rattle.group_tallies.specs.Limits.{AreFoldable, EndsFolding};
ghost use Rattle.cube_model.specs.declared.rows.LineOrder.{LineOrder};
ghost use Rattle.cube_query.specs.Groups.{IsOver};
ghost use Rattle.cuboid_upkeep.specs.Grouping.{RepresentRows};
ghost use Rattle.lattice.specs.Determined.{Serves};
ghost use Rattle.mode_folds.specs.Parts.{AreOfMode, HaveQuery, RepresentByMode, TakeByMode};
ghost use Rattle.mode_queries.specs.Joining.{of_mode};

use crate::celling::divided_cells;
use crate::parts::grow;
use cube_model::{Fault, ProperQuery};
use cube_query::Fold;
use cuboid_cells::Cells;
use dictionary::Dictionary;
use dimensions::Dims;
use std::alloc::Global;

/// Counts the cells of a view into the folds of a query for their ship modes, in place of the rows that they represent.
/// Ship modes that are new get folds that begin. After a refusal some of the cells may have been counted.
///
/// The view groups by ship mode; the fifth codes of cells are places among the modes.
pub(crate) fn add_cells_by_mode(
    alloc: Global,
    dims: &Dims,
    query: &ProperQuery<'_>,
    own: &mut Dictionary,
    folds: &mut Vec<Fold>,
    cells: &Cells,
    modes: &Dictionary,
) -> Result<(), Fault>
    requires over { AllByRecursion (IsOver dims.now) folds.old.items }
    requires queries { HaveQuery query.now folds.old.items }
    requires serves { Serves cells.now.view query.now }
    requires grouped { cells.now.view.ship_mode ≡ true }
    ensures ok { OnOk result ((rows : List LineOrder) → RepresentRows dims.now modes.now.texts rows cells.now
        → TakeByMode dims.now query.now own.old.texts folds.old.items rows own.new.texts folds.new.items) }
    ensures over { AllByRecursion (IsOver dims.now) folds.new.items }
    ensures queries { HaveQuery query.now folds.new.items }
    ensures refused { result ≡ Err Fault.BadLayout → (rows so_far : List LineOrder)
        → RepresentRows dims.now modes.now.texts rows cells.now
        → RepresentByMode dims.now query.now so_far own.old.texts folds.old.items
        → AreFoldable dims.now (so_far ++ rows) → ⊥ }
    ensures only { IfErr result EndsFolding }
{
    let view = cells.view();
    let mut code = 0;
    for part in divided_cells(alloc, cells.as_slice(), modes.len())? {
        let Some(mode) = modes.text(code) else {
            return Err(Fault::BadLayout);
        };
        let part = Cells::of(view, part);
        add_cells_of_mode(alloc, dims, query, own, folds, mode, &part, modes)?;
        code += 1;
    }
    Ok(())
}

// Counts cells of one ship mode into its fold, which begins where the ship mode is new. Where there is no cell, there
// need not be such a fold.
fn add_cells_of_mode(
    alloc: Global,
    dims: &Dims,
    query: &ProperQuery<'_>,
    own: &mut Dictionary,
    folds: &mut Vec<Fold>,
    mode: &[u8],
    cells: &Cells,
    modes: &Dictionary,
) -> Result<(), Fault>
    requires over { AllByRecursion (IsOver dims.now) folds.old.items }
    requires queries { HaveQuery query.now folds.old.items }
    requires serves { Serves cells.now.view query.now }
    ensures ok { OnOk result ((rows : List LineOrder) → RepresentRows dims.now modes.now.texts rows cells.now
        → AreOfMode mode.now rows
        → TakeByMode dims.now query.now own.old.texts folds.old.items rows own.new.texts folds.new.items) }
    ensures over { AllByRecursion (IsOver dims.now) folds.new.items }
    ensures queries { HaveQuery query.now folds.new.items }
    ensures refused { result ≡ Err Fault.BadLayout → (rows so_far : List LineOrder)
        → RepresentRows dims.now modes.now.texts rows cells.now → AreOfMode mode.now rows
        → RepresentByMode dims.now query.now so_far own.old.texts folds.old.items
        → AreFoldable dims.now (of_mode mode.now so_far ++ rows) → ⊥ }
    ensures only { IfErr result EndsFolding }
{
    if cells.as_slice().is_empty() {
        return Ok(());
    }
    let Some(place) = own.add(alloc, mode)? else {
        return Err(Fault::Memory); // more ship modes than numbers of 32 bits
    };
    grow(alloc, dims, query, folds, own.len())?;
    folds[place as usize].add_cells(dims, cells, Some(modes))
}
