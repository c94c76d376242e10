//! The cells of a view by their ship modes.
ghost use Rattle.std.specs.Prelude.{◌≡◌, ℕ, true, false, List, [], ◌∷◌, ◌++◌, map, IfOk, OnOk, slice_index_or};
ghost use Rattle.std.specs.List.{filter};
ghost use Rattle.cube_model.specs.declared.rows.DimRows.{DimRows};
ghost use Rattle.cube_model.specs.declared.rows.LineOrder.{LineOrder};
ghost use Rattle.cuboid_cells.specs.declared.cell.Cell.{Cell};
ghost use Rattle.cuboid_upkeep.specs.Grouping.{RepresentRows};
ghost use Rattle.mode_folds.specs.Celling.{AreCellParts, passes_at};
ghost use Rattle.mode_queries.specs.Joining.{passing};
ghost use Rattle.mode_queries.specs.Selection.{passes_modes};

use crate::dividing::empty_parts;
use cuboid_cells::{Cell, Cells};
use dictionary::Dictionary;
use mode_queries::{ModeCond, passes};
use std::alloc::{AllocError, Global};

/// The cells of a view whose ship modes pass conditions, in their order: where the view groups by ship mode, they
/// represent the rows that pass. The fifth codes of cells are places among the modes; a cell of no such place is left
/// out. It can only fail when out of memory.
pub(crate) fn passing_cells(
    alloc: Global,
    conditions: &[ModeCond],
    cells: &Cells,
    modes: &Dictionary,
) -> Result<Cells, AllocError>
    ensures view { IfOk result (λ own. own.view ≡ cells.now.view) }
    ensures represent { IfOk result (λ own. (dimensions : DimRows) (rows : List LineOrder)
        → cells.now.view.ship_mode ≡ true → RepresentRows dimensions modes.now.texts rows cells.now
        → RepresentRows dimensions modes.now.texts (passing conditions.now rows) own) }
{
    let choice = choice_of_modes(alloc, conditions, modes)?;
    let own = chosen_cells(alloc, choice.as_slice(), cells.as_slice())?;
    Ok(Cells::of(cells.view(), own))
}

// Whether each ship mode passes, by the codes of the ship modes.
fn choice_of_modes(
    alloc: Global,
    conditions: &[ModeCond],
    modes: &Dictionary,
) -> Result<Vec<bool>, AllocError>
    ensures { IfOk result (λ choice. choice.items ≡ map (passes_modes conditions.now) modes.now.texts) }
{
    let mut choice = Vec::with_capacity(alloc, modes.len())?;
    for code in 0..modes.len() {
        choice.push(passes_at(conditions, modes, code as u32))?;
    }
    Ok(choice)
}

fn passes_at(conditions: &[ModeCond], modes: &Dictionary, code: u32) -> bool
    ensures { result ≡ passes_at conditions.now modes.now.texts code }
{
    match modes.text(code) {
        None => false,
        Some(mode) => passes(conditions, mode),
    }
}

// The cells whose fifth codes are chosen.
fn chosen_cells(alloc: Global, choice: &[bool], cells: &[Cell]) -> Result<Vec<Cell>, AllocError>
    ensures { IfOk result (λ chosen. chosen.items
        ≡ filter (λ cell. slice_index_or choice.now cell.key.ship_mode false) cells.now) }
{
    let mut chosen = Vec::new(alloc);
    for cell in cells {
        if is_chosen(choice, cell.key.ship_mode) {
            chosen.push(*cell)?;
        }
    }
    Ok(chosen)
}

fn is_chosen(choice: &[bool], code: u16) -> bool
    ensures { result ≡ slice_index_or choice.now code false }
{
    match choice.get(code as usize) {
        None => false,
        Some(is_chosen) => *is_chosen,
    }
}

/// The cells of each of so many ship modes, in their order, by the codes of the ship modes. It can only fail when out
/// of memory.
pub(crate) fn divided_cells(
    alloc: Global,
    cells: &[Cell],
    count: usize,
) -> Result<Vec<Vec<Cell>>, AllocError>
    ensures { IfOk result (λ parts. AreCellParts count cells.now parts.items) }
{
    let mut parts = empty_parts(alloc, count)?;
    for cell in cells {
        put_cell(&mut parts, *cell)?;
    }
    Ok(parts)
}

// Puts a cell after those of its ship mode, which were divided before. A cell of none of the ship modes is left out.
fn put_cell(parts: &mut Vec<Vec<Cell>>, cell: Cell) -> Result<(), AllocError>
    ensures { OnOk result ((cells : List Cell) (count : ℕ) → AreCellParts count cells parts.old.items
        → AreCellParts count (cells ++ cell ∷ []) parts.new.items) }
{
    let code = cell.key.ship_mode as usize;
    if code < parts.len() {
        parts[code].push(cell)?;
    }
    Ok(())
}
