//! Merging the cells of fact rows into those of the rows before.
ghost use Rattle.std.specs.Prelude.{◌≡◌, ◌⊎◌, ◌≤◌, ◌++◌, List, length, IfErr, IfOk, OnOk};
ghost use Rattle.std.specs.Option.{option_map};
ghost use Rattle.std.specs.List.Sorted.{IsNonDecreasingBy, IsPermutation};
ghost use Rattle.cube_model.specs.declared.fault.Fault.{Fault};
ghost use Rattle.cube_model.specs.declared.rows.LineOrder.{LineOrder};
ghost use Rattle.cube_model.specs.Limits.{most_batch_rows};
ghost use Rattle.cuboid_cells.specs.Cells.{key_as_number};
ghost use Rattle.cuboid_upkeep.specs.Codes.{modes_of};
ghost use Rattle.cuboid_upkeep.specs.Grouping.{RepresentRows};
ghost use Rattle.cuboid_upkeep.specs.Members.{AreMembersOf};
ghost use Rattle.cuboid_upkeep.specs.Steps.{AreUnfit, IsAddFault};

use crate::grouping::group_rows;
use crate::keys::keys_of_rows;
use crate::member_codes::ViewMembers;
use crate::mode_codes::own_codes;
use cube_model::Fault;
use cuboid_cells::{Cell, Cells};
use dictionary::Dictionary;
use dimensions::Dims;
use group_numbers::ModeRows;
use lattice::View;
use std::alloc::{AllocError, Global};

// Merges the cells of fact rows into those of the rows before, by the codes of the members of the view.
pub(crate) fn merge_rows<F: ModeRows>(
    cells: &mut Cells,
    alloc: Global,
    dims: &Dims,
    members: &ViewMembers,
    rows: &F,
    modes: Option<&Dictionary>,
) -> Result<(), Fault>
    requires members { AreMembersOf dims.now cells.old.view members.now }
    requires batch { length (F.rows rows.now) ≤ most_batch_rows }
    ensures ok { OnOk result ((so_far : List LineOrder)
        → RepresentRows dims.now (modes_of (option_map (λ modes. modes.now) modes.entry)) so_far cells.old
        → RepresentRows dims.now (modes_of (option_map (λ modes. modes.now) modes.entry)) (so_far ++ F.rows rows.now)
        cells.new) }
    ensures refused { IfErr result (λ fault. (so_far : List LineOrder)
        → RepresentRows dims.now (modes_of (option_map (λ modes. modes.now) modes.entry)) so_far cells.old
        → IsAddFault dims.now (modes_of (option_map (λ modes. modes.now) modes.entry)) cells.old.view
        (so_far ++ F.rows rows.now) fault) }

    // Also after an error.
    ensures view { cells.new.view ≡ cells.old.view }
{
    let batch = cells_of(alloc, dims, cells.view(), members, rows, modes)?;
    if cells.as_slice().is_empty() {
        *cells = batch;
        return Ok(());
    }
    cells.merge(alloc, &batch)
}

// The cells of the rows of a batch.
fn cells_of<F: ModeRows>(
    alloc: Global,
    dims: &Dims,
    view: View,
    members: &ViewMembers,
    rows: &F,
    modes: Option<&Dictionary>,
) -> Result<Cells, Fault>
    requires members { AreMembersOf dims.now view members.now }
    requires batch { length (F.rows rows.now) ≤ most_batch_rows }
    ensures ok { IfOk result (RepresentRows dims.now (modes_of (option_map (λ modes. modes.now) modes.entry))
        (F.rows rows.now)) }
    ensures view { IfOk result (λ cells. cells.view ≡ view) }
    ensures refused { IfErr result (λ fault. (fault ≡ Fault.Memory) ⊎ ((fault ≡ Fault.BadLayout)
        × AreUnfit dims.now (modes_of (option_map (λ modes. modes.now) modes.entry)) view (F.rows rows.now))) }
{
    let codes = own_codes(alloc, view, rows, modes)?;
    let keys = keys_of_rows(alloc, dims, view, members, rows, codes.as_slice())?;
    let mut cells = group_rows(alloc, keys.as_slice(), rows)?;
    sort(&mut cells)?;
    Ok(Cells::of(view, cells))
}

// Puts cells in the order of their keys.
fn sort(cells: &mut Vec<Cell>) -> Result<(), AllocError>
    ensures same { IsPermutation cells.old.items cells.new.items }
    ensures order { OnOk result (IsNonDecreasingBy (λ cell. key_as_number cell.key) cells.new.items) }
{
    cells.sort_by_cached_key(|cell| cell.key.number())
}
