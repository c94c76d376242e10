//! Grouping fact rows by their keys.
ghost use Rattle.std.specs.Prelude.{◌≡◌, ◌⊎◌, ℕ, List, [], length, IfErr, IfOk, OnOk};
ghost use Rattle.cube_model.specs.declared.fault.Fault.{Fault};
ghost use Rattle.cube_model.specs.declared.rows.DimRows.{DimRows};
ghost use Rattle.lattice.specs.declared.view.View.{View};
ghost use Rattle.cuboid_upkeep.specs.declared.member_codes.ViewMembers.{ViewMembers};
ghost use Rattle.cuboid_upkeep.specs.Keys.{AreRowKeys};
ghost use Rattle.cuboid_upkeep.specs.Steps.{AreGrouped, AreKeyed, AreUnfit, Overflows, TakesIn};

use crate::keys::key_at;
use crate::row_cell::row_cell;
use crate::taking::merge_at;
use cube_model::Fault;
use cuboid_cells::{Cell, Key};
use group_numbers::FactRows;
use indexmap::IndexSet;
use std::alloc::Global;

// For how many cells there is room from the start, where there are as many rows: a view of some thousand cells then
// copies none of them for lack of room.
const ROOM: usize = 8_192;

// The cells of fact rows, of which the keys are given, in the order of the first rows of their keys.
pub(crate) fn group_rows<F: FactRows>(
    alloc: Global,
    keys: &[Key],
    rows: &F,
) -> Result<Vec<Cell>, Fault>
    ensures ok { IfOk result
        (λ cells. (dimensions : DimRows) (modes : List (List ℕ)) (view : View) (members : ViewMembers)
        → AreRowKeys dimensions modes view members (F.rows rows.now) (length (F.rows rows.now)) keys.now
        → AreGrouped dimensions modes view (F.rows rows.now) cells.items) }
    ensures refused { IfErr result (λ fault. (fault ≡ Fault.Memory) ⊎ ((fault ≡ Fault.BadLayout)
        × ((dimensions : DimRows) (modes : List (List ℕ)) (view : View) (members : ViewMembers)
        → AreRowKeys dimensions modes view members (F.rows rows.now) (length (F.rows rows.now)) keys.now
        → AreUnfit dimensions modes view (F.rows rows.now)))) }
{
    let room = rows.count().min(ROOM);
    let mut numbers = IndexSet::with_capacity(alloc, room)?;
    let mut cells = Vec::with_capacity(alloc, room)?;
    take_in_rows(&mut numbers, &mut cells, keys, rows)?;
    Ok(cells)
}

// Takes the cells of fact rows in, where no cell was before.
fn take_in_rows<F: FactRows>(
    numbers: &mut IndexSet<u128>,
    cells: &mut Vec<Cell>,
    keys: &[Key],
    rows: &F,
) -> Result<(), Fault>
    requires no_number { numbers.old.keys ≡ [] }
    requires no_cell { cells.old.items ≡ [] }
    ensures ok { OnOk result ((dimensions : DimRows) (modes : List (List ℕ)) (view : View) (members : ViewMembers)
        → AreRowKeys dimensions modes view members (F.rows rows.now) (length (F.rows rows.now)) keys.now
        → AreGrouped dimensions modes view (F.rows rows.now) cells.new.items) }
    ensures refused { IfErr result (λ fault. (fault ≡ Fault.Memory) ⊎ ((fault ≡ Fault.BadLayout)
        × ((dimensions : DimRows) (modes : List (List ℕ)) (view : View) (members : ViewMembers)
        → AreRowKeys dimensions modes view members (F.rows rows.now) (length (F.rows rows.now)) keys.now
        → AreUnfit dimensions modes view (F.rows rows.now)))) }
{
    for place in 0..rows.count() {
        let key = key_at(keys, place);
        let cell = row_cell(key, rows, place)?;
        take_in(numbers, cells, cell)?;
    }
    Ok(())
}

// Takes a cell in: that of its key becomes the merge of both, and a new key comes after all others. `BadLayout` where a
// number would exceed its type.
fn take_in(numbers: &mut IndexSet<u128>, cells: &mut Vec<Cell>, cell: Cell) -> Result<(), Fault>
    requires { AreKeyed numbers.old.keys cells.old.items }
    ensures keyed { OnOk result (AreKeyed numbers.new.keys cells.new.items) }
    ensures ok { OnOk result (TakesIn cells.old.items cell cells.new.items) }
    ensures refused { IfErr result (λ fault. (fault ≡ Fault.Memory)
        ⊎ ((fault ≡ Fault.BadLayout) × Overflows cells.old.items cell)) }
{
    let Ok((place, _)) = numbers.insert_full(cell.key.number()) else {
        return Err(Fault::Memory);
    };
    if place >= cells.len() {
        cells.push(cell)?;
        return Ok(());
    }
    merge_at(cells, place, &cell)
}
