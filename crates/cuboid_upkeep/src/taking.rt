//! Taking the cell of a fact row in at the number of its key.
ghost use Rattle.std.specs.Prelude.{◌≡◌, ◌<◌, length, IfErr, OnOk};
ghost use Rattle.cube_model.specs.declared.fault.Fault.{Fault};
ghost use Rattle.cuboid_upkeep.specs.Steps.{MergesAt, OverflowsAt};
ghost use Rattle.cuboid_upkeep.specs.Slots.{PassesAt, TakesAt};

use cube_model::Fault;
use cuboid_cells::Cell;

// Takes a cell in at a place: a free slot gets it, and a cell in use becomes the merge of both. `BadLayout` where a
// number would exceed its type; what is at the place is then not said.
#[inline(always)]
pub(crate) fn take_in(slots: &mut Vec<Cell>, place: usize, cell: &Cell) -> Result<(), Fault>
    requires { place < length slots.old.items }
    ensures ok { OnOk result (TakesAt slots.old.items place cell.now slots.new.items) }
    ensures refused { IfErr result (λ fault. (fault ≡ Fault.BadLayout) × PassesAt slots.old.items place cell.now) }
{
    if slots[place].count == 0 {
        slots[place] = *cell;
        return Ok(());
    }
    merge_at(slots, place, cell)
}

// Merges a cell into the one at a place.
#[inline(always)]
pub(crate) fn merge_at(slots: &mut Vec<Cell>, place: usize, cell: &Cell) -> Result<(), Fault>
    requires { place < length slots.old.items }
    ensures ok { OnOk result (MergesAt slots.old.items place cell.now slots.new.items) }
    ensures refused { IfErr result (λ fault. (fault ≡ Fault.BadLayout) × OverflowsAt slots.old.items place cell.now) }
{
    slots[place] = slots[place].merged(cell).ok_or(Fault::BadLayout)?;
    Ok(())
}
