//! The numbers of the keys of fact rows in a view that does not group by ship mode.
ghost use Rattle.std.specs.Prelude.{◌≡◌, ◌⊎◌, ◌<◌, [], All, IfErr, IfNone, IfOk, IfSome, false, true, length};
ghost use Rattle.cube_model.specs.declared.fault.Fault.{Fault};
ghost use Rattle.group_numbers.specs.Rows.{row_at};
ghost use Rattle.cuboid_upkeep.specs.Grouping.{HasMembers};
ghost use Rattle.cuboid_upkeep.specs.Keys.{AreRowNumbers, IsNumberOfRow};
ghost use Rattle.cuboid_upkeep.specs.Members.{AreMembersOf};
ghost use Rattle.cuboid_upkeep.specs.Numbers.{AreFew};

use crate::keys::row_key;
use crate::member_codes::ViewMembers;
use cube_model::Fault;
use cuboid_cells::limits::ALL_CODE;
use dimensions::Dims;
use group_numbers::FactRows;
use lattice::View;
use std::alloc::Global;

// The numbers of the keys of fact rows, in their order. `BadLayout` where a row has not its members.
//
// They are found in a loop that does nothing else, so that the processor waits for the memory of many rows' look-ups at
// once.
pub(crate) fn numbers_of_rows<F: FactRows>(
    alloc: Global,
    dims: &Dims,
    view: View,
    members: &ViewMembers,
    rows: &F,
) -> Result<Vec<u32>, Fault>
    requires members { AreMembersOf dims.now view members.now }
    requires no_modes { view.ship_mode ≡ false }
    requires few { AreFew members.now }
    ensures ok { IfOk result
        (λ numbers. AreRowNumbers dims.now view members.now (F.rows rows.now) (length (F.rows rows.now))
        numbers.items) }
    ensures refused { IfErr result (λ fault. (fault ≡ Fault.Memory)
        ⊎ ((fault ≡ Fault.BadLayout) × (All (HasMembers dims.now [] view) (F.rows rows.now) → ⊥))) }
{
    let mut numbers = Vec::new(alloc);
    numbers.resize(rows.count(), 0)?;
    if !put_numbers(numbers.as_mut_slice(), dims, view, members, rows) {
        return Err(Fault::BadLayout);
    }
    Ok(numbers)
}

// Puts the number of each row's key at its place. Whether each row has its members.
fn put_numbers<F: FactRows>(
    numbers: &mut [u32],
    dims: &Dims,
    view: View,
    members: &ViewMembers,
    rows: &F,
) -> bool
    requires members { AreMembersOf dims.now view members.now }
    requires no_modes { view.ship_mode ≡ false }
    requires few { AreFew members.now }
    requires count { length numbers.old ≡ length (F.rows rows.now) }
    ensures ok { result ≡ true
        → AreRowNumbers dims.now view members.now (F.rows rows.now) (length (F.rows rows.now)) numbers.new }
    ensures lacks { result ≡ false → All (HasMembers dims.now [] view) (F.rows rows.now) → ⊥ }
{
    for place in 0..numbers.len() {
        let Some(number) = row_number(dims, view, members, rows, place) else {
            return false;
        };
        numbers[place] = number;
    }
    true
}

// The number of the key of the row at a place. Nothing where it has not its members.
#[inline(always)]
fn row_number<F: FactRows>(
    dims: &Dims,
    view: View,
    members: &ViewMembers,
    rows: &F,
    place: usize,
) -> Option<u32>
    requires members { AreMembersOf dims.now view members.now }
    requires no_modes { view.ship_mode ≡ false }
    requires few { AreFew members.now }
    requires place { place < length (F.rows rows.now) }
    ensures some { IfSome result (IsNumberOfRow dims.now view members.now (row_at (F.rows rows.now) place)) }
    ensures none { IfNone result (HasMembers dims.now [] view (row_at (F.rows rows.now) place) → ⊥) }
{
    let key = row_key(dims, view, members, rows, place, ALL_CODE)?;
    Some(members.place(key) as u32)
}
