//! The keys of fact rows.
ghost use Rattle.std.specs.Prelude.{◌≡◌, ◌⊎◌, ◌<◌, ℕ, List, All, IfErr, IfNone, IfOk, IfSome, false, true};
ghost use Rattle.std.specs.Prelude.{length, slice_index_or};
ghost use Rattle.cube_model.specs.declared.fault.Fault.{Fault};
ghost use Rattle.group_numbers.specs.Rows.{row_at};
ghost use Rattle.cuboid_cells.specs.declared.key.Key.{Key};
ghost use Rattle.cuboid_upkeep.specs.Grouping.{HasMembers};
ghost use Rattle.cuboid_upkeep.specs.Keys.{AreRowKeys, IsKeyOfRow, IsOwnMode};
ghost use Rattle.cuboid_upkeep.specs.Members.{AreMembersOf};
ghost use Rattle.cuboid_upkeep.specs.Modes.{AreOwnCodes};

use crate::member_codes::ViewMembers;
use crate::mode_codes::own_mode;
use cube_model::{Axis, Fault};
use cuboid_cells::Key;
use dimensions::Dims;
use group_numbers::{FactRows, ModeRows};
use lattice::View;
use std::alloc::Global;

// Where no key was put yet.
pub(crate) const NO_KEY: Key = Key {
    customer: 0,
    supplier: 0,
    part: 0,
    date: 0,
    ship_mode: 0,
};

// The keys of fact rows, in their order. `BadLayout` where a row has not its members. Where the view groups by ship
// mode, the codes of the rows' own modes among the modes are given.
//
// They are found in a loop that does nothing else, so that the processor waits for the memory of many rows' look-ups at
// once.
pub(crate) fn keys_of_rows<F: ModeRows>(
    alloc: Global,
    dims: &Dims,
    view: View,
    members: &ViewMembers,
    rows: &F,
    codes: &[u16],
) -> Result<Vec<Key>, Fault>
    requires members { AreMembersOf dims.now view members.now }
    ensures ok { IfOk result
        (λ keys. (modes : List (List ℕ)) → AreOwnCodes modes view (F.modes rows.now) codes.now
        → AreRowKeys dims.now modes view members.now (F.rows rows.now) (length (F.rows rows.now)) keys.items) }
    ensures refused { IfErr result (λ fault. (fault ≡ Fault.Memory)
        ⊎ ((fault ≡ Fault.BadLayout)
        × ((modes : List (List ℕ)) → AreOwnCodes modes view (F.modes rows.now) codes.now
        → All (HasMembers dims.now modes view) (F.rows rows.now) → ⊥))) }
{
    let mut keys = Vec::new(alloc);
    keys.resize(rows.count(), NO_KEY)?;
    if !put_keys(keys.as_mut_slice(), dims, view, members, rows, codes) {
        return Err(Fault::BadLayout);
    }
    Ok(keys)
}

// Puts the key of each row at its place. Whether each row has its members.
fn put_keys<F: ModeRows>(
    keys: &mut [Key],
    dims: &Dims,
    view: View,
    members: &ViewMembers,
    rows: &F,
    codes: &[u16],
) -> bool
    requires members { AreMembersOf dims.now view members.now }
    requires count { length keys.old ≡ length (F.rows rows.now) }
    ensures ok { result ≡ true → (modes : List (List ℕ)) → AreOwnCodes modes view (F.modes rows.now) codes.now
        → AreRowKeys dims.now modes view members.now (F.rows rows.now) (length (F.rows rows.now)) keys.new }
    ensures lacks { result ≡ false → (modes : List (List ℕ)) → AreOwnCodes modes view (F.modes rows.now) codes.now
        → All (HasMembers dims.now modes view) (F.rows rows.now) → ⊥ }
{
    for place in 0..keys.len() {
        let Some(key) = key_by_mode(dims, view, members, rows, codes, place) else {
            return false;
        };
        keys[place] = key;
    }
    true
}

// The key of the row at a place, where the codes of the rows' own modes are given. Nothing where it has not its
// members.
#[inline(always)]
fn key_by_mode<F: ModeRows>(
    dims: &Dims,
    view: View,
    members: &ViewMembers,
    rows: &F,
    codes: &[u16],
    place: usize,
) -> Option<Key>
    requires members { AreMembersOf dims.now view members.now }
    requires place { place < length (F.rows rows.now) }
    ensures some { IfSome result
        (λ key. (modes : List (List ℕ)) → AreOwnCodes modes view (F.modes rows.now) codes.now
        → IsKeyOfRow dims.now modes view members.now (row_at (F.rows rows.now) place) key) }
    ensures none { IfNone result ((modes : List (List ℕ)) → AreOwnCodes modes view (F.modes rows.now) codes.now
        → HasMembers dims.now modes view (row_at (F.rows rows.now) place) → ⊥) }
{
    let mode = own_mode(view, rows, codes, place)?;
    row_key(dims, view, members, rows, place, mode)
}

// The key of the row at a place, whose ship mode has the code. Nothing where it has not its other members.
#[inline(always)]
pub(crate) fn row_key<F: FactRows>(
    dims: &Dims,
    view: View,
    members: &ViewMembers,
    rows: &F,
    place: usize,
    mode: u16,
) -> Option<Key>
    requires members { AreMembersOf dims.now view members.now }
    requires place { place < length (F.rows rows.now) }
    ensures some { IfSome result
        (λ key. (modes : List (List ℕ)) → IsOwnMode modes view (row_at (F.rows rows.now) place) mode
        → IsKeyOfRow dims.now modes view members.now (row_at (F.rows rows.now) place) key) }
    ensures none { IfNone result
        ((modes : List (List ℕ)) → HasMembers dims.now modes view (row_at (F.rows rows.now) place) → ⊥) }
{
    let customer = members
        .customers
        .code(dims, Axis::Customer, view.customer, rows, place)?;
    let supplier = members
        .suppliers
        .code(dims, Axis::Supplier, view.supplier, rows, place)?;
    let part = members
        .parts
        .code(dims, Axis::Part, view.part, rows, place)?;
    let date = members
        .dates
        .code(dims, Axis::Date, view.date, rows, place)?;
    Some(Key {
        customer,
        supplier,
        part,
        date,
        ship_mode: mode,
    })
}

// The key at a place.
#[inline(always)]
pub(crate) fn key_at(keys: &[Key], place: usize) -> Key
    ensures { (key : Key) → place < length keys.now → result ≡ slice_index_or keys.now place key }
{
    match keys.get(place) {
        Some(key) => *key,
        None => NO_KEY,
    }
}
