//! The keys of rows that have the members of a level.
ghost use Rattle.std.specs.Prelude.{◌≡◌, ℕ, ◌<◌, ◌≤◌, IfNone, IfOk, IfSome, None, length, replicate};
ghost use Rattle.cube_model.specs.Places.{row_count_of, row_index_of};
ghost use Rattle.dimensions.specs.Coded.{AreGoodRows};
ghost use Rattle.dimensions.specs.Shown.{AreStorable, rows_on};
ghost use Rattle.lattice.specs.declared.level.Level.TheVariants as level;
ghost use Rattle.cuboid_cells.specs.Limits.{all_code};
ghost use Rattle.cuboid_upkeep.specs.Codes.{member_code};
ghost use Rattle.cuboid_upkeep.specs.Representatives.{AreAtCodes, AreKeysOf, HaveAllCodes, HoldAllCodes, missing_in};
ghost use Rattle.cuboid_upkeep.specs.Representatives.{with_key};

use crate::codes::{LevelCodes, code_count};
use cube_model::Axis;
use dimensions::Dims;
use lattice::Level;
use std::alloc::{AllocError, Global};

/// Keys by the codes of a level's members, each that of a row with the member.
#[derive(Drop)]
pub struct MemberKeys {
    /// The key at the code of every member together.
    pub every: Option<u32>,
    /// The key at each other code.
    pub members: Vec<Option<u32>>,
}

// For each code of a level, the key of a row of the dimension whose member has the code. One row will do for every
// member together, and no row is looked at where that is the level.
pub(crate) fn keys_of_members(
    alloc: Global,
    dims: &Dims,
    axis: Axis,
    grouped: Level,
) -> Result<MemberKeys, AllocError>
    ensures sound { IfOk result (AreKeysOf dims.now axis grouped) }
    ensures whole { IfOk result (HaveAllCodes dims.now axis grouped) }
    ensures few { IfOk result (λ keys. length keys.members.items ≤ all_code) }
    ensures storable { AreStorable dims.now }
{
    if matches!(grouped, Level::All) {
        return Ok(MemberKeys {
            every: first_key(dims, axis),
            members: Vec::new(alloc),
        });
    }
    Ok(MemberKeys {
        every: None,
        members: keys_by_code(alloc, dims, axis, grouped)?,
    })
}

// The key of the first row of a dimension.
fn first_key(dims: &Dims, axis: Axis) -> Option<u32>
    ensures some { IfSome result (λ key. row_index_of dims.now axis key < row_count_of dims.now axis) }
    ensures none { IfNone result (row_count_of dims.now axis ≡ 0) }
    ensures storable { AreStorable dims.now }
{
    match dims.keys(axis) {
        [] => None,
        [key, ..] => Some(*key),
    }
}

// The same for a level that has members, by their codes.
fn keys_by_code(
    alloc: Global,
    dims: &Dims,
    axis: Axis,
    grouped: Level,
) -> Result<Vec<Option<u32>>, AllocError>
    requires { grouped ≡ level.All → ⊥ }
    ensures sound { IfOk result (λ keys. AreAtCodes dims.now axis grouped keys.items) }
    ensures whole { IfOk result (λ keys. HoldAllCodes dims.now axis grouped keys.items) }
    ensures few { IfOk result (λ keys. length keys.items ≤ all_code) }
    ensures storable { AreStorable dims.now }
{
    let mut keys = Vec::new(alloc);
    if dims.row_count(axis) > 0 {
        keys.resize(code_count(dims, axis, grouped), None)?;
        put_keys(dims, axis, grouped, keys.as_mut_slice());
    }
    Ok(keys)
}

// Puts a key at each code, reading rows until none is missing.
fn put_keys(dims: &Dims, axis: Axis, grouped: Level, keys: &mut [Option<u32>])
    requires good { AreGoodRows axis (rows_on dims.now axis) }
    requires grouped { grouped ≡ level.All → ⊥ }
    requires room { (place : ℕ) → place < row_count_of dims.now axis
        → member_code dims.now axis grouped place < length keys.old }
    requires none { keys.old ≡ replicate (length keys.old) None }
    ensures sound { AreAtCodes dims.now axis grouped keys.new }
    ensures whole { HoldAllCodes dims.now axis grouped keys.new }
    ensures length { length keys.new ≡ length keys.old }
{
    let all = dims.keys(axis);
    let codes = LevelCodes::of(dims, axis, grouped);
    let mut missing = keys.len();
    for place in 0..all.len() {
        if missing == 0 {
            return;
        }
        let code = codes.read(place);
        missing = put_first(keys, code, all[place], missing);
    }
}

// Puts a key at a code unless one is there, and says at how many codes none is then.
fn put_first(keys: &mut [Option<u32>], code: u16, key: u32, missing: usize) -> usize
    requires code { code < length keys.old }
    requires missing { missing ≡ missing_in keys.old }
    ensures puts { keys.new ≡ with_key keys.old code key }
    ensures missing { result ≡ missing_in keys.new }
{
    let place = usize::from(code);
    if keys[place].is_some() {
        return missing;
    }
    keys[place] = Some(key);
    missing - 1
}
