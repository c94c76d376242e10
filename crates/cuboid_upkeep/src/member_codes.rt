//! The codes of the members that the rows of dimensions have at the levels of a view.
ghost use Rattle.std.specs.Prelude.{◌≡◌, ◌<◌, ◌^◌, Some, EachIndex, IfNone, IfOk, IfSome, length, slice_index};
ghost use Rattle.cube_model.specs.Places.{row_count_of};
ghost use Rattle.group_numbers.specs.Numbers.{IsKnownOn};
ghost use Rattle.group_numbers.specs.Rows.{row_at};
ghost use Rattle.dimensions.specs.Coded.{AreGoodRows};
ghost use Rattle.dimensions.specs.Shown.{rows_on};
ghost use Rattle.lattice.specs.declared.level.Level.{Level};
ghost use Rattle.lattice.specs.declared.level.Level.TheVariants as level;
ghost use Rattle.cuboid_cells.specs.Cells.{IsCodeAt};
ghost use Rattle.cuboid_upkeep.specs.Grouping.{code_on};
ghost use Rattle.cuboid_upkeep.specs.Members.{AreCodesAt, AreMembersOf, HaveCodes};
ghost use Rattle.cuboid_upkeep.specs.Numbers.{code_digit};

use crate::codes::{LevelCodes, is_all};
use cube_model::Axis;
use cuboid_cells::limits::ALL_CODE;
use dimensions::Dims;
use group_numbers::FactRows;
use lattice::{Level, View};
use std::alloc::{AllocError, Global};

/// For each row of a dimension the code of its member at a level; none where all members are together.
#[derive(Drop)]
pub struct MemberCodes {
    pub codes: Vec<u16>,
    /// Above each of the codes, and at least 1.
    pub count: usize,
}

/// Those of the levels of a view.
pub struct ViewMembers {
    pub customers: MemberCodes,
    pub suppliers: MemberCodes,
    pub parts: MemberCodes,
    pub dates: MemberCodes,
}

// Written out, so that a proof has one call to follow where they are let go.
impl Drop for ViewMembers {
    fn drop(self) {
        let ViewMembers {
            customers: _,
            suppliers: _,
            parts: _,
            dates: _,
        } = self;
    }
}

impl ViewMembers {
    // Those of a view.
    pub(crate) fn of(alloc: Global, dims: &Dims, view: View) -> Result<ViewMembers, AllocError>
        ensures { IfOk result (AreMembersOf dims.now view) }
    {
        let customers = MemberCodes::of(alloc, dims, Axis::Customer, view.customer)?;
        let suppliers = MemberCodes::of(alloc, dims, Axis::Supplier, view.supplier)?;
        let parts = MemberCodes::of(alloc, dims, Axis::Part, view.part)?;
        let dates = MemberCodes::of(alloc, dims, Axis::Date, view.date)?;
        Ok(ViewMembers {
            customers,
            suppliers,
            parts,
            dates,
        })
    }
}

impl MemberCodes {
    // Those of a level of a dimension.
    fn of(alloc: Global, dims: &Dims, axis: Axis, grouped: Level) -> Result<MemberCodes, AllocError>
        ensures { IfOk result (AreCodesAt dims.now axis grouped) }
    {
        if is_all(grouped) {
            return Ok(MemberCodes {
                codes: Vec::new(alloc),
                count: 1,
            });
        }
        let codes = level_codes(alloc, dims, axis, grouped)?;
        let count = above_all(codes.as_slice());
        Ok(MemberCodes { codes, count })
    }

    // The code of the member that the row at a place has. Nothing where the level has members and the row's key has
    // none.
    #[inline(always)]
    pub(crate) fn code<F: FactRows>(
        &self,
        dims: &Dims,
        axis: Axis,
        grouped: Level,
        rows: &F,
        place: usize,
    ) -> Option<u16>
        requires codes { AreCodesAt dims.now axis grouped self.now }
        requires place { place < length (F.rows rows.now) }
        ensures some { IfSome result (λ code. code ≡ code_on dims.now axis grouped (row_at (F.rows rows.now) place)) }
        ensures apart { IfSome result (IsCodeAt grouped) }
        ensures known { IfSome result (λ code. (grouped ≡ level.All → ⊥)
            → IsKnownOn dims.now (row_at (F.rows rows.now) place) axis) }
        ensures low { IfSome result (λ code. code_digit code < self.now.count) }
        ensures fits { IfSome result (λ code. code < 2 ^ 16) }
        ensures none { IfNone result ((grouped ≡ level.All → ⊥)
            × (IsKnownOn dims.now (row_at (F.rows rows.now) place) axis → ⊥)) }
    {
        if is_all(grouped) {
            return Some(ALL_CODE);
        }
        let own = dims.row_index(axis, rows.key(place, axis));
        if own >= dims.row_count(axis) {
            return None;
        }
        let code = code_at(self.codes.as_slice(), own);
        Some(code)
    }
}

// For each row of a dimension the code of its member at a level that has members.
fn level_codes(
    alloc: Global,
    dims: &Dims,
    axis: Axis,
    grouped: Level,
) -> Result<Vec<u16>, AllocError>
    requires { grouped ≡ level.All → ⊥ }
    ensures { IfOk result (λ codes. HaveCodes dims.now axis grouped codes.items) }
{
    let mut codes = Vec::new(alloc);
    codes.resize(dims.row_count(axis), 0)?;
    put_codes(codes.as_mut_slice(), dims, axis, grouped);
    Ok(codes)
}

// Puts the code of each row's member at the row's place.
fn put_codes(codes: &mut [u16], dims: &Dims, axis: Axis, grouped: Level)
    requires good { AreGoodRows axis (rows_on dims.now axis) }
    requires grouped { grouped ≡ level.All → ⊥ }
    requires count { length codes.old ≡ row_count_of dims.now axis }
    ensures { HaveCodes dims.now axis grouped codes.new }
{
    let tables = LevelCodes::of(dims, axis, grouped);
    for place in 0..codes.len() {
        codes[place] = tables.read(place);
    }
}

// The code at a place; 0 where none is.
#[inline(always)]
pub(crate) fn code_at(codes: &[u16], place: usize) -> u16
    ensures { result ≡ slice_index codes.now place }
{
    match codes.get(place) {
        Some(code) => *code,
        None => 0,
    }
}

// A number above each of some codes.
fn above_all(codes: &[u16]) -> usize
    ensures some { 0 < result }
    ensures above { EachIndex codes.now (λ place. slice_index codes.now place < result) }
{
    let mut count = 1;
    for code in codes {
        count = count.max(usize::from(*code) + 1);
    }
    count
}
