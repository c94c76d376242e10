//! What the members of a level give to the numbers of groups.
ghost use Rattle.std.specs.Prelude.{◌≡◌, ◌↔◌, ◌+◌, ◌*◌, ◌<◌, ◌≤◌, ◌^◌, ℕ, All, IfNone, IfOk, IfSome, IsTrue, map};
ghost use Rattle.dimensions.specs.Shown.{AreStorable};
ghost use Rattle.cuboid_upkeep.specs.MemberParts.{AreParts, AreUnselected, IsOfRow, IsUnselected, given_by};
ghost use Rattle.cuboid_upkeep.specs.MemberParts.{member_part_by};
ghost use Rattle.cuboid_upkeep.specs.MemberParts.{part_in};
ghost use Rattle.cuboid_cells.specs.Limits.{all_code};
ghost use Rattle.cuboid_upkeep.specs.declared.member_parts.MemberPart.TheVariants.{Nothing};

use crate::member_keys::keys_of_members;
use cube_model::Axis;
use cuboid_cells::limits::ALL_CODE;
use dimensions::Dims;
use group_numbers::GroupNumbersOver;
use lattice::Level;
use std::alloc::{AllocError, Global};

/// What the rows with the member of a code give to the number of a group.
#[derive(Clone, Copy, PartialEq, Eq)]
pub enum MemberPart {
    /// No member has the code.
    NoMember,
    /// Nothing: a condition does not hold.
    Nothing,
    /// A part of the number.
    Part(u128),
}

impl MemberPart {
    // What the rows give, if there is a member.
    #[inline]
    fn given(self) -> Option<Option<u128>>
        ensures { result ≡ given_by self }
    {
        match self {
            MemberPart::NoMember => None,
            MemberPart::Nothing => Some(None),
            MemberPart::Part(part) => Some(Some(part)),
        }
    }

    // Whether there is a member, and no row with it is selected.
    #[inline]
    fn is_nothing(&self) -> bool
        ensures { IsTrue result ↔ (self.now ≡ Nothing) }
    {
        matches!(self, MemberPart::Nothing)
    }
}

/// By the codes of a level's members, what a row with the member gives to the number of a group.
pub struct MemberParts {
    /// What is at the code of every member together.
    pub every: MemberPart,
    /// What is at each other code.
    pub members: Vec<MemberPart>,
}

// Written out, so that a proof has one call to follow where the parts are let go.
impl Drop for MemberParts {
    fn drop(self) {
        let MemberParts {
            every: _,
            members: _,
        } = self;
    }
}

impl MemberParts {
    // What the rows with the member of a code give, if there is a member.
    #[inline]
    pub(crate) fn at(&self, code: u16) -> Option<Option<u128>>
        ensures { result ≡ part_in self.now code }
    {
        if code == ALL_CODE {
            return self.every.given();
        }
        match self.members.get(usize::from(code)) {
            Some(part) => part.given(),
            None => None,
        }
    }

    // The least code, from one on, of a member with which rows may be selected. A code of no member counts as one,
    // unless it is above all others.
    fn next_code(&self, from: u128) -> Option<u16>
        ensures below { IfSome result (λ next. next < all_code) }
        ensures some { IfSome result (λ next. (code : ℕ) → from ≤ code → code < next → IsUnselected self.now code) }
        ensures none { IfNone result ((code : ℕ) → from ≤ code → code < all_code → IsUnselected self.now code) }
    {
        let end = self.members.len().min(usize::from(ALL_CODE));
        let mut code = from.min(end as u128) as usize;
        while code < end {
            if !self.members[code].is_nothing() {
                return Some(code as u16);
            }
            code += 1;
        }
        None
    }

    // The least number, from one on, of a key whose code on the axis is that of a member with which rows may be
    // selected, or the number itself where no code is passed over. The codes on the axes before it make a number, and
    // that of those after it is below a unit.
    pub(crate) fn next_number(&self, before: u128, unit: u128, from: u128) -> Option<u128>
        requires unit { 1 ≤ unit }
        requires before { before + 65536 < 2 ^ 128 }
        requires fits { (before + 65536) * unit < 2 ^ 128 }
        ensures { AreUnselected self.now before unit from result }
    {
        let first = (from / unit).saturating_sub(before);
        let Some(code) = self.next_code(first) else {
            return None;
        };
        if u128::from(code) <= first {
            // No code is passed over, and so no key.
            return Some(from);
        }
        Some((before + u128::from(code)) * unit)
    }
}

// What the members of a level of a dimension give by group numbers, each by one row.
pub(crate) fn parts_of_members(
    alloc: Global,
    dims: &Dims,
    grouping: &GroupNumbersOver,
    axis: Axis,
    grouped: Level,
) -> Result<MemberParts, AllocError>
    requires { grouping.now.dimensions ≡ dims.now }
    ensures parts { IfOk result (AreParts dims.now grouping.now.query axis grouped) }
    ensures storable { AreStorable dims.now }
{
    let keys = keys_of_members(alloc, dims, axis, grouped)?;
    let members = parts_by_code(alloc, grouping, axis, keys.members.as_slice())?;
    Ok(MemberParts {
        every: part_of(grouping, axis, keys.every),
        members,
    })
}

// What the rows with some keys give, each in its place.
fn parts_by_code(
    alloc: Global,
    grouping: &GroupNumbersOver,
    axis: Axis,
    keys: &[Option<u32>],
) -> Result<Vec<MemberPart>, AllocError>
    requires { All (IsOfRow grouping.now.dimensions axis) keys.now }
    ensures { IfOk result (λ parts.
        map given_by parts.items ≡ map (member_part_by grouping.now.dimensions grouping.now.query axis) keys.now) }
{
    let mut parts = Vec::with_capacity(alloc, keys.len())?;
    for key in keys {
        parts.push(part_of(grouping, axis, *key))?;
    }
    Ok(parts)
}

// What the row with a key gives, if there is a key.
fn part_of(grouping: &GroupNumbersOver, axis: Axis, key: Option<u32>) -> MemberPart
    requires { IsOfRow grouping.now.dimensions axis key }
    ensures { given_by result ≡ member_part_by grouping.now.dimensions grouping.now.query axis key }
{
    let Some(key) = key else {
        return MemberPart::NoMember;
    };
    match grouping.part(axis, key) {
        None => MemberPart::Nothing,
        Some(part) => MemberPart::Part(part),
    }
}
