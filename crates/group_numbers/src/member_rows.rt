//! Rows that have the members of an attribute. What is at a row's place stays there when rows are added after it.
ghost use Rattle.std.specs.Prelude.{IfOk};
ghost use Rattle.group_numbers.specs.MemberRows.{HaveMembers};

use crate::kinds::places_of_kinds;
use cube_model::Attr;
use dimensions::Dims;
use std::alloc::{AllocError, Global};

/// For each member of an attribute, by its rank, the place of a row that has it.
pub fn member_places(alloc: Global, dims: &Dims, attr: Attr) -> Result<Vec<usize>, AllocError>
    ensures { IfOk result (λ places. HaveMembers dims.now attr places.items) }
{
    let rows = places_of_kinds(alloc, dims, attr.axis())?;
    let mut places = Vec::new(alloc);
    places.resize(dims.members(attr), 0)?;
    for i in 0..rows.len() {
        let rank = dims.rank(attr, rows[i]) as usize;
        places[rank] = rows[i];
    }
    Ok(places)
}
