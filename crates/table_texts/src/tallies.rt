//! How many rows have each member of an attribute.
ghost use Rattle.std.specs.Prelude.{◌≡◌, ◌<◌, ◌^◌, ◌+◌, ◌-◌, ◌==◌, cond, IfOk, length, replicate, IsOkUnless};
ghost use Rattle.cube_model.specs.Attributes.{axis_of};
ghost use Rattle.cube_model.specs.Places.{attr_members, row_count_of};
ghost use Rattle.table_texts.specs.Tallies.{AreTallies, empty_tally};

use cube_model::{Attr, Fault};
use dimensions::Dims;
use std::alloc::Global;

/// How many rows have a member, and the place of the first of them, if there is one. Places count from 0.
#[derive(Clone, Copy, Drop)]
pub(crate) struct Tally {
    pub(crate) first: usize,
    pub(crate) rows: usize,
}

impl Tally {
    // The tally with one row more, which is at a place after those so far.
    fn with_row(self, place: usize) -> Tally
        requires { self.rows < 2 ^ 64 - 1 }
        ensures first { result.first ≡ cond (self.rows == 0) place self.first }
        ensures rows { result.rows ≡ self.rows + 1 }
    {
        let Tally { first, rows } = self;
        Tally {
            first: if rows == 0 { place } else { first },
            rows: rows + 1,
        }
    }
}

/// The tallies of the members of an attribute, by their ranks. It can only fail when out of memory.
pub(crate) fn tallies_of(alloc: Global, dims: &Dims, attr: Attr) -> Result<Vec<Tally>, Fault>
    ensures ok { IfOk result
        (λ tallies. AreTallies dims.now attr (row_count_of dims.now (axis_of attr)) tallies.items) }
    ensures err { IsOkUnless result Fault.Memory }
{
    let mut tallies = no_tallies(alloc, dims.members(attr))?;
    count_rows(dims, attr, tallies.as_mut_slice());
    Ok(tallies)
}

// So many tallies of no rows.
fn no_tallies(alloc: Global, count: usize) -> Result<Vec<Tally>, Fault>
    ensures ok { IfOk result (λ tallies. tallies.items ≡ replicate count empty_tally) }
    ensures err { IsOkUnless result Fault.Memory }
{
    let none = Tally { first: 0, rows: 0 };
    Ok(vec![in alloc; none; count]?)
}

// Counts the rows of the dimension of an attribute by their members, in one pass.
fn count_rows(dims: &Dims, attr: Attr, tallies: &mut [Tally])
    requires { tallies.old ≡ replicate (length (attr_members dims.now attr)) empty_tally }
    ensures { AreTallies dims.now attr (row_count_of dims.now (axis_of attr)) tallies.new }
{
    for place in 0..dims.row_count(attr.axis()) {
        let rank = usize::from(dims.rank(attr, place));
        let tally = tallies[rank];
        tallies[rank] = tally.with_row(place);
    }
}
