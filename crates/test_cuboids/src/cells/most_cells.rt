//! As many cells as a cuboid may have, and one more.
ghost use Rattle.std.specs.Prelude.{OnOk};
ghost use Rattle.cuboid_upkeep.specs.Growing.{GrowOver};

use crate::cells::grouped::take_in;
use cube_model::Fault;
use cuboid_upkeep::GrowingCells;
use dimensions::Dims;
use lattice::View;
use sample_star::{pairs, rows_of_pairs};
use std::alloc::Global;
use std::test::Fail;

// Takes in so many pairs from a number on, as a batch.
fn take_in_pairs(
    alloc: Global,
    dims: &Dims,
    first: u32,
    count: u32,
    cells: &mut GrowingCells,
) -> Result<(), Fault>
    requires { GrowOver dims.now cells.old }
    ensures { OnOk result (GrowOver dims.now cells.new) }
{
    let rows = pairs(alloc, first, count)?;
    take_in(alloc, dims, &rows, None, cells)
}

// Takes four batches of pairs in, each pair with a cell of its own, and the last pair once more.
fn take_in_most(alloc: Global, dims: &Dims, cells: &mut GrowingCells) -> Result<(), Fault>
    requires { GrowOver dims.now cells.old }
    ensures { OnOk result (GrowOver dims.now cells.new) }
{
    for first in [0, 65_536, 131_072, 196_608] {
        take_in_pairs(alloc, dims, first, 65_536, cells)?;
    }
    take_in_pairs(alloc, dims, 262_143, 1, cells)
}

// What comes of one pair more, under a view by city and brand.
fn one_pair_more(alloc: Global, dims: &Dims) -> Result<Result<(), Fault>, Fault> {
    let Some(view) = View::new(51) else {
        return Err(Fault::BadQuery);
    };
    let mut cells = GrowingCells::new(alloc, dims, view)?;
    take_in_most(alloc, dims, &mut cells)?;
    Ok(take_in_pairs(alloc, dims, 262_144, 1, &mut cells))
}

#[test]
fn takes_as_many_cells_as_there_may_be(rt: HostRuntime) -> Result<(), Fail> {
    let rows = rows_of_pairs(rt.alloc())?;
    let dims = Dims::build(rt.alloc(), &rows)?;
    let refused = Err(Fault::TooManyCells { view: 51 });
    assert!(rt; one_pair_more(rt.alloc(), &dims) == Ok(refused));
    Ok(())
}
