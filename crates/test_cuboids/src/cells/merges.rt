//! Merges whose results were worked out by hand.
use crate::cells::sample::{
    AT_FIRST_DAY, AT_SECOND_DAY, FIRST_CELL, SECOND, SECOND_CELL, THIRD, cells_of,
};
use cube_model::Fault;
use cuboid_cells::{Cell, Cells, Key};
use std::alloc::Global;
use std::test::Fail;

// Takes in the cells, where they are of the same view.
#[tactic(auto, using(lattice::proofs::LawsLemmas::indexes_name_views))]
fn take_in(alloc: Global, cells: &mut Cells, other: &Cells) -> Result<(), Fault> {
    if cells.view().index() != other.view().index() {
        return Ok(());
    }
    cells.merge(alloc, other)
}

// The cells of view 248 with others taken in.
fn merged(alloc: Global, cells: &[Cell], other: &[Cell]) -> Result<Cells, Fault> {
    let mut cells = cells_of(alloc, 248, cells)?;
    let other = cells_of(alloc, 248, other)?;
    take_in(alloc, &mut cells, &other)?;
    Ok(cells)
}

// The cells of the second row and of the third at the second day, of the first at another, and of the third at a later
// one.
const OF_SECOND: Cell = Cell {
    key: AT_SECOND_DAY,
    count: 1,
    measures: SECOND,
};

const OF_THIRD: Cell = Cell {
    measures: THIRD,
    ..OF_SECOND
};

const LATER: Cell = Cell {
    key: Key {
        date: 3,
        ..AT_FIRST_DAY
    },
    ..FIRST_CELL
};

const LAST: Cell = Cell {
    key: Key {
        date: 4,
        ..AT_FIRST_DAY
    },
    ..OF_THIRD
};

// Cells, others that are taken in, and the cells then.
static MERGES: [(&[Cell], &[Cell], &[Cell]); 3] = [
    (
        &[OF_SECOND, LAST],
        &[FIRST_CELL, OF_THIRD, LATER],
        &[FIRST_CELL, SECOND_CELL, LATER, LAST],
    ),
    (&[FIRST_CELL], &[], &[FIRST_CELL]),
    (&[], &[FIRST_CELL], &[FIRST_CELL]),
];

#[test]
fn merges_by_ascending_keys(rt: HostRuntime) -> Result<(), Fail> {
    for (cells, other, want) in &MERGES {
        let found = merged(rt.alloc(), *cells, *other)?;
        assert!(rt; found.as_slice() == *want);
    }
    Ok(())
}
