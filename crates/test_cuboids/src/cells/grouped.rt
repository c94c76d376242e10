//! Cells of the sample rows, worked out by hand.
ghost use Rattle.std.specs.Prelude.{OnOk};
ghost use Rattle.cuboid_upkeep.specs.Growing.{GrowOver};

use crate::cells::sample::{AT_FIRST_DAY, AT_SECOND_DAY, FIRST_CELL, SECOND, SECOND_CELL, THIRD};
use cube_model::{Fault, LineOrder};
use cuboid_cells::{Cell, Cells, Key, Summaries, Summary};
use cuboid_upkeep::GrowingCells;
use dictionary::Dictionary;
use dimensions::Dims;
use group_numbers::RowSlice;
use lattice::View;
use sample_star::{FACTS, FIRST_FACT, Fact, SECOND_FACT, STAR, THIRD_FACT, dim_rows, line_orders};
use std::alloc::Global;
use std::test::Fail;

// What is kept of the first row and the third together.
const FIRST_AND_THIRD: Summaries = Summaries {
    quantity: Summary {
        sum: 42,
        least: 17,
        greatest: 25,
    },
    extendedprice: Summary {
        sum: 1500,
        least: 500,
        greatest: 1000,
    },
    revenue: Summary {
        sum: 1475,
        least: 495,
        greatest: 980,
    },
    supplycost: Summary {
        sum: 700,
        least: 100,
        greatest: 600,
    },
    discounted: Summary {
        sum: 2500,
        least: 500,
        greatest: 2000,
    },
    profit: Summary {
        sum: 775,
        least: 380,
        greatest: 395,
    },
};

// Takes rows in as a batch. `TooManyRows` where they are more than a batch has.
pub(crate) fn take_in(
    alloc: Global,
    dims: &Dims,
    rows: &[LineOrder],
    modes: Option<&Dictionary>,
    cells: &mut GrowingCells,
) -> Result<(), Fault>
    requires { GrowOver dims.now cells.old }
    ensures { OnOk result (GrowOver dims.now cells.new) }
{
    if rows.len() > 65_536 {
        return Err(Fault::TooManyRows);
    }
    cells.add_rows(alloc, dims, &RowSlice(rows), modes)
}

// Takes batches of facts in, one after another.
fn take_in_batches(
    alloc: Global,
    dims: &Dims,
    batches: &[&[Fact<'_>]],
    modes: Option<&Dictionary>,
    cells: &mut GrowingCells,
) -> Result<(), Fault>
    requires { GrowOver dims.now cells.old }
    ensures { OnOk result (GrowOver dims.now cells.new) }
{
    for batch in batches {
        let rows = line_orders(alloc, batch)?;
        take_in(alloc, dims, &rows, modes, cells)?;
    }
    Ok(())
}

// The dimensions of the sample star.
fn sample_dims(alloc: Global) -> Result<Dims, Fault> {
    let rows = dim_rows(alloc, &STAR)?;
    Dims::build(alloc, &rows)
}

// Ship modes in this order, or none.
fn ship_modes(alloc: Global, texts: Option<&[&str]>) -> Result<Option<Dictionary>, Fault> {
    let Some(texts) = texts else {
        return Ok(None);
    };
    let mut modes = Dictionary::new(alloc, 100);
    for text in texts {
        modes.add(alloc, text.as_bytes())?;
    }
    Ok(Some(modes))
}

// The cells of batches of facts under a view, with ship modes or with none.
fn grouped(
    alloc: Global,
    dims: &Dims,
    index: u16,
    batches: &[&[Fact<'_>]],
    modes: Option<&Dictionary>,
) -> Result<Cells, Fault> {
    let Some(view) = View::new(index) else {
        return Err(Fault::BadQuery);
    };
    let mut cells = GrowingCells::new(alloc, dims, view)?;
    take_in_batches(alloc, dims, batches, modes, &mut cells)?;
    cells.finish(alloc)
}

const ALL: u16 = 65_535;

const EVERYWHERE: Key = Key {
    customer: ALL,
    supplier: ALL,
    part: ALL,
    date: ALL,
    ship_mode: ALL,
};

// The cell of the first row and the third, that of the second, and that of the third.
const OF_TWO: Cell = Cell {
    key: EVERYWHERE,
    count: 2,
    measures: FIRST_AND_THIRD,
};

const OF_SECOND: Cell = Cell {
    key: EVERYWHERE,
    count: 1,
    measures: SECOND,
};

const OF_THIRD: Cell = Cell {
    key: EVERYWHERE,
    count: 1,
    measures: THIRD,
};

// The first row at the most money, without and with a discount, and at the most that can be lost.
const RICH: Fact<'static> = Fact {
    extendedprice: 9_223_372_036_854_775_807,
    discount: 0,
    ..FIRST_FACT
};

const REDUCED: Fact<'static> = Fact {
    discount: 2,
    ..RICH
};

const STRANGER: Fact<'static> = Fact {
    suppkey: 9,
    ..FIRST_FACT
};

// The sample rows as one batch, and in three batches, the third row first, with two batches of no row.
const ONE: [&[Fact<'static>]; 1] = [&FACTS];

const FIVE: [&[Fact<'static>]; 5] = [&[THIRD_FACT], &[], &[FIRST_FACT], &[], &[SECOND_FACT]];

const BY_DAY: [Cell; 2] = [FIRST_CELL, SECOND_CELL];

// A view, batches, ship modes or none, and the cells, or nothing where the rows are refused as `BadLayout`.
type Group = (
    u16,
    &'static [&'static [Fact<'static>]],
    Option<&'static [&'static str]>,
    Option<&'static [Cell]>,
);

static GROUPS: [Group; 23] = [
    (248, &ONE, None, Some(&BY_DAY)),
    (248, &FIVE, None, Some(&BY_DAY)),
    (248, &[&[]], None, Some(&[])),
    // City of the customer and manufacturer, city of the supplier and manufacturer.
    (
        59,
        &ONE,
        None,
        Some(&[
            Cell {
                key: Key {
                    customer: 0,
                    part: 0,
                    ..EVERYWHERE
                },
                ..OF_TWO
            },
            Cell {
                key: Key {
                    customer: 1,
                    part: 0,
                    ..EVERYWHERE
                },
                ..OF_SECOND
            },
        ]),
    ),
    (
        203,
        &ONE,
        None,
        Some(&[
            Cell {
                key: Key {
                    supplier: 0,
                    part: 0,
                    ..EVERYWHERE
                },
                ..OF_TWO
            },
            Cell {
                key: Key {
                    supplier: 1,
                    part: 0,
                    ..EVERYWHERE
                },
                ..OF_SECOND
            },
        ]),
    ),
    // Nation of the customer and region of the supplier; region of the customer alone.
    (
        111,
        &ONE,
        None,
        Some(&[
            Cell {
                key: Key {
                    customer: 0,
                    supplier: 0,
                    ..EVERYWHERE
                },
                ..OF_TWO
            },
            Cell {
                key: Key {
                    customer: 1,
                    supplier: 1,
                    ..EVERYWHERE
                },
                ..OF_SECOND
            },
        ]),
    ),
    (
        191,
        &ONE,
        None,
        Some(&[
            Cell {
                key: Key {
                    customer: 0,
                    ..EVERYWHERE
                },
                ..OF_TWO
            },
            Cell {
                key: Key {
                    customer: 1,
                    ..EVERYWHERE
                },
                ..OF_SECOND
            },
        ]),
    ),
    (
        0,
        &[&[THIRD_FACT]],
        None,
        Some(&[Cell {
            key: Key {
                customer: 0,
                supplier: 0,
                part: 1,
                date: 1,
                ..EVERYWHERE
            },
            ..OF_THIRD
        }]),
    ),
    (
        85,
        &[&[THIRD_FACT]],
        None,
        Some(&[Cell {
            key: Key {
                customer: 0,
                supplier: 0,
                part: 1,
                date: 1,
                ..EVERYWHERE
            },
            ..OF_THIRD
        }]),
    ),
    (255, &[&[THIRD_FACT]], None, Some(&[OF_THIRD])),
    // The modes of the sample rows are AIR, RAIL and AIR: the last two are at the second day, in another order than
    // their codes.
    (
        504,
        &ONE,
        Some(&["RAIL", "AIR"]),
        Some(&[
            Cell {
                key: Key {
                    ship_mode: 1,
                    ..AT_FIRST_DAY
                },
                ..FIRST_CELL
            },
            Cell {
                key: Key {
                    ship_mode: 0,
                    ..AT_SECOND_DAY
                },
                ..OF_SECOND
            },
            Cell {
                key: Key {
                    ship_mode: 1,
                    ..AT_SECOND_DAY
                },
                ..OF_THIRD
            },
        ]),
    ),
    (
        511,
        &FIVE,
        Some(&["MAIL", "RAIL", "TRUCK", "AIR"]),
        Some(&[
            Cell {
                key: Key {
                    ship_mode: 1,
                    ..EVERYWHERE
                },
                ..OF_SECOND
            },
            Cell {
                key: Key {
                    ship_mode: 3,
                    ..EVERYWHERE
                },
                ..OF_TWO
            },
        ]),
    ),
    // Where the view does not group by ship mode they are not looked at.
    (248, &ONE, Some(&["AIR"]), Some(&BY_DAY)),
    // A sum that passes its type.
    (255, &[&FACTS, &[RICH]], None, None),
    (0, &[&FACTS, &[RICH]], None, None),
    (255, &[&FACTS, &[REDUCED]], None, None),
    // A supplier that is not there.
    (203, &[&FACTS, &[STRANGER]], None, None),
    (203, &[&FACTS, &[FIRST_FACT, STRANGER]], None, None),
    // By ship mode, without ship modes, or without those of the rows.
    (511, &[&FACTS, &[]], None, None),
    (511, &ONE, None, None),
    (511, &ONE, Some(&[]), None),
    (511, &ONE, Some(&["AIR"]), None),
    (504, &ONE, Some(&["RAIL", "AIR BAG"]), None),
];

// Whether rows are grouped so.
fn is_grouped(alloc: Global, dims: &Dims, group: &Group) -> Result<bool, Fault> {
    let (view, batches, modes, want) = *group;
    let modes = ship_modes(alloc, modes)?;
    Ok(
        match (grouped(alloc, dims, view, batches, modes.as_ref()), want) {
            (Ok(cells), Some(want)) => cells.as_slice() == want,
            (Err(fault), None) => fault == Fault::BadLayout,
            _ => false,
        },
    )
}

#[test]
fn groups_the_sample_rows(rt: HostRuntime) -> Result<(), Fail> {
    let dims = sample_dims(rt.alloc())?;
    for (place, group) in GROUPS.iter().enumerate() {
        assert!(rt;
            is_grouped(rt.alloc(), &dims, group) == Ok(true),
            "group {place}"
        );
    }
    Ok(())
}
