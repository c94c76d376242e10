//! Cells of the sample star, and their runs.
use cube_model::Fault;
use cuboid_cells::{Cell, Cells, Key, Summaries, Summary};
use std::alloc::Global;
use wire::{push_bytes, push_i64, push_u16, push_u32, push_u64};

// The run of the first batch, whose rows are the three of the sample star, by manufacturer and day: view 248. The first
// row is alone at its day, the others share one.
pub(crate) const SPELLED: [u8; 340] = [
    0x43, 0x45, 0x4c, 0x31, 0xf8, 0x00, 0x00, 0x00, 0x00, 0x00, 0x00, 0x00, 0x01, 0x00, 0x00, 0x00,
    0x02, 0x00, 0x00, 0x00, 0xff, 0xff, 0xff, 0xff, 0x00, 0x00, 0x00, 0x00, 0x01, 0x00, 0x00, 0x00,
    0x00, 0x00, 0x00, 0x00, 0x11, 0x00, 0x00, 0x00, 0x00, 0x00, 0x00, 0x00, 0x11, 0x00, 0x00, 0x00,
    0x00, 0x00, 0x00, 0x00, 0x11, 0x00, 0x00, 0x00, 0x00, 0x00, 0x00, 0x00, 0xe8, 0x03, 0x00, 0x00,
    0x00, 0x00, 0x00, 0x00, 0xe8, 0x03, 0x00, 0x00, 0x00, 0x00, 0x00, 0x00, 0xe8, 0x03, 0x00, 0x00,
    0x00, 0x00, 0x00, 0x00, 0xd4, 0x03, 0x00, 0x00, 0x00, 0x00, 0x00, 0x00, 0xd4, 0x03, 0x00, 0x00,
    0x00, 0x00, 0x00, 0x00, 0xd4, 0x03, 0x00, 0x00, 0x00, 0x00, 0x00, 0x00, 0x58, 0x02, 0x00, 0x00,
    0x00, 0x00, 0x00, 0x00, 0x58, 0x02, 0x00, 0x00, 0x00, 0x00, 0x00, 0x00, 0x58, 0x02, 0x00, 0x00,
    0x00, 0x00, 0x00, 0x00, 0xd0, 0x07, 0x00, 0x00, 0x00, 0x00, 0x00, 0x00, 0xd0, 0x07, 0x00, 0x00,
    0x00, 0x00, 0x00, 0x00, 0xd0, 0x07, 0x00, 0x00, 0x00, 0x00, 0x00, 0x00, 0x7c, 0x01, 0x00, 0x00,
    0x00, 0x00, 0x00, 0x00, 0x7c, 0x01, 0x00, 0x00, 0x00, 0x00, 0x00, 0x00, 0x7c, 0x01, 0x00, 0x00,
    0x00, 0x00, 0x00, 0x00, 0xff, 0xff, 0xff, 0xff, 0x00, 0x00, 0x01, 0x00, 0x02, 0x00, 0x00, 0x00,
    0x00, 0x00, 0x00, 0x00, 0x31, 0x00, 0x00, 0x00, 0x00, 0x00, 0x00, 0x00, 0x18, 0x00, 0x00, 0x00,
    0x00, 0x00, 0x00, 0x00, 0x19, 0x00, 0x00, 0x00, 0x00, 0x00, 0x00, 0x00, 0xc4, 0x09, 0x00, 0x00,
    0x00, 0x00, 0x00, 0x00, 0xf4, 0x01, 0x00, 0x00, 0x00, 0x00, 0x00, 0x00, 0xd0, 0x07, 0x00, 0x00,
    0x00, 0x00, 0x00, 0x00, 0x83, 0x09, 0x00, 0x00, 0x00, 0x00, 0x00, 0x00, 0xef, 0x01, 0x00, 0x00,
    0x00, 0x00, 0x00, 0x00, 0x94, 0x07, 0x00, 0x00, 0x00, 0x00, 0x00, 0x00, 0x34, 0x08, 0x00, 0x00,
    0x00, 0x00, 0x00, 0x00, 0x64, 0x00, 0x00, 0x00, 0x00, 0x00, 0x00, 0x00, 0xd0, 0x07, 0x00, 0x00,
    0x00, 0x00, 0x00, 0x00, 0x64, 0x19, 0x00, 0x00, 0x00, 0x00, 0x00, 0x00, 0xf4, 0x01, 0x00, 0x00,
    0x00, 0x00, 0x00, 0x00, 0x70, 0x17, 0x00, 0x00, 0x00, 0x00, 0x00, 0x00, 0x4f, 0x01, 0x00, 0x00,
    0x00, 0x00, 0x00, 0x00, 0xc4, 0xff, 0xff, 0xff, 0xff, 0xff, 0xff, 0xff, 0x8b, 0x01, 0x00, 0x00,
    0x00, 0x00, 0x00, 0x00,
];

// What is kept of the first row, the second, the third, and of the last two together.
pub(crate) const FIRST: Summaries = Summaries {
    quantity: Summary {
        sum: 17,
        least: 17,
        greatest: 17,
    },
    extendedprice: Summary {
        sum: 1000,
        least: 1000,
        greatest: 1000,
    },
    revenue: Summary {
        sum: 980,
        least: 980,
        greatest: 980,
    },
    supplycost: Summary {
        sum: 600,
        least: 600,
        greatest: 600,
    },
    discounted: Summary {
        sum: 2000,
        least: 2000,
        greatest: 2000,
    },
    profit: Summary {
        sum: 380,
        least: 380,
        greatest: 380,
    },
};

pub(crate) const SECOND: Summaries = Summaries {
    quantity: Summary {
        sum: 24,
        least: 24,
        greatest: 24,
    },
    extendedprice: Summary {
        sum: 2000,
        least: 2000,
        greatest: 2000,
    },
    revenue: Summary {
        sum: 1940,
        least: 1940,
        greatest: 1940,
    },
    supplycost: Summary {
        sum: 2000,
        least: 2000,
        greatest: 2000,
    },
    discounted: Summary {
        sum: 6000,
        least: 6000,
        greatest: 6000,
    },
    profit: Summary {
        sum: -60,
        least: -60,
        greatest: -60,
    },
};

pub(crate) const THIRD: Summaries = Summaries {
    quantity: Summary {
        sum: 25,
        least: 25,
        greatest: 25,
    },
    extendedprice: Summary {
        sum: 500,
        least: 500,
        greatest: 500,
    },
    revenue: Summary {
        sum: 495,
        least: 495,
        greatest: 495,
    },
    supplycost: Summary {
        sum: 100,
        least: 100,
        greatest: 100,
    },
    discounted: Summary {
        sum: 500,
        least: 500,
        greatest: 500,
    },
    profit: Summary {
        sum: 395,
        least: 395,
        greatest: 395,
    },
};

pub(crate) const LAST_TWO: Summaries = Summaries {
    quantity: Summary {
        sum: 49,
        least: 24,
        greatest: 25,
    },
    extendedprice: Summary {
        sum: 2500,
        least: 500,
        greatest: 2000,
    },
    revenue: Summary {
        sum: 2435,
        least: 495,
        greatest: 1940,
    },
    supplycost: Summary {
        sum: 2100,
        least: 100,
        greatest: 2000,
    },
    discounted: Summary {
        sum: 6500,
        least: 500,
        greatest: 6000,
    },
    profit: Summary {
        sum: 335,
        least: -60,
        greatest: 395,
    },
};

// The key of the one manufacturer at the first day.
pub(crate) const AT_FIRST_DAY: Key = Key {
    customer: 65_535,
    supplier: 65_535,
    part: 0,
    date: 0,
    ship_mode: 65_535,
};

// The second day.
pub(crate) const AT_SECOND_DAY: Key = Key {
    date: 1,
    ..AT_FIRST_DAY
};

// The cell of the first row, and that of the others.
pub(crate) const FIRST_CELL: Cell = Cell {
    key: AT_FIRST_DAY,
    count: 1,
    measures: FIRST,
};

pub(crate) const SECOND_CELL: Cell = Cell {
    key: AT_SECOND_DAY,
    count: 2,
    measures: LAST_TWO,
};

// The run over the first batch of cells of a view that does not group by ship mode.
pub(crate) fn run(alloc: Global, view: u32, cells: &[Cell]) -> Result<Vec<u8>, Fault> {
    let Ok(count) = u32::try_from(cells.len()) else {
        return Err(Fault::BadLayout);
    };
    let mut out = Vec::new(alloc);
    push_bytes(&mut out, b"CEL1")?;
    for number in [view, 0, 1, count] {
        push_u32(&mut out, number)?;
    }
    for cell in cells {
        push_cell(&mut out, cell)?;
    }
    Ok(out)
}

fn push_cell(out: &mut Vec<u8>, cell: &Cell) -> Result<(), Fault> {
    let key = cell.key;
    for code in [key.customer, key.supplier, key.part, key.date] {
        push_u16(out, code)?;
    }
    push_u64(out, cell.count)?;
    let of = cell.measures;
    for summary in [
        of.quantity,
        of.extendedprice,
        of.revenue,
        of.supplycost,
        of.discounted,
        of.profit,
    ] {
        push_summary(out, summary)?;
    }
    Ok(())
}

fn push_summary(out: &mut Vec<u8>, summary: Summary) -> Result<(), Fault> {
    for number in [summary.sum, summary.least, summary.greatest] {
        push_i64(out, number)?;
    }
    Ok(())
}

// The cells of a view that does not group by ship mode.
pub(crate) fn cells_of(alloc: Global, view: u32, cells: &[Cell]) -> Result<Cells, Fault> {
    let bytes = run(alloc, view, cells)?;
    let (_, cells) = Cells::decode(alloc, &bytes)?;
    Ok(cells)
}
