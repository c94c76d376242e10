//! Cells by hand, what is offered to folds, and the bytes of cells.

use cube_model::Fault;
use cuboid_cells::Cells;
use lattice::View;
use sample_star::{Asked, Fact};
use std::alloc::Global;

/// The code on an axis that a view does not group.
pub const ALL: u16 = 65_535;

/// What is kept of some rows: the sum of each measure, its least number and its greatest.
#[derive(Clone, Copy)]
pub struct Kept {
    pub quantity: [i64; 3],
    pub extendedprice: [i64; 3],
    pub revenue: [i64; 3],
    pub supplycost: [i64; 3],
    pub discounted: [i64; 3],
    pub profit: [i64; 3],
}

/// A cell by hand: the codes of a customer, a supplier, a part, a day and a ship mode, and how many rows it represents.
#[derive(Clone, Copy)]
pub struct Written {
    pub codes: [u16; 5],
    pub count: u64,
    pub kept: Kept,
}

/// Cells of a view that are offered to a fold, whether the modes of the sample rows are given with them, and whether
/// the fold takes them.
#[derive(Clone, Copy)]
pub struct Offer {
    pub view: u16,
    pub cells: &'static [Written],
    pub with_modes: bool,
    pub is_taken: bool,
}

/// A query, rows that are counted in first, cells that are offered then, and the lines of the answer.
pub struct Case {
    pub asked: Asked<'static>,
    pub before: &'static [Fact<'static>],
    pub offers: &'static [Offer],
    pub lines: &'static str,
}

/// What is kept of the first sample row, of the second, and of the third.
pub const FIRST: Kept = Kept {
    quantity: [17, 17, 17],
    extendedprice: [1000, 1000, 1000],
    revenue: [980, 980, 980],
    supplycost: [600, 600, 600],
    discounted: [2000, 2000, 2000],
    profit: [380, 380, 380],
};

pub const SECOND: Kept = Kept {
    quantity: [24, 24, 24],
    extendedprice: [2000, 2000, 2000],
    revenue: [1940, 1940, 1940],
    supplycost: [2000, 2000, 2000],
    discounted: [6000, 6000, 6000],
    profit: [-60, -60, -60],
};

pub const THIRD: Kept = Kept {
    quantity: [25, 25, 25],
    extendedprice: [500, 500, 500],
    revenue: [495, 495, 495],
    supplycost: [100, 100, 100],
    discounted: [500, 500, 500],
    profit: [395, 395, 395],
};

/// Of the second row and the third together.
pub const LAST_TWO: Kept = Kept {
    quantity: [49, 24, 25],
    extendedprice: [2500, 500, 2000],
    revenue: [2435, 495, 1940],
    supplycost: [2100, 100, 2000],
    discounted: [6500, 500, 6000],
    profit: [335, -60, 395],
};

/// The first row, alone at its day, and the others, which share one: the cells by manufacturer and day.
pub const FIRST_DAY: Written = Written {
    codes: [ALL, ALL, 0, 0, ALL],
    count: 1,
    kept: FIRST,
};

pub const SECOND_DAY: Written = Written {
    codes: [ALL, ALL, 0, 1, ALL],
    count: 2,
    kept: LAST_TWO,
};

/// The third row alone at its day.
pub const THIRD_ALONE: Written = Written {
    codes: [ALL, ALL, 0, 1, ALL],
    count: 1,
    kept: THIRD,
};

/// No cell by manufacturer and day.
pub const NONE: Offer = Offer {
    view: 248,
    cells: &[],
    with_modes: false,
    is_taken: true,
};

/// The sample rows by manufacturer and day.
pub const SAMPLE: Offer = Offer {
    cells: &[FIRST_DAY, SECOND_DAY],
    ..NONE
};

pub const FIRST_ALONE: Offer = Offer {
    cells: &[FIRST_DAY],
    ..NONE
};

/// No cell by manufacturer and day, refused.
pub const REFUSED: Offer = Offer {
    is_taken: false,
    ..NONE
};

fn push_numbers(out: &mut Vec<u8>, numbers: &[i64; 3]) -> Result<(), Fault> {
    for number in numbers {
        out.extend_from_slice(&number.to_le_bytes())?;
    }
    Ok(())
}

fn push_kept(out: &mut Vec<u8>, kept: &Kept) -> Result<(), Fault> {
    push_numbers(out, &kept.quantity)?;
    push_numbers(out, &kept.extendedprice)?;
    push_numbers(out, &kept.revenue)?;
    push_numbers(out, &kept.supplycost)?;
    push_numbers(out, &kept.discounted)?;
    push_numbers(out, &kept.profit)
}

// Adds a cell with so many codes.
fn push_cell(out: &mut Vec<u8>, codes: usize, cell: &Written) -> Result<(), Fault> {
    for code in cell.codes.iter().take(codes) {
        out.extend_from_slice(&code.to_le_bytes())?;
    }
    out.extend_from_slice(&cell.count.to_le_bytes())?;
    push_kept(out, &cell.kept)
}

// Adds the run of cells over the first batch. Those of a view that groups by ship mode have a fifth code.
fn push_run(out: &mut Vec<u8>, offer: &Offer) -> Result<(), Fault> {
    let is_by_mode = offer.view >= 256;
    let name: &[u8] = if is_by_mode { b"CEL2" } else { b"CEL1" };
    let codes = if is_by_mode { 5 } else { 4 };
    let count = u32::try_from(offer.cells.len()).unwrap_or(0);
    out.extend_from_slice(name)?;
    for number in [u32::from(offer.view), 0, 1, count] {
        out.extend_from_slice(&number.to_le_bytes())?;
    }
    for cell in offer.cells {
        push_cell(out, codes, cell)?;
    }
    Ok(())
}

fn no_cells(alloc: Global, index: u16) -> Result<Cells, Fault> {
    match View::new(index) {
        Some(view) => Ok(Cells::empty(alloc, view)),
        None => Err(Fault::BadQuery),
    }
}

/// The cells of an offer.
pub fn cells_of(alloc: Global, offer: &Offer) -> Result<Cells, Fault> {
    if offer.cells.is_empty() {
        return no_cells(alloc, offer.view);
    }
    let mut bytes = Vec::new(alloc);
    push_run(&mut bytes, offer)?;
    let (_, cells) = Cells::decode(alloc, bytes.as_slice())?;
    Ok(cells)
}
