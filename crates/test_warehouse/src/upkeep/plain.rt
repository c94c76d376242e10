//! Rows of a star of several members on each level, and the plain counts of their groups.
use cube_model::Fault;
use sample_star::{Day, Draw, FIRST_DAY, FIRST_FACT, FIRST_PART, Fact, Location, Product, Star};
use std::alloc::Global;

/// Five cities in four nations of two regions: keys 1 and 6 have the same city.
const LOCATIONS: [Location<'static>; 6] = [
    Location {
        key: 1,
        city: "UNITED KI1",
        nation: "UNITED KINGDOM",
        region: "EUROPE",
    },
    Location {
        key: 2,
        city: "UNITED KI5",
        nation: "UNITED KINGDOM",
        region: "EUROPE",
    },
    Location {
        key: 3,
        city: "FRANCE   1",
        nation: "FRANCE",
        region: "EUROPE",
    },
    Location {
        key: 4,
        city: "UNITED ST3",
        nation: "UNITED STATES",
        region: "AMERICA",
    },
    Location {
        key: 5,
        city: "PERU     2",
        nation: "PERU",
        region: "AMERICA",
    },
    Location {
        key: 6,
        city: "UNITED KI1",
        nation: "UNITED KINGDOM",
        region: "EUROPE",
    },
];

/// Four brands in three categories of two manufacturers: keys 1 and 5 have the same brand.
const PARTS: [Product<'static>; 5] = [
    FIRST_PART,
    Product {
        key: 2,
        brand1: "MFGR#1211",
        ..FIRST_PART
    },
    Product {
        key: 3,
        brand1: "MFGR#142",
        category: "MFGR#14",
        ..FIRST_PART
    },
    Product {
        key: 4,
        brand1: "MFGR#2221",
        category: "MFGR#22",
        mfgr: "MFGR#2",
    },
    Product {
        key: 5,
        ..FIRST_PART
    },
];

/// Five days in four months of two years.
const DAYS: [Day<'static>; 5] = [
    FIRST_DAY,
    Day {
        key: 19930106,
        ..FIRST_DAY
    },
    Day {
        key: 19930210,
        yearmonthnum: "199302",
        yearmonth: "Feb1993",
        weeknuminyear: "6",
        ..FIRST_DAY
    },
    Day {
        key: 19971201,
        year: "1997",
        yearmonthnum: "199712",
        yearmonth: "Dec1997",
        weeknuminyear: "49",
    },
    Day {
        key: 19971105,
        year: "1997",
        yearmonthnum: "199711",
        yearmonth: "Nov1997",
        weeknuminyear: "45",
    },
];

/// The dimensions.
pub(crate) const SEVERAL: Star<'static> = Star {
    customers: &LOCATIONS,
    suppliers: &LOCATIONS,
    parts: &PARTS,
    dates: &DAYS,
};

/// A row: its batch, and its members on each axis.
#[derive(Clone, Copy)]
pub(crate) struct Row {
    pub(crate) batch: u32,
    customer: Location<'static>,
    supplier: Location<'static>,
    part: Product<'static>,
    date: Day<'static>,
    revenue: u64,
}

/// A random row of a batch.
pub(crate) fn draw_row(draw: &mut Draw, batch: u32) -> Row {
    Row {
        batch,
        customer: *draw.pick(&LOCATIONS).unwrap_or(&LOCATIONS[0]),
        supplier: *draw.pick(&LOCATIONS).unwrap_or(&LOCATIONS[0]),
        part: *draw.pick(&PARTS).unwrap_or(&PARTS[0]),
        date: *draw.pick(&DAYS).unwrap_or(&DAYS[0]),
        revenue: draw.money(1_000_000),
    }
}

impl Row {
    /// The row as a fact row.
    pub(crate) fn fact(&self) -> Fact<'static> {
        Fact {
            custkey: self.customer.key,
            suppkey: self.supplier.key,
            partkey: self.part.key,
            orderdate: self.date.key,
            revenue: self.revenue,
            ..FIRST_FACT
        }
    }
}

/// The members by which a view groups a row. A text is empty, and the day 0, where the view does not group by it.
#[derive(Clone, Copy, PartialEq)]
struct Group {
    customer: &'static str,
    supplier: &'static str,
    part: &'static str,
    date: &'static str,
    day: u32,
}

fn location_at(row: &Location<'static>, height: u16) -> &'static str {
    match height {
        0 => row.city,
        1 => row.nation,
        2 => row.region,
        _ => "",
    }
}

fn part_at(row: &Product<'static>, height: u16) -> &'static str {
    match height {
        0 => row.brand1,
        1 => row.category,
        2 => row.mfgr,
        _ => "",
    }
}

fn month_or_year_at(row: &Day<'static>, height: u16) -> &'static str {
    match height {
        1 => row.yearmonthnum,
        2 => row.year,
        _ => "",
    }
}

/// The group of a row in the view of a number below 256.
fn group_of(row: &Row, view: u16) -> Group {
    Group {
        customer: location_at(&row.customer, view / 64),
        supplier: location_at(&row.supplier, view / 16 % 4),
        part: part_at(&row.part, view / 4 % 4),
        date: month_or_year_at(&row.date, view % 4),
        day: if view % 4 == 0 { row.date.key } else { 0 },
    }
}

/// In how many groups of a view the rows of the batches after some of them are.
pub(crate) fn groups(alloc: Global, rows: &[Row], view: u16, after: u32) -> Result<u32, Fault> {
    let mut found = Vec::new(alloc);
    let mut count: u32 = 0;
    for row in rows {
        let group = group_of(row, view);
        if after < row.batch && !found.contains(&group) {
            found.push(group)?;
            count = count.saturating_add(1);
        }
    }
    Ok(count)
}
