//! Dimension rows, as constants can hold them.
ghost use Rattle.std.specs.Prelude.{◌≤◌, IfOk, length};
ghost use Rattle.cube_model.specs.Limits.{longest_text};
ghost use Rattle.cube_model.specs.Validity.{RowsHaveShortTexts, HaveShortTexts, HasShortTexts, customer_rules};
ghost use Rattle.cube_model.specs.Validity.{supplier_rules};
ghost use Rattle.cube_model.specs.Validity.{part_rules, date_rules};

use cube_model::limits::LONGEST_TEXT;
use cube_model::{CustomerRow, DateRow, DimRows, Fault, Items, PartRow, SupplierRow, Text};
use std::alloc::Global;

/// A row of customers or suppliers.
#[derive(Clone, Copy)]
pub struct Location<'a> {
    pub key: u32,
    pub city: &'a str,
    pub nation: &'a str,
    pub region: &'a str,
}

/// A row of parts.
#[derive(Clone, Copy)]
pub struct Product<'a> {
    pub key: u32,
    pub brand1: &'a str,
    pub category: &'a str,
    pub mfgr: &'a str,
}

/// A row of days.
#[derive(Clone, Copy)]
pub struct Day<'a> {
    pub key: u32,
    pub year: &'a str,
    pub yearmonthnum: &'a str,
    pub yearmonth: &'a str,
    pub weeknuminyear: &'a str,
}

/// The rows of the four dimensions.
#[derive(Clone, Copy)]
pub struct Star<'a> {
    pub customers: &'a [Location<'a>],
    pub suppliers: &'a [Location<'a>],
    pub parts: &'a [Product<'a>],
    pub dates: &'a [Day<'a>],
}

/// The first sample customer, of Europe.
pub const FIRST_CUSTOMER: Location<'static> = Location {
    key: 1,
    city: "UNITED KI1",
    nation: "UNITED KINGDOM",
    region: "EUROPE",
};

/// The second sample customer, of America.
const SECOND_CUSTOMER: Location<'static> = Location {
    key: 2,
    city: "UNITED ST3",
    nation: "UNITED STATES",
    region: "AMERICA",
};

/// A third customer, of a new city in the nation of the second.
pub const THIRD_CUSTOMER: Location<'static> = Location {
    key: 3,
    city: "UNITED ST1",
    ..SECOND_CUSTOMER
};

/// A customer whose city is of another nation in the sample.
pub const MOVED_CUSTOMER: Location<'static> = Location {
    key: 4,
    city: "UNITED KI1",
    ..SECOND_CUSTOMER
};

/// The first sample supplier, of Europe.
pub const FIRST_SUPPLIER: Location<'static> = Location {
    city: "UNITED KI5",
    ..FIRST_CUSTOMER
};

/// The first sample part.
pub const FIRST_PART: Product<'static> = Product {
    key: 1,
    brand1: "MFGR#1210",
    category: "MFGR#12",
    mfgr: "MFGR#1",
};

/// The first sample day, of January 1993.
pub const FIRST_DAY: Day<'static> = Day {
    key: 19930105,
    year: "1993",
    yearmonthnum: "199301",
    yearmonth: "Jan1993",
    weeknuminyear: "1",
};

/// The dimension rows of the sample texts: two customers, two suppliers, two parts and two days.
pub const STAR: Star<'static> = Star {
    customers: &[FIRST_CUSTOMER, SECOND_CUSTOMER],
    suppliers: &[
        FIRST_SUPPLIER,
        Location {
            key: 2,
            city: "UNITED ST0",
            nation: "UNITED STATES",
            region: "AMERICA",
        },
    ],
    parts: &[
        FIRST_PART,
        Product {
            key: 2,
            brand1: "MFGR#142",
            category: "MFGR#14",
            mfgr: "MFGR#1",
        },
    ],
    dates: &[
        FIRST_DAY,
        Day {
            key: 19971202,
            year: "1997",
            yearmonthnum: "199712",
            yearmonth: "Dec1997",
            weeknuminyear: "49",
        },
    ],
};

/// The same with the third customer.
pub const WIDER_STAR: Star<'static> = Star {
    customers: &[FIRST_CUSTOMER, SECOND_CUSTOMER, THIRD_CUSTOMER],
    ..STAR
};

/// No row of any dimension.
pub const NO_ROWS: Star<'static> = Star {
    customers: &[],
    suppliers: &[],
    parts: &[],
    dates: &[],
};

/// The third customer alone.
pub const ONE_CUSTOMER: Star<'static> = Star {
    customers: &[THIRD_CUSTOMER],
    ..NO_ROWS
};

/// A text as a value, of which more than 255 bytes are cut off. Only memory can fail.
pub fn text(alloc: Global, text: &str) -> Result<Text, Fault>
    ensures { IfOk result (λ kept. length kept ≤ longest_text) }
{
    let bytes = text.as_bytes();
    let count = bytes.len().min(LONGEST_TEXT);
    Ok(Items::from_vec(Vec::from_slice(alloc, &bytes[..count])?))
}

// A row of customers as a value.
fn customer_row(alloc: Global, row: &Location<'_>) -> Result<CustomerRow, Fault>
    ensures { IfOk result (HasShortTexts customer_rules) }
{
    let city = text(alloc, row.city)?;
    let nation = text(alloc, row.nation)?;
    let region = text(alloc, row.region)?;
    Ok(CustomerRow {
        key: row.key,
        city,
        nation,
        region,
    })
}

// A row of suppliers as a value.
fn supplier_row(alloc: Global, row: &Location<'_>) -> Result<SupplierRow, Fault>
    ensures { IfOk result (HasShortTexts supplier_rules) }
{
    let city = text(alloc, row.city)?;
    let nation = text(alloc, row.nation)?;
    let region = text(alloc, row.region)?;
    Ok(SupplierRow {
        key: row.key,
        city,
        nation,
        region,
    })
}

// A row of parts as a value.
fn part_row(alloc: Global, row: &Product<'_>) -> Result<PartRow, Fault>
    ensures { IfOk result (HasShortTexts part_rules) }
{
    let brand1 = text(alloc, row.brand1)?;
    let category = text(alloc, row.category)?;
    let mfgr = text(alloc, row.mfgr)?;
    Ok(PartRow {
        key: row.key,
        brand1,
        category,
        mfgr,
    })
}

// A row of days as a value.
fn date_row(alloc: Global, row: &Day<'_>) -> Result<DateRow, Fault>
    ensures { IfOk result (HasShortTexts date_rules) }
{
    let year = text(alloc, row.year)?;
    let yearmonthnum = text(alloc, row.yearmonthnum)?;
    let yearmonth = text(alloc, row.yearmonth)?;
    let weeknuminyear = text(alloc, row.weeknuminyear)?;
    Ok(DateRow {
        key: row.key,
        year,
        yearmonthnum,
        yearmonth,
        weeknuminyear,
    })
}

#[tactic(auto, using(crate::proofs::ShortRows::all_with_one_more))]
fn customers(alloc: Global, given: &[Location<'_>]) -> Result<Items<CustomerRow>, Fault>
    ensures { IfOk result (RowsHaveShortTexts customer_rules) }
{
    let mut rows = Items::new(alloc);
    for row in given {
        rows.push(customer_row(alloc, row)?)?;
    }
    Ok(rows)
}

#[tactic(auto, using(crate::proofs::ShortRows::all_with_one_more))]
fn suppliers(alloc: Global, given: &[Location<'_>]) -> Result<Items<SupplierRow>, Fault>
    ensures { IfOk result (RowsHaveShortTexts supplier_rules) }
{
    let mut rows = Items::new(alloc);
    for row in given {
        rows.push(supplier_row(alloc, row)?)?;
    }
    Ok(rows)
}

#[tactic(auto, using(crate::proofs::ShortRows::all_with_one_more))]
fn parts(alloc: Global, given: &[Product<'_>]) -> Result<Items<PartRow>, Fault>
    ensures { IfOk result (RowsHaveShortTexts part_rules) }
{
    let mut rows = Items::new(alloc);
    for row in given {
        rows.push(part_row(alloc, row)?)?;
    }
    Ok(rows)
}

#[tactic(auto, using(crate::proofs::ShortRows::all_with_one_more))]
fn dates(alloc: Global, given: &[Day<'_>]) -> Result<Items<DateRow>, Fault>
    ensures { IfOk result (RowsHaveShortTexts date_rules) }
{
    let mut rows = Items::new(alloc);
    for row in given {
        rows.push(date_row(alloc, row)?)?;
    }
    Ok(rows)
}

/// The rows of a star as values, each list in its order. Only memory can fail.
pub fn dim_rows(alloc: Global, star: &Star<'_>) -> Result<DimRows, Fault>
    ensures { IfOk result HaveShortTexts }
{
    let customers = customers(alloc, star.customers)?;
    let suppliers = suppliers(alloc, star.suppliers)?;
    let parts = parts(alloc, star.parts)?;
    let dates = dates(alloc, star.dates)?;
    Ok(DimRows {
        customers,
        suppliers,
        parts,
        dates,
    })
}
