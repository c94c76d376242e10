//! A star of more pairs of a city and a brand than a cuboid may have cells.
ghost use Rattle.std.specs.Prelude.{◌≤◌, IfOk, length};
ghost use Rattle.cube_model.specs.Limits.{longest_text};
ghost use Rattle.cube_model.specs.Validity.{RowsHaveShortTexts, HaveShortTexts, HasShortTexts, customer_rules};
ghost use Rattle.cube_model.specs.Validity.{part_rules};

use crate::facts::{FIRST_FACT, Fact, line_order};
use crate::stars::{STAR, dim_rows, text};
use cube_model::{CustomerRow, DimRows, Fault, Items, LineOrder, PartRow, Text};
use std::alloc::Global;

/// How many customers there are, each in a city of its own, and how many parts, each of a brand of its own.
const MEMBERS: u32 = 513;

/// A text of its own for each number.
fn text_of(alloc: Global, number: u32) -> Result<Text, Fault>
    ensures { IfOk result (λ kept. length kept ≤ longest_text) }
{
    let bytes = u32::to_le_bytes(number);
    Ok(Items::from_vec(Vec::from_slice(alloc, &bytes)?))
}

fn customer(alloc: Global, key: u32) -> Result<CustomerRow, Fault>
    ensures { IfOk result (HasShortTexts customer_rules) }
{
    let city = text_of(alloc, key)?;
    let nation = text(alloc, "FRANCE")?;
    let region = text(alloc, "EUROPE")?;
    Ok(CustomerRow {
        key,
        city,
        nation,
        region,
    })
}

fn part(alloc: Global, key: u32) -> Result<PartRow, Fault>
    ensures { IfOk result (HasShortTexts part_rules) }
{
    let brand1 = text_of(alloc, key)?;
    let category = text(alloc, "MFGR#11")?;
    let mfgr = text(alloc, "MFGR#1")?;
    Ok(PartRow {
        key,
        brand1,
        category,
        mfgr,
    })
}

#[tactic(auto, using(crate::proofs::ShortRows::all_with_one_more))]
fn customers(alloc: Global) -> Result<Items<CustomerRow>, Fault>
    ensures { IfOk result (RowsHaveShortTexts customer_rules) }
{
    let mut rows = Items::new(alloc);
    for key in 0..MEMBERS {
        rows.push(customer(alloc, key)?)?;
    }
    Ok(rows)
}

#[tactic(auto, using(crate::proofs::ShortRows::all_with_one_more))]
fn parts(alloc: Global) -> Result<Items<PartRow>, Fault>
    ensures { IfOk result (RowsHaveShortTexts part_rules) }
{
    let mut rows = Items::new(alloc);
    for key in 0..MEMBERS {
        rows.push(part(alloc, key)?)?;
    }
    Ok(rows)
}

/// 513 customers, each in a city of its own, and 513 parts, each of a brand of its own, with keys from 0, besides the
/// sample suppliers and days: 263,169 pairs of a city and a brand, where a cuboid has at most 262,144 cells. Only
/// memory can fail.
pub fn rows_of_pairs(alloc: Global) -> Result<DimRows, Fault>
    ensures { IfOk result HaveShortTexts }
{
    let mut rows = dim_rows(alloc, &STAR)?;
    rows.customers = customers(alloc)?;
    rows.parts = parts(alloc)?;
    Ok(rows)
}

/// So many fact rows over these, each the first sample row but for its customer and part: those of the pairs from a
/// number on, of which the first 513 have the first customer. Only memory can fail.
pub fn pairs(alloc: Global, first: u32, count: u32) -> Result<Vec<LineOrder>, Fault> {
    let mut rows = Vec::with_capacity(alloc, count as usize)?;
    for place in 0..count {
        let pair = first.saturating_add(place);
        let fact = Fact {
            custkey: pair / MEMBERS,
            partkey: pair % MEMBERS,
            ..FIRST_FACT
        };
        rows.push(line_order(alloc, &fact)?)?;
    }
    Ok(rows)
}
