//! What a warehouse answers by ship mode.
use cube_model::{Agg, Fault, Items, Kind, Measure, Query, Value};
use mode_queries::ModeQuery;
use sector_device::Sectors;
use ssb_reports::Lines;
use std::alloc::Global;
use warehouse::Session;
use warehouse_jobs::answered;

/// A ship mode, and the revenue of its rows.
pub type Revenue = (&'static str, i64);

/// The query: the revenue of each ship mode.
fn asked(alloc: Global) -> Result<ModeQuery, Fault> {
    let mut aggregates = Items::new(alloc);
    aggregates.push(Agg::Sum(Measure::Revenue))?;
    let query = Query {
        kind: Kind::Plain,
        columns: Items::new(alloc),
        conditions: Items::new(alloc),
        aggregates,
        order: None,
    };
    Ok(ModeQuery {
        query,
        place: Some(0),
        conditions: Items::new(alloc),
    })
}

/// Whether a line of an answer is that of a ship mode and its revenue.
fn is_line<L: Lines>(lines: &L, place: usize, wanted: Revenue) -> bool {
    let (mode, revenue) = wanted;
    place < lines.count()
        && lines.columns(place) == 1
        && lines.values(place) == 1
        && lines.text(place, 0) == Some(mode.as_bytes())
        && lines.value(place, 0) == Value::Whole(revenue)
}

/// Whether lines are those of ship modes and their revenues.
fn are_lines<L: Lines>(lines: &L, wanted: &[Revenue]) -> bool {
    lines.count() == wanted.len()
        && wanted
            .iter()
            .enumerate()
            .all(|(place, one)| is_line(lines, place, *one))
}

/// Whether a session answers to the revenue of each ship mode over its first batches that it is these.
pub fn has_revenues<D: Sectors>(
    alloc: Global,
    session: &mut Session<D>,
    as_of: u32,
    wanted: &[Revenue],
) -> Result<bool, Fault> {
    let found = answered(alloc, session, as_of, &asked(alloc)?)?;
    Ok(are_lines(&found.lines(), wanted))
}
