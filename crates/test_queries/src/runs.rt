//! Runs of many cells, counted into folds as they are read. The answers were worked out by hand: each row is the first
//! sample row but for its customer and part.
ghost use Rattle.std.specs.Prelude.{◌≡◌};
ghost use Rattle.cube_query.specs.Groups.{IsOver};

use super::printing::{has_lines, report_of};
use cube_model::{Agg, Attr, Fault, Measure, Query};
use cube_query::Fold;
use cuboid_cells::{Cells, RunReader, Span};
use cuboid_upkeep::GrowingCells;
use dimensions::Dims;
use group_numbers::RowSlice;
use lattice::View;
use sample_star::{Asked, Condition, EVERY_ROW, pairs, query, rows_of_pairs};
use std::alloc::Global;
use wire::{SliceSource, Source};

/// The rows: 40 cities with 513 brands each. The cells of a city are more than a piece.
const PAIRS: u32 = 20_520;

/// The most rows of a batch.
const MOST: usize = 65_536;

/// The rows of a region and their revenue.
const BY_REGION: Asked<'static> = Asked {
    columns: &[Attr::CustomerRegion],
    aggregates: &[Agg::Count, Agg::Sum(Measure::Revenue)],
    ..EVERY_ROW
};

/// Conditions on customers, by whose cities the cells ascend, and the lines of the answer.
static CASES: [(&[Condition], &str); 5] = [
    (&[], "EUROPE|20520|20109600\nrows 1\n"),
    // Cities after one another, and apart from each other.
    (
        &[Condition::OneOf(Attr::CustomerCity, &["\u{13}\0\0\0", "\u{14}\0\0\0"])],
        "EUROPE|1026|1005480\nrows 1\n",
    ),
    (
        &[Condition::OneOf(
            Attr::CustomerCity,
            &["\u{27}\0\0\0", "\0\0\0\0", "\u{13}\0\0\0", "PARIS"],
        )],
        "EUROPE|1539|1508220\nrows 1\n",
    ),
    (
        &[Condition::OneOf(Attr::CustomerCity, &["PARIS"])],
        "rows 0\n",
    ),
    // A brand of each city.
    (
        &[Condition::OneOf(Attr::PartBrand1, &["\u{7}\0\0\0"])],
        "EUROPE|40|39200\nrows 1\n",
    ),
];

fn dims_of_pairs(alloc: Global) -> Result<Dims, Fault> {
    let rows = rows_of_pairs(alloc)?;
    Dims::build(alloc, &rows)
}

/// The cells of the rows in a view.
fn cells_in(alloc: Global, dims: &Dims, view: View) -> Result<Cells, Fault> {
    let rows = pairs(alloc, 0, PAIRS)?;
    if rows.len() > MOST {
        return Err(Fault::TooManyRows);
    }
    let mut cells = GrowingCells::new(alloc, dims, view)?;
    cells.add_rows(alloc, dims, &RowSlice(rows.as_slice()), None)?;
    cells.finish(alloc)
}

/// The run of their cells by city and brand.
fn run_of(alloc: Global, dims: &Dims) -> Result<Vec<u8>, Fault> {
    let view = View::new(51).ok_or(Fault::BadQuery)?;
    let cells = cells_in(alloc, dims, view)?;
    cells.encode(alloc, Span { from: 0, to: 1 })
}

/// Counts the cells of a run in.
fn count_run<S: Source>(
    alloc: Global,
    dims: &Dims,
    query: &Query,
    fold: &mut Fold,
    source: &mut S,
) -> Result<(), Fault>
    requires over { IsOver dims.now fold.old }
    requires query { fold.old.query ≡ query.now }
    ensures { IsOver dims.now fold.new }
{
    let mut run = RunReader::open(alloc, source, 9)?;
    if !run.head().view.serves(query) {
        return Err(Fault::BadQuery);
    }
    fold.add_run(dims, source, &mut run, None)
}

/// The report of the answer by the cells of a run.
fn report_of_run(
    alloc: Global,
    dims: &Dims,
    query: &Query,
    bytes: &[u8],
) -> Result<Vec<u8>, Fault> {
    let mut fold = Fold::new(alloc, dims, &query.check()?)?;
    let mut source = SliceSource::new(bytes);
    count_run(alloc, dims, query, &mut fold, &mut source)?;
    let answer = fold.finish(dims)?;
    report_of(alloc, query, &answer)
}

/// Whether the cells of a run that have their rows under conditions come to these lines.
fn is_as_worked(
    alloc: Global,
    dims: &Dims,
    bytes: &[u8],
    conditions: &[Condition<'_>],
    lines: &str,
) -> Result<bool, Fault> {
    let asked = Asked {
        conditions,
        ..BY_REGION
    };
    let query = query(alloc, &asked)?;
    let report = report_of_run(alloc, dims, &query, bytes)?;
    Ok(has_lines(report.as_slice(), lines))
}

/// The first case in which they do not.
fn first_other(alloc: Global) -> Result<Option<&'static str>, Fault> {
    let dims = dims_of_pairs(alloc)?;
    let bytes = run_of(alloc, &dims)?;
    for (conditions, lines) in &CASES {
        if !is_as_worked(alloc, &dims, bytes.as_slice(), conditions, lines)? {
            return Ok(Some(*lines));
        }
    }
    Ok(None)
}

#[test]
fn runs_answer_as_worked(rt: HostRuntime) {
    assert!(rt; first_other(rt.alloc()) == Ok(None));
}
