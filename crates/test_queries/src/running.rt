//! Answers by the fold in one call, and batches that were spelled and read back.

use super::examples::Example;
use super::printing::{has_lines, report_of};
use column_segment::{Segment, decode, encode, is_batch};
use cube_model::Fault;
use cube_query::fold;
use dimensions::Dims;
use sample_star::{Asked, Fact, Star, dim_rows, line_orders, query};
use std::alloc::Global;

/// The dimensions of a star.
pub fn dims_of(alloc: Global, star: &Star<'_>) -> Result<Dims, Fault> {
    let rows = dim_rows(alloc, star)?;
    Dims::build(alloc, &rows)
}

/// The batch of fact rows, spelled and read back.
pub fn batch_of(alloc: Global, facts: &[Fact<'_>]) -> Result<Segment, Fault> {
    let rows = line_orders(alloc, facts)?;
    if !is_batch(rows.as_slice()) {
        return Err(Fault::TooManyRows);
    }
    let bytes = encode(alloc, 1, rows.as_slice())?;
    decode(alloc, bytes)
}

fn report_over(
    alloc: Global,
    dims: &Dims,
    facts: &[Fact<'_>],
    asked: &Asked<'_>,
) -> Result<Vec<u8>, Fault> {
    let rows = line_orders(alloc, facts)?;
    let query = query(alloc, asked)?;
    let answer = fold(alloc, dims, rows.as_slice(), &query)?;
    report_of(alloc, &query, &answer)
}

fn report_in(alloc: Global, example: &Example) -> Result<Vec<u8>, Fault> {
    let dims = dims_of(alloc, &example.star)?;
    report_over(alloc, &dims, example.facts, &example.asked)
}

/// Whether the answer of an example is the one that was worked out.
pub fn is_as_worked(alloc: Global, example: &Example) -> bool {
    match (report_in(alloc, example), example.lines) {
        (Ok(report), Ok(lines)) => has_lines(report.as_slice(), lines),
        (Err(fault), Err(wanted)) => fault == wanted,
        _ => false,
    }
}
