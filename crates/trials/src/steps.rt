//! The steps of the demonstration on an open warehouse.
use crate::demo_facts::LINEORDER;
use crate::telling::show;
use cube_model::{Fault, Query};
use query_words::{QueryWords, read_query};
use sector_device::Sectors;
use std::alloc::Global;
use std::io::Write;
use warehouse::Session;
use warehouse_jobs::{BatchNumber, BatchRows, Job, perform};

/// How many rows of the fact table make a batch.
const BATCH_ROWS: usize = 120;

/// Loads the fact table.
pub fn load<D: Sectors, W: Write>(
    alloc: Global,
    session: &mut Session<D>,
    out: &mut W,
) -> Result<(), Fault> {
    show(out, "load star.dev --first 1 --rows 120 lineorder.tbl")?;
    let (Some(first), Some(rows)) = (BatchNumber::new(1), BatchRows::new(BATCH_ROWS)) else {
        return Ok(());
    };
    done(alloc, session, Job::Load { first, rows }, out)
}

/// Prints the numbers of the warehouse.
pub fn status<D: Sectors, W: Write>(
    alloc: Global,
    session: &mut Session<D>,
    out: &mut W,
) -> Result<(), Fault> {
    show(out, "status star.dev")?;
    done(alloc, session, Job::Status, out)
}

/// Stores three cuboids, and brings them up to date.
pub fn store_cuboids<D: Sectors, W: Write>(
    alloc: Global,
    session: &mut Session<D>,
    out: &mut W,
) -> Result<(), Fault> {
    show(out, "choose star.dev 3")?;
    done(alloc, session, Job::Choose(3), out)?;
    show(out, "upkeep star.dev")?;
    done(alloc, session, Job::Upkeep, out)
}

/// Prints the reports of three queries of the benchmark.
pub fn report_queries<D: Sectors, W: Write>(
    alloc: Global,
    session: &mut Session<D>,
    out: &mut W,
) -> Result<(), Fault> {
    for (number, command) in [
        ("1.1", "report star.dev 1.1"),
        ("2.3", "report star.dev 2.3"),
        ("4.2", "report star.dev 4.2"),
    ] {
        show(out, command)?;
        let words = QueryWords {
            q: Some(number),
            ..QueryWords::NONE
        };
        let query = query_of(alloc, &words)?;
        report(alloc, session, query, out)?;
    }
    Ok(())
}

/// Prints a CUBE.
pub fn report_cube<D: Sectors, W: Write>(
    alloc: Global,
    session: &mut Session<D>,
    out: &mut W,
) -> Result<(), Fault> {
    show(
        out,
        "cube star.dev --set cube --by c_region,d_year --agg count,sum:revenue 'd_year=1997|1998'",
    )?;
    let words = QueryWords {
        q: None,
        set: Some("cube"),
        by: Some("c_region,d_year"),
        agg: Some("count,sum:revenue"),
        conditions: &["d_year=1997|1998"],
    };
    let query = query_of(alloc, &words)?;
    report(alloc, session, query, out)
}

// The query that words spell. None here is by ship mode.
fn query_of(alloc: Global, words: &QueryWords<'_>) -> Result<Query, Fault> {
    match read_query(alloc, words)?.into_plain() {
        Some(query) => Ok(query),
        None => Err(Fault::BadQuery),
    }
}

// Prints the report of a query over all batches.
fn report<D: Sectors, W: Write>(
    alloc: Global,
    session: &mut Session<D>,
    query: Query,
    out: &mut W,
) -> Result<(), Fault> {
    done(alloc, session, Job::Report { as_of: None, query }, out)
}

// Does a job. The answer of none of them is no.
fn done<D: Sectors, W: Write>(
    alloc: Global,
    session: &mut Session<D>,
    job: Job,
    out: &mut W,
) -> Result<(), Fault> {
    perform(alloc, session, job, LINEORDER.as_bytes(), out)?;
    Ok(())
}
