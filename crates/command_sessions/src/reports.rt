//! The reports that a command asks for.
use clap::ArgMatches;
use command_files::layout::{asked_of, layout_of};
use command_files::listed::{ListedQuery, listed_queries};
use command_files::query::{benchmark_word, plain_query, query_of, words_of};
use command_files::refusal::{Refusal, bad_query};
use command_files::report::unasked;
use command_files::system::System;
use cube_model::{Fault, Query};
use mode_queries::{ModeQuery, QueryRef};
use partial_reports::{Head, PartAsked};
use query_words::QueryWords;
use report_formats::{Asked, Format, Layout};
use sector_device::Sectors;
use ssb_reports::{QNumber, query_of as benchmark_query};
use std::alloc::Global;
use std::io::Write;
use warehouse::Session;
use warehouse_jobs::{report_formatted, report_partial};

/// The word for all queries of the benchmark.
const ALL: &str = "all";

/// What is reported.
pub enum Reports {
    One(Asked),
    /// One of a part of the fact rows, to be merged with others.
    Part(PartAsked),
    /// Several, one after another.
    Several(Vec<NamedReport>),
}

// Written out, so that a proof has one call to follow where one is let go.
impl Drop for Reports {
    fn drop(self) {
        match self {
            Reports::One(_) => {}
            Reports::Part(_) => {}
            Reports::Several(_) => {}
        }
    }
}

impl Reports {
    /// The query of the one report that is asked for. Several reports have none.
    pub fn query(&self) -> Option<QueryRef<'_>> {
        match self {
            Reports::One(asked) => Some(QueryRef::ByModes(&asked.query)),
            Reports::Part(asked) => Some(QueryRef::Plain(&asked.query)),
            Reports::Several(_) => None,
        }
    }
}

/// A report, and the line after which it is written.
pub struct NamedReport {
    line: String,
    asked: Asked,
}

// Written out, so that a proof has one call to follow where one is let go.
impl Drop for NamedReport {
    fn drop(self) {
        let NamedReport { line: _, asked: _ } = self;
    }
}

impl NamedReport {
    // The report of a query by its words, such as 1.1.
    fn new(alloc: Global, words: &str, asked: Asked) -> Result<NamedReport, Fault> {
        let line = format!(in alloc; "query {words}\n")?;
        Ok(NamedReport { line, asked })
    }
}

/// The reports that the words of a command ask for.
pub fn reports_of(rt: &System, given: &ArgMatches<'_>) -> Result<Reports, Refusal> {
    let layout = layout_of(given);
    if let Some(path) = given.get_str("queries") {
        let listed = listed_queries(rt, path)?;
        return Ok(Reports::Several(of_list(rt.alloc(), layout, listed)?));
    }
    if asks_all(given) {
        return Ok(Reports::Several(of_benchmark(rt.alloc(), layout)?));
    }
    match report_of(rt.alloc(), given) {
        Ok(report) => Ok(report),
        Err(refusal) => Err(unasked(rt.alloc(), given, refusal)),
    }
}

/// The one report that the words of a command ask for, of a part of the rows where they name one.
pub fn report_of(alloc: Global, given: &ArgMatches<'_>) -> Result<Reports, Refusal> {
    match given.get_str("partial") {
        Some(word) => Ok(Reports::Part(part_of(alloc, given, word)?)),
        None => Ok(Reports::One(asked_of(alloc, given)?)),
    }
}

// The partial report that the words of a command ask for, of a part such as 3/8.
fn part_of(alloc: Global, given: &ArgMatches<'_>, word: &str) -> Result<PartAsked, Refusal> {
    let query = plain_query(alloc, query_of(alloc, given)?, "--partial")?;
    let Some((number, parts)) = part_in(word) else {
        return Err(bad_query(format!(in alloc;
            "--partial {word}: K/N is wanted, part K of N, with N at most 1024"
        )));
    };
    match part_asked(alloc, number, parts, words_of(given), query) {
        Ok(asked) => Ok(asked),
        Err(Fault::BadQuery) => Err(bad_query(format!(in alloc;
            "--partial: a word of the query has a line feed or more than 8000 bytes"
        ))),
        Err(fault) => Err(Refusal::from(fault)),
    }
}

// The partial report of a query by its words.
fn part_asked(
    alloc: Global,
    number: u32,
    parts: u32,
    words: QueryWords<'_>,
    query: Query,
) -> Result<PartAsked, Fault> {
    let QueryWords {
        q,
        set,
        by,
        agg,
        conditions,
    } = words;
    let head = Head::new(alloc, number, parts, q, set, by, agg, conditions)?;
    PartAsked::new(alloc, head, query)
}

// The number of a part and how many parts there are, of a word such as 3/8.
fn part_in(word: &str) -> Option<(u32, u32)> {
    let (number, parts) = word.split_once('/')?;
    let number = number.parse::<u32>().ok()?;
    let parts = parts.parse::<u32>().ok()?;
    let is_part = 1 <= number && number <= parts && parts <= 1024;
    if is_part { Some((number, parts)) } else { None }
}

// The reports of the queries of a list.
fn of_list(
    alloc: Global,
    layout: Layout,
    listed: Vec<ListedQuery>,
) -> Result<Vec<NamedReport>, Fault> {
    let mut reports = Vec::new(alloc);
    for ListedQuery { text, query, .. } in listed {
        let asked = Asked::new(alloc, layout, query)?;
        reports.push(NamedReport::new(alloc, text.as_str(), asked)?)?;
    }
    Ok(reports)
}

// The reports of all queries of the benchmark.
fn of_benchmark(alloc: Global, layout: Layout) -> Result<Vec<NamedReport>, Fault> {
    let mut reports = Vec::new(alloc);
    for number in QNumber::ALL {
        let query = ModeQuery::without_modes(alloc, benchmark_query(alloc, number)?);
        let asked = Asked::new(alloc, layout, query)?;
        reports.push(NamedReport::new(alloc, number.name(), asked)?)?;
    }
    Ok(reports)
}

// Whether the words ask for all queries of the benchmark.
fn asks_all(given: &ArgMatches<'_>) -> bool {
    benchmark_word(given) == Some(ALL)
}

/// The format that the words give though they ask for several reports, which are written with bars only.
pub fn odd_format<'a>(given: &'a ArgMatches<'_>) -> Option<&'a str> {
    let name = given.get_str("format")?;
    let asks_several = asks_all(given) || given.get_str("queries").is_some();
    if asks_several && Format::named(name) != Some(Format::Bars) {
        Some(name)
    } else {
        None
    }
}

/// Writes reports over the first batches of a warehouse, or over all. Several are written one after another, each after
/// a line that names its query, such as `query 1.1`.
pub fn write_reports<D: Sectors, W: Write>(
    alloc: Global,
    session: &mut Session<D>,
    as_of: Option<u32>,
    reports: &Reports,
    out: &mut W,
) -> Result<(), Fault> {
    match reports {
        Reports::One(asked) => report_formatted(alloc, session, as_of, asked, out),
        Reports::Part(asked) => report_partial(alloc, session, as_of, asked, out),
        Reports::Several(reports) => write_several(alloc, session, as_of, reports.as_slice(), out),
    }
}

// Writes several reports. Where there are too few batches nothing is written.
fn write_several<D: Sectors, W: Write>(
    alloc: Global,
    session: &mut Session<D>,
    as_of: Option<u32>,
    reports: &[NamedReport],
    out: &mut W,
) -> Result<(), Fault> {
    if as_of > Some(session.status()?.batches) {
        return Err(Fault::NoSuchPrefix);
    }
    for report in reports {
        write_named(alloc, session, as_of, report, out)?;
    }
    Ok(())
}

// Writes the line of a report, and the report.
fn write_named<D: Sectors, W: Write>(
    alloc: Global,
    session: &mut Session<D>,
    as_of: Option<u32>,
    report: &NamedReport,
    out: &mut W,
) -> Result<(), Fault> {
    match out.write_all(report.line.as_bytes()) {
        Ok(()) => report_formatted(alloc, session, as_of, &report.asked, out),
        Err(_) => Err(Fault::Output),
    }
}
