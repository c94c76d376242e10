//! Answers that were worked out by hand, and how a session is asked.
use crate::sessions::opened;
use cube_model::{Answer, Fault, Items, Line, Member, Value};
use sample_star::{Asked, query, text};
use sector_device::{MemDisk, Sectors};
use ssb_reports::{QNumber, query_of};
use std::alloc::Global;
use warehouse::Session;

/// The lines of an answer: the members of each, and its value.
pub type Lines = &'static [(&'static [&'static str], i64)];

/// What the benchmark's queries answer over one batch of the three sample rows.
static BENCHMARK: [(QNumber, Lines); 13] = [
    (QNumber::Q11, &[(&[], 2000)]),
    (QNumber::Q12, &[]),
    (QNumber::Q13, &[]),
    (QNumber::Q21, &[]),
    (QNumber::Q22, &[]),
    (QNumber::Q23, &[]),
    (QNumber::Q31, &[]),
    (
        QNumber::Q32,
        &[(&["UNITED ST3", "UNITED ST0", "1997"], 1940)],
    ),
    (
        QNumber::Q33,
        &[
            (&["UNITED KI1", "UNITED KI5", "1993"], 980),
            (&["UNITED KI1", "UNITED KI5", "1997"], 495),
        ],
    ),
    (
        QNumber::Q34,
        &[(&["UNITED KI1", "UNITED KI5", "1997"], 495)],
    ),
    (QNumber::Q41, &[(&["1997", "UNITED STATES"], -60)]),
    (
        QNumber::Q42,
        &[(&["1997", "UNITED STATES", "MFGR#14"], -60)],
    ),
    (QNumber::Q43, &[(&["1997", "UNITED ST0", "MFGR#142"], -60)]),
];

fn line(alloc: Global, members: &[&str], value: i64) -> Result<Line, Fault> {
    let mut key = Items::new(alloc);
    for member in members {
        key.push(Member::Text(text(alloc, member)?))?;
    }
    let mut values = Items::new(alloc);
    values.push(Value::Whole(value))?;
    Ok(Line { key, values })
}

/// The answer over so many equal batches of which one has these lines.
pub fn answer(alloc: Global, of_one: &[(&[&str], i64)], batches: u32) -> Result<Answer, Fault> {
    let mut lines = Items::new(alloc);
    if batches == 0 {
        return Ok(Answer { lines });
    }
    for (members, value) in of_one {
        let value = value.saturating_mul(i64::from(batches));
        lines.push(line(alloc, members, value)?)?;
    }
    Ok(Answer { lines })
}

/// What a session answers to a query of the benchmark over its first batches.
pub fn report<D: Sectors>(
    alloc: Global,
    session: &mut Session<D>,
    as_of: u32,
    number: QNumber,
) -> Result<Answer, Fault> {
    let query = query_of(alloc, number)?;
    session.query(alloc, as_of, &query)
}

/// What a session answers to a query over its first batches.
pub fn ask<D: Sectors>(
    alloc: Global,
    session: &mut Session<D>,
    as_of: u32,
    asked: &Asked<'_>,
) -> Result<Answer, Fault> {
    let query = query(alloc, asked)?;
    session.query(alloc, as_of, &query)
}

/// What is found on a device: how many batches, and what the first query of the benchmark answers over them.
pub fn found<D: Sectors + Drop>(alloc: Global, device: D) -> Result<(u32, Answer), Fault> {
    let mut session = opened(alloc, device)?;
    let batches = session.status()?.batches;
    let answer = report(alloc, &mut session, batches, QNumber::Q11)?;
    Ok((batches, answer))
}

/// What is to be found with so many batches of the three sample rows.
pub fn finding(alloc: Global, batches: u32) -> Result<(u32, Answer), Fault> {
    Ok((batches, answer(alloc, &[(&[], 2000)], batches)?))
}

/// Whether a session answers a query of the benchmark as worked by hand, over this many batches.
fn is_right<D: Sectors>(
    alloc: Global,
    session: &mut Session<D>,
    batches: u32,
    number: QNumber,
    lines: Lines,
) -> Result<bool, Fault> {
    let found = report(alloc, session, batches, number)?;
    Ok(found == answer(alloc, lines, batches)?)
}

/// The first of the benchmark's queries that a session answers otherwise over this many batches.
pub fn first_other<D: Sectors>(
    alloc: Global,
    session: &mut Session<D>,
    batches: u32,
) -> Result<Option<QNumber>, Fault> {
    for (number, lines) in &BENCHMARK {
        if !is_right(alloc, session, batches, *number, lines)? {
            return Ok(Some(*number));
        }
    }
    Ok(None)
}
