//! Answers as the lines of their reports.

use cube_model::{Answer, Fault, Query};
use ssb_reports::write_report;
use std::alloc::Global;

/// The report of an answer to a query.
pub fn report_of(alloc: Global, query: &Query, answer: &Answer) -> Result<Vec<u8>, Fault> {
    let mut out = Vec::new(alloc);
    write_report(query, answer, &mut out)?;
    Ok(out)
}

/// Whether a report has these lines after its first one, which names the columns.
pub fn has_lines(report: &[u8], lines: &str) -> bool {
    match report.iter().position(|byte| *byte == b'\n') {
        Some(end) => &report[end + 1..] == lines.as_bytes(),
        None => false,
    }
}
