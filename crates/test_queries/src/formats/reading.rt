//! What other readers read of a report.
use crate::formats::answers::{ROWS, Row, report};
use csv::{ByteRecord, Reader, ReaderBuilder};
use report_formats::Format;
use serde_json::Value;
use std::alloc::Global;
use std::test::Fail;

// Whether the next record that the library `csv` reads begins with the members of a line.
fn is_next(reader: &mut Reader<&[u8]>, record: &mut ByteRecord, row: &Row) -> Result<bool, Fail> {
    reader.read_byte_record(record)?;
    let [first, second] = row.members;
    Ok(record.get(0) == Some(first) && record.get(1) == Some(second))
}

#[test]
fn csv_is_read_back(rt: HostRuntime) -> Result<(), Fail> {
    let written = report(rt.alloc(), Format::Csv, None)?;
    let mut reader = ReaderBuilder::new().from_reader(rt.alloc(), written.as_slice());
    let mut record = ByteRecord::new(rt.alloc());
    for (line, row) in ROWS.iter().enumerate() {
        assert!(rt; is_next(&mut reader, &mut record, row)?, "line {line}");
    }
    Ok(())
}

/// A line of the report, a path into its object, and what is read there.
static FOUND: [(usize, &str, Option<&str>, Option<i64>); 9] = [
    (0, "/c_region", Some("EUROPE"), None),
    (1, "/d_year", Some("say \"hi\""), None),
    (2, "/d_year", Some("tab\tline\nreturn\rback\\"), None),
    (3, "/d_year", Some("caf\u{e9} \u{1}\u{1f}"), None),
    (3, "/c_region", None, None),
    (3, "/count", None, Some(8)),
    (3, "/avg(revenue)/sum", None, Some(-5)),
    (3, "/avg(revenue)/count", None, Some(8)),
    (3, "/sum(profit)", None, Some(i64::MIN)),
];

// What the library `serde_json` reads at a path of a line of a report.
fn found_in(
    alloc: Global,
    text: &str,
    line: usize,
    path: &str,
) -> Result<(Option<String>, Option<i64>), Fail> {
    let line = text.lines().nth(line).unwrap_or("{}");
    let object = Value::from_str(alloc, line)?;
    let found = object.pointer(path);
    let word = match found.and_then(Value::as_str) {
        Some(word) => Some(String::from_str(alloc, word)?),
        None => None,
    };
    Ok((word, found.and_then(Value::as_i64)))
}

#[test]
fn json_is_read_back(rt: HostRuntime) -> Result<(), Fail> {
    let written = report(rt.alloc(), Format::Json, None)?;
    let text = std::str::from_utf8(written.as_slice())?;
    for (line, path, word, number) in &FOUND {
        let (read, count) = found_in(rt.alloc(), text, *line, path)?;
        assert!(rt; read.as_deref() == *word, "line {line}, {path}");
        assert!(rt; count == *number, "line {line}, {path}");
    }
    Ok(())
}
