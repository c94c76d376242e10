//! A line for which a table is refused, and what it says of its file.
use batch_loader::Table;
use cube_model::Fault;
use std::alloc::Global;
use table_hints::line_hint;

/// The first bytes of files of a kind, and what is said of such a file.
static BEGINNINGS: [(&[u8], &str); 7] = [
    (b"\x1f\x8b", "; the file is compressed by gzip"),
    (b"BZh", "; the file is compressed by bzip2"),
    (b"\xfd7zXZ\0", "; the file is compressed by xz"),
    (b"\x28\xb5\x2f\xfd", "; the file is compressed by zstd"),
    (b"\xef\xbb\xbf", "; the file begins with a byte order mark"),
    (b"\xff\xfe", "; the file is UTF-16"),
    (b"\xfe\xff", "; the file is UTF-16"),
];

/// What is wrong with a line for which a table is refused, as one line without its end. Where its fields or its first
/// one are wrong, the first line of a file says of the file why. Nothing where the fault is none of a line. It fails
/// only when out of memory.
pub fn refused_line(
    alloc: Global,
    path: &str,
    table: Table,
    line: &[u8],
    fault: Fault,
) -> Result<Option<String>, Fault> {
    let Some(said) = line_hint(alloc, path, table, line, fault)? else {
        return Ok(None);
    };
    let file = match fault {
        Fault::FieldCount { line: 1 } => file_hint(line),
        Fault::BadNumber { line: 1, field: 1 } => file_hint(line),
        _ => "",
    };
    Ok(Some(format!(in alloc; "{said}{file}")?))
}

// What a file is, by its first line. It is empty where the line may be one of a table, or is blank.
fn file_hint(line: &[u8]) -> &'static str {
    for (beginning, said) in BEGINNINGS {
        if line.starts_with(beginning) {
            return said;
        }
    }
    // The digit of a key is two bytes of UTF-16, of which one is zero.
    if line.iter().take(2).any(|byte| *byte == 0) {
        return "; the file is UTF-16";
    }
    if line.trim_ascii().is_empty() {
        return "";
    }
    separator_hint(line)
}

// The same of a line of text, by what its fields are separated by.
fn separator_hint(line: &[u8]) -> &'static str {
    let begins_with_name = matches!(line.first(), Some(byte) if byte.is_ascii_alphabetic());
    match (
        line.contains(&b'|'),
        line.contains(&b'\t'),
        line.contains(&b','),
    ) {
        (true, _, _) if begins_with_name => "; remove the header line",
        (true, _, _) => "",
        (_, true, _) => "; the file is separated by tabs and not by bars",
        (_, _, true) => "; the file is separated by commas and not by bars",
        _ => "",
    }
}
