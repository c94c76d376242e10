//! Fields of the tables.
use std::io::{self, Write};

/// Writes numbers, with a bar after each.
pub(crate) fn write_numbers<W: Write>(out: &mut W, numbers: &[u64]) -> io::Result<()> {
    for number in numbers {
        write!(out, "{number}|")?;
    }
    Ok(())
}
