//! Pieces of a text.
use std::fmt;

/// Writes pieces of a text, one after another.
pub(crate) fn write_pieces<W: fmt::Write>(
    f: &mut fmt::Formatter<W>,
    pieces: &[&str],
) -> fmt::Result {
    for piece in pieces {
        f.write_str(piece)?;
    }
    Ok(())
}
