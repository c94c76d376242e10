//! A cell of a record.
use std::fmt;

/// A cell of a record.
#[derive(Clone, Copy, PartialEq, Eq)]
pub enum Cell {
    Number(u64),
    /// A word of letters, digits, underscores and blanks, which each format writes as it is.
    Word(&'static str),
    /// No value.
    Empty,
}

// A cell as json has it.
#[derive(Clone, Copy)]
pub(crate) struct Json(pub Cell);

impl fmt::Display for Json {
    fn fmt<W: fmt::Write>(&self, f: &mut fmt::Formatter<W>) -> fmt::Result {
        match self.0 {
            Cell::Number(number) => write!(f, "{number}"),
            Cell::Word(word) => write!(f, "\"{word}\""),
            Cell::Empty => f.write_str("null"),
        }
    }
}

// A cell as csv and tsv have it.
#[derive(Clone, Copy)]
pub(crate) struct Plain(pub Cell);

impl fmt::Display for Plain {
    fn fmt<W: fmt::Write>(&self, f: &mut fmt::Formatter<W>) -> fmt::Result {
        match self.0 {
            Cell::Number(number) => write!(f, "{number}"),
            Cell::Word(word) => f.write_str(word),
            Cell::Empty => Ok(()),
        }
    }
}
