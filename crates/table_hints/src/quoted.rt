//! Texts of a table as they are shown.
use std::fmt;

/// The most bytes of a text that are shown.
const SHOWN: usize = 40;

/// A text between quotation marks, with signs in place of bytes that cannot be printed, and cut after its first 40
/// bytes.
#[derive(Clone, Copy)]
pub struct Quoted<'a>(pub &'a [u8]);

impl fmt::Display for Quoted<'_> {
    fn fmt<W: fmt::Write>(&self, f: &mut fmt::Formatter<W>) -> fmt::Result {
        let Quoted(text) = *self;
        match text.get(..SHOWN) {
            None => write!(f, "\"{}\"", text.escape_ascii()),
            Some(front) => write!(f, "\"{}..\"", front.escape_ascii()),
        }
    }
}
