//! What no row can meet of the conditions of a query.
use crate::members::{has_member, has_member_between, near_member};
use cube_model::{Attr, Cond, Query, Text};
use dimensions::Dims;
use std::{fmt, io};

/// A condition, or a text of one, that selects no row, whatever the fact rows are. It is shown as one line without its
/// end.
#[derive(Clone, Copy, PartialEq, Eq)]
pub enum Note<'a> {
    /// No row of the dimension has a text. Another text may be near that some row has.
    NoMember {
        attr: Attr,
        text: &'a [u8],
        near: Option<&'a str>,
    },
    /// No row of the dimension has a text that lies between two others.
    NoneBetween {
        attr: Attr,
        low: &'a [u8],
        high: &'a [u8],
    },
    /// The low end of a range is above its high end.
    EmptyRange {
        name: &'static str,
        low: End<'a>,
        high: End<'a>,
    },
}

/// An end of a range.
#[derive(Clone, Copy, PartialEq, Eq)]
pub enum End<'a> {
    Text(&'a [u8]),
    Number(u8),
}

/// Writes a line on standard error for each text of a query's conditions that no row of the dimensions has, for each
/// range in which none of them has a text, and for each range whose low end is above its high end.
///
/// It fails where memory is refused or standard error cannot be written.
pub fn write_notes<R: AllocGlobal + Eprint>(rt: &R, dims: &Dims, query: &Query) -> io::Result<()> {
    for condition in query.conditions.as_slice() {
        match condition {
            Cond::OneOf(attr, texts) => note_texts(rt, dims, *attr, texts.as_slice())?,
            Cond::Between(attr, low, high) => {
                note_range(rt, dims, *attr, low.as_slice(), high.as_slice())?
            }
            Cond::Quantity(low, high) => note_numbers(rt, "quantity", *low, *high)?,
            Cond::Discount(low, high) => note_numbers(rt, "discount", *low, *high)?,
        }
    }
    Ok(())
}

fn note_texts<R: AllocGlobal + Eprint>(
    rt: &R,
    dims: &Dims,
    attr: Attr,
    texts: &[Text],
) -> io::Result<()> {
    for text in texts {
        let text = text.as_slice();
        if !has_member(dims, attr, text) {
            let near = near_member(rt.alloc(), dims, attr, text)?;
            say(rt, Note::NoMember { attr, text, near })?;
        }
    }
    Ok(())
}

fn note_range<R: Eprint>(
    rt: &R,
    dims: &Dims,
    attr: Attr,
    low: &[u8],
    high: &[u8],
) -> io::Result<()> {
    if low > high {
        let name = attr.name();
        let (low, high) = (End::Text(low), End::Text(high));
        return say(rt, Note::EmptyRange { name, low, high });
    }
    if has_member_between(dims, attr, low, high) {
        return Ok(());
    }
    say(rt, Note::NoneBetween { attr, low, high })
}

fn note_numbers<R: Eprint>(rt: &R, name: &'static str, low: u8, high: u8) -> io::Result<()> {
    if low <= high {
        return Ok(());
    }
    let (low, high) = (End::Number(low), End::Number(high));
    say(rt, Note::EmptyRange { name, low, high })
}

fn say<R: Eprint>(rt: &R, note: Note<'_>) -> io::Result<()> {
    eprintln!(rt; "note: {note}")
}

impl fmt::Display for Note<'_> {
    fn fmt<W: fmt::Write>(&self, f: &mut fmt::Formatter<W>) -> fmt::Result {
        match *self {
            Note::NoMember { attr, text, near } => {
                write!(f, "no {} has {} {}", attr.axis(), attr.name(), Quoted(text))?;
                match near {
                    None => Ok(()),
                    Some(name) => write!(f, "; {name:?}?"),
                }
            }
            Note::NoneBetween { attr, low, high } => write!(
                f,
                "no {} has a {} from {} to {}",
                attr.axis(),
                attr.name(),
                Quoted(low),
                Quoted(high)
            ),
            Note::EmptyRange { name, low, high } => write!(
                f,
                "{name}:{low}|{high} selects nothing, its low end is above its high end"
            ),
        }
    }
}

impl fmt::Display for End<'_> {
    fn fmt<W: fmt::Write>(&self, f: &mut fmt::Formatter<W>) -> fmt::Result {
        match self {
            End::Text(text) => write!(f, "{}", text.escape_ascii()),
            End::Number(number) => write!(f, "{number}"),
        }
    }
}

// A text between quotation marks, with escapes for what cannot be printed.
#[derive(Clone, Copy)]
struct Quoted<'a>(&'a [u8]);

impl fmt::Display for Quoted<'_> {
    fn fmt<W: fmt::Write>(&self, f: &mut fmt::Formatter<W>) -> fmt::Result {
        let Quoted(text) = *self;
        match str::from_utf8(text) {
            Ok(text) => write!(f, "{text:?}"),
            Err(_) => write!(f, "\"{}\"", text.escape_ascii()),
        }
    }
}
