//! Answers that were found, as groups of which no line is made, or as lines.
ghost use Rattle.std.specs.Prelude.{◌≡◌};
ghost use Rattle.mode_folds.specs.Answered.{IsAnsweredOver, answered_over, lines_in};

use cube_model::{Answer, Fault, Value};
use dimensions::Dims;
use group_tallies::{GroupLines, Groups};
use ssb_reports::Lines;
use std::io::Write;

/// An answer that was found.
pub enum Answered {
    /// The groups of a query without a column of ship modes. They have no texts: each line's are those of the
    /// dimensions.
    Groups(Groups),
    /// The answer to a query with such a column.
    Lines(Answer),
}

impl Drop for Answered {
    fn drop(self) {
        match self {
            Answered::Groups(_) => {}
            Answered::Lines(_) => {}
        }
    }
}

impl Answered {
    /// The lines over the dimensions of the fold.
    pub fn over<'a>(&'a self, dims: &'a Dims) -> AnsweredLines<'a>
        requires { IsAnsweredOver dims.now self.now }
        ensures { lines_in result ≡ (answered_over dims.now self.now).lines }
    {
        match self {
            Answered::Groups(groups) => AnsweredLines::Groups(groups.over(dims)),
            Answered::Lines(answer) => AnsweredLines::Lines(answer),
        }
    }
}

/// The lines of an answer that was found.
#[derive(Drop)]
pub enum AnsweredLines<'a> {
    Groups(GroupLines<'a>),
    Lines(&'a Answer),
}

impl<'a> Lines for AnsweredLines<'a> {
    ghost lines = { lines_in };

    fn count(&self) -> usize {
        match self {
            AnsweredLines::Groups(lines) => lines.count(),
            AnsweredLines::Lines(answer) => answer.count(),
        }
    }

    fn write_line<W: Write>(&self, place: usize, out: &mut W) -> Result<(), Fault> {
        match self {
            AnsweredLines::Groups(lines) => lines.write_line(place, out),
            AnsweredLines::Lines(answer) => answer.write_line(place, out),
        }
    }

    fn columns(&self, place: usize) -> usize {
        match self {
            AnsweredLines::Groups(lines) => lines.columns(place),
            AnsweredLines::Lines(answer) => answer.columns(place),
        }
    }

    fn text(&self, place: usize, column: usize) -> Option<&[u8]> {
        match self {
            AnsweredLines::Groups(lines) => lines.text(place, column),
            AnsweredLines::Lines(answer) => answer.text(place, column),
        }
    }

    fn values(&self, place: usize) -> usize {
        match self {
            AnsweredLines::Groups(lines) => lines.values(place),
            AnsweredLines::Lines(answer) => answer.values(place),
        }
    }

    fn value(&self, place: usize, aggregate: usize) -> Value {
        match self {
            AnsweredLines::Groups(lines) => lines.value(place, aggregate),
            AnsweredLines::Lines(answer) => answer.value(place, aggregate),
        }
    }
}
