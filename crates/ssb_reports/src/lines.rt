//! The lines of an answer as a report asks for them.
ghost use Rattle.std.specs.Prelude.{◌≡◌, ◌<◌, pos, List, length, slice_index_or, IfNone, IfSome};
ghost use Rattle.cube_model.specs.declared.answer.Line.{Line};
ghost use Rattle.cube_model.specs.declared.answer.Member.TheVariants.{All, Text};
ghost use Rattle.cube_model.specs.declared.answer.Value.TheVariants.{Whole};
ghost use Rattle.group_tallies.specs.GroupLines.{line_at};
ghost use Rattle.ssb_reports.specs.Report.{line_text};
ghost use Rattle.ssb_reports.specs.Writing.{Writes};

use crate::fields::{Members, Values};
use crate::report::write_row;
use cube_model::{Answer, Fault, Member, Value};
use group_tallies::GroupLines;
use std::io::Write;

/// The lines of an answer by their places, which count from 0.
pub trait Lines {
    // the lines
    ghost lines: { Self → List Line };

    /// How many lines there are.
    fn count(&self) -> usize
        ensures { result ≡ length (lines self.now) };

    /// Hands a writer the text of a line. It takes no memory.
    fn write_line<W: Write>(&self, place: usize, out: &mut W) -> Result<(), Fault>
        requires { place < length (lines self.now) }
        ensures { Writes (W.contents out.old) (W.contents out.new) result
            (line_text (line_at (lines self.now) place)) };

    /// How many columns a line has.
    fn columns(&self, place: usize) -> usize
        requires { place < length (lines self.now) }
        ensures { result ≡ length (line_at (lines self.now) place).key };

    /// The text of a line in a column: none for ALL.
    fn text(&self, place: usize, column: usize) -> Option<&[u8]>
        requires line { place < length (lines self.now) }
        requires column { column < length (line_at (lines self.now) place).key }
        ensures text { IfSome result
            (λ text. slice_index_or (line_at (lines self.now) place).key column All ≡ Text text.now) }
        ensures all { IfNone result (slice_index_or (line_at (lines self.now) place).key column All ≡ All) };

    /// How many values a line has.
    fn values(&self, place: usize) -> usize
        requires { place < length (lines self.now) }
        ensures { result ≡ length (line_at (lines self.now) place).values };

    /// The value of a line of an aggregate.
    fn value(&self, place: usize, aggregate: usize) -> Value
        requires line { place < length (lines self.now) }
        requires aggregate { aggregate < length (line_at (lines self.now) place).values }
        ensures { result ≡ slice_index_or (line_at (lines self.now) place).values aggregate (Whole (pos 0)) };
}

impl Lines for Answer {
    ghost lines = { λ answer. answer.lines };

    fn count(&self) -> usize {
        self.lines.len()
    }

    fn write_line<W: Write>(&self, place: usize, out: &mut W) -> Result<(), Fault> {
        let line = &self.lines.as_slice()[place];
        write_row(out, &line.key.as_slice(), &line.values.as_slice())
    }

    fn columns(&self, place: usize) -> usize {
        self.lines.as_slice()[place].key.len()
    }

    fn text(&self, place: usize, column: usize) -> Option<&[u8]> {
        let line = &self.lines.as_slice()[place];
        match &line.key.as_slice()[column] {
            Member::Text(text) => Some(text.as_slice()),
            Member::All => None,
        }
    }

    fn values(&self, place: usize) -> usize {
        self.lines.as_slice()[place].values.len()
    }

    fn value(&self, place: usize, aggregate: usize) -> Value {
        let line = &self.lines.as_slice()[place];
        line.values.as_slice()[aggregate]
    }
}

impl<'a> Lines for GroupLines<'a> {
    ghost lines = { λ lines. lines };

    fn count(&self) -> usize {
        self.len()
    }

    fn write_line<W: Write>(&self, place: usize, out: &mut W) -> Result<(), Fault> {
        let line = self.line(place);
        write_row(out, &Members(&line), &Values(&line))
    }

    fn columns(&self, place: usize) -> usize {
        self.line(place).columns()
    }

    fn text(&self, place: usize, column: usize) -> Option<&[u8]> {
        self.line(place).text(column)
    }

    fn values(&self, place: usize) -> usize {
        self.line(place).values()
    }

    fn value(&self, place: usize, aggregate: usize) -> Value {
        self.line(place).value(aggregate)
    }
}
