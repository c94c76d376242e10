//! An answer that was found, of whose lines none is made before they are asked for.
ghost use Rattle.std.specs.Prelude.{◌≡◌};
ghost use Rattle.warehouse_jobs.specs.Lines.{reported_lines};

use crate::answer_form::AnswerForm;
use cube_model::{Fault, Value};
use group_tallies::GroupLines;
use mode_folds::AnsweredLines;
use planned_queries::{Found, FoundByModes};
use ssb_reports::Lines;
use std::io::Write;
use std::marker::Model;

/// An answer that was found, with the dimensions that have its texts. Contracts see the answer.
pub struct Reported {
    form: AnswerForm,
}

// Written out, so that a proof has one call to follow where an answer is let go.
impl Drop for Reported {
    fn drop(self) {
        let Reported { form: _ } = self;
    }
}

impl Model for Reported {
    ghost use Rattle.cube_model.specs.declared.answer.Answer.{Answer};
    ghost use Rattle.warehouse_jobs.specs.Forms.{answer_of_form};

    ghost Value = { Answer };

    ghost view = { λ reported. answer_of_form reported.form };
}

impl Reported {
    // The answer to a query that looks at no ship mode.
    pub(crate) fn without_modes(found: Found) -> Reported
        ensures { result ≡ found }
    {
        Reported {
            form: AnswerForm::Plain(found),
        }
    }

    // The answer to a query that looks at ship modes.
    pub(crate) fn by_modes(found: FoundByModes) -> Reported
        ensures { result ≡ found }
    {
        Reported {
            form: AnswerForm::ByModes(found),
        }
    }

    /// The lines of the answer.
    pub fn lines(&self) -> ReportedLines<'_>
        ensures { reported_lines result ≡ self.now.lines }
    {
        match &self.form {
            AnswerForm::Plain(found) => ReportedLines::Plain(found.lines()),
            AnswerForm::ByModes(found) => ReportedLines::ByModes(found.lines()),
        }
    }
}

/// The lines of an answer to a query that looks at no ship mode, or to one that does.
#[derive(Drop)]
pub enum ReportedLines<'a> {
    Plain(GroupLines<'a>),
    ByModes(AnsweredLines<'a>),
}

impl<'a> Lines for ReportedLines<'a> {
    ghost lines = { reported_lines };

    fn count(&self) -> usize {
        match self {
            ReportedLines::Plain(lines) => lines.count(),
            ReportedLines::ByModes(lines) => lines.count(),
        }
    }

    fn write_line<W: Write>(&self, place: usize, out: &mut W) -> Result<(), Fault> {
        match self {
            ReportedLines::Plain(lines) => lines.write_line(place, out),
            ReportedLines::ByModes(lines) => lines.write_line(place, out),
        }
    }

    fn columns(&self, place: usize) -> usize {
        match self {
            ReportedLines::Plain(lines) => lines.columns(place),
            ReportedLines::ByModes(lines) => lines.columns(place),
        }
    }

    fn text(&self, place: usize, column: usize) -> Option<&[u8]> {
        match self {
            ReportedLines::Plain(lines) => lines.text(place, column),
            ReportedLines::ByModes(lines) => lines.text(place, column),
        }
    }

    fn values(&self, place: usize) -> usize {
        match self {
            ReportedLines::Plain(lines) => lines.values(place),
            ReportedLines::ByModes(lines) => lines.values(place),
        }
    }

    fn value(&self, place: usize, aggregate: usize) -> Value {
        match self {
            ReportedLines::Plain(lines) => lines.value(place, aggregate),
            ReportedLines::ByModes(lines) => lines.value(place, aggregate),
        }
    }
}
