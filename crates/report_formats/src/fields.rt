//! The fields of a line.
ghost use Rattle.std.specs.Prelude.{◌<◌, length};
ghost use Rattle.group_tallies.specs.GroupLines.{line_at};

use crate::asked::Asked;
use crate::cells::{write_member_field, write_value_field};
use cube_model::{Fault, Value};
use mode_queries::ModeQuery;
use ssb_reports::{Fields, Lines, write_bytes};
use std::io::Write;

/// The names of the columns of a query.
#[derive(Clone, Copy)]
pub(crate) struct ColumnNames<'a>(pub(crate) &'a ModeQuery);

impl<'a> Fields for ColumnNames<'a> {
    ghost use Rattle.mode_queries.specs.Names.{column_names};

    ghost texts = { λ names. column_names names.0.now };

    fn count(&self) -> usize {
        self.0.column_count()
    }

    fn write_field<W: Write>(&self, place: usize, out: &mut W) -> Result<(), Fault> {
        write_bytes(out, self.0.column_name(place).as_bytes())
    }
}

/// The fields of the columns of a line.
pub(crate) struct MemberFields<'a, L: Lines> {
    pub(crate) asked: &'a Asked,
    pub(crate) lines: &'a L,
    pub(crate) place: usize,
    ghost within: { place < length (L.lines lines.now) },
}

impl<'a, L: Lines> Drop for MemberFields<'a, L> {
    fn drop(self) {
        let MemberFields {
            asked: _,
            lines: _,
            place: _,
        } = self;
    }
}

impl<'a, L: Lines> Fields for MemberFields<'a, L> {
    ghost use Rattle.report_formats.specs.Fields.{member_fields};

    ghost texts = { λ fields. member_fields fields.asked.now (line_at (L.Lines.lines fields.lines.now) fields.place) };

    fn count(&self) -> usize {
        self.asked
            .query
            .column_count()
            .min(self.lines.columns(self.place))
    }

    fn write_field<W: Write>(&self, place: usize, out: &mut W) -> Result<(), Fault> {
        let asked = self.asked;
        let column = asked.query.column_name(place);
        let text = self.lines.text(self.place, place);
        write_member_field(out, asked.layout.format, column, text)
    }
}

/// The fields of the aggregates of a line.
pub(crate) struct ValueFields<'a, L: Lines> {
    pub(crate) asked: &'a Asked,
    pub(crate) lines: &'a L,
    pub(crate) place: usize,
    ghost within: { place < length (L.lines lines.now) },
}

impl<'a, L: Lines> Drop for ValueFields<'a, L> {
    fn drop(self) {
        let ValueFields {
            asked: _,
            lines: _,
            place: _,
        } = self;
    }
}

impl<'a, L: Lines> ValueFields<'a, L> {
    ghost use Rattle.std.specs.Prelude.{◌≡◌};
    ghost use Rattle.report_formats.specs.Fields.{count_in};

    // The count of the line's rows, where the query asks for it.
    fn count_value(&self) -> Value
        ensures { result ≡ count_in self.now.asked.now (line_at (L.Lines.lines self.now.lines.now) self.now.place) }
    {
        let place = self.asked.aggregates.len();
        if place < self.lines.values(self.place) {
            self.lines.value(self.place, place)
        } else {
            Value::Whole(0)
        }
    }
}

impl<'a, L: Lines> Fields for ValueFields<'a, L> {
    ghost use Rattle.report_formats.specs.Fields.{value_fields};

    ghost texts = { λ fields. value_fields fields.asked.now (line_at (L.Lines.lines fields.lines.now) fields.place) };

    fn count(&self) -> usize {
        self.asked
            .aggregates
            .len()
            .min(self.lines.values(self.place))
    }

    fn write_field<W: Write>(&self, place: usize, out: &mut W) -> Result<(), Fault> {
        let asked = self.asked;
        let agg = asked.aggregates.as_slice()[place];
        let value = self.lines.value(self.place, place);
        write_value_field(out, asked.layout, agg, value, self.count_value())
    }
}
