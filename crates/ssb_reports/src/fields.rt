//! The fields of a part of a report's line, one after the other.
ghost use Rattle.std.specs.Prelude.{◌≡◌, ◌<◌, [], ℕ, List, length, map, slice_index_or};
ghost use Rattle.ssb_reports.specs.Report.{member_text, value_text};
ghost use Rattle.ssb_reports.specs.Writing.{Writes};

use crate::field::Field;
use crate::writing::write_bytes;
use cube_model::Fault;
use group_tallies::GroupLine;
use std::io::Write;

/// Fields by their places, which count from 0.
pub trait Fields {
    // the bytes of each field
    ghost texts: { Self → List (List ℕ) };

    /// How many fields there are.
    fn count(&self) -> usize
        ensures { result ≡ length (texts self.now) };

    /// Hands a writer the bytes of a field.
    fn write_field<W: Write>(&self, place: usize, out: &mut W) -> Result<(), Fault>
        requires { place < length (texts self.now) }
        ensures { Writes (W.contents out.old) (W.contents out.new) result (slice_index_or (texts self.now) place []) };
}

impl<'a, F: Field> Fields for &'a [F] {
    ghost texts = { λ fields. map F.text fields.now };

    fn count(&self) -> usize {
        let fields = *self;
        fields.len()
    }

    fn write_field<W: Write>(&self, place: usize, out: &mut W) -> Result<(), Fault> {
        let fields = *self;
        fields[place].write_to(out)
    }
}

/// The members of a line of groups.
#[derive(Clone, Copy)]
pub struct Members<'l, 'a>(pub &'l GroupLine<'a>);

impl<'l, 'a> Fields for Members<'l, 'a> {
    ghost texts = { λ members. map member_text members.0.now.key };

    fn count(&self) -> usize {
        self.0.columns()
    }

    fn write_field<W: Write>(&self, place: usize, out: &mut W) -> Result<(), Fault> {
        match self.0.text(place) {
            Some(text) => write_bytes(out, text),
            None => write_bytes(out, b"ALL"),
        }
    }
}

/// The values of a line of groups.
#[derive(Clone, Copy)]
pub struct Values<'l, 'a>(pub &'l GroupLine<'a>);

impl<'l, 'a> Fields for Values<'l, 'a> {
    ghost texts = { λ values. map value_text values.0.now.values };

    fn count(&self) -> usize {
        self.0.values()
    }

    fn write_field<W: Write>(&self, place: usize, out: &mut W) -> Result<(), Fault> {
        self.0.value(place).write_to(out)
    }
}
