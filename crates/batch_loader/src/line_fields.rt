//! The fields of a line.
ghost use Rattle.std.specs.Prelude.{◌≡◌, ◌<◌, ◌≤◌, [], length, slice_index_or, slice_index};
ghost use Rattle.batch_loader.specs.Fields.{AreEnds, parts_at, start_of};
ghost use Rattle.batch_loader.specs.Numbers.{number_spelled};

mod bars;
mod split;

use crate::numbers::{few_digits_between, number_between};
pub(crate) use split::split;
pub use split::{fields, without_cr};

/// The N fields of a line: the line, and where each field ends.
#[derive(Clone, Copy, Drop)]
pub struct LineFields<'a, const N: usize> {
    line: &'a [u8],
    ends: [usize; N],
    ghost within: { AreEnds line.now ends },
}

impl<'a, const N: usize> LineFields<'a, N> {
    ghost use Rattle.batch_loader.specs.LineFields.{fields_at, field_texts};

    /// A field, by its place from 0.
    #[inline]
    pub fn get(&self, place: usize) -> &'a [u8]
        requires { place < N }
        ensures { result.now ≡ slice_index_or (field_texts self.now) place [] }
    {
        self.in_place().get(place)
    }

    /// The number up to a limit that a field spells, if it spells one.
    #[inline(always)]
    pub(crate) fn number(&self, place: usize, limit: u64) -> Option<u64>
        requires { place < N }
        ensures { result ≡ number_spelled limit (slice_index_or (field_texts self.now) place []) }
    {
        self.in_place().number(place, limit)
    }

    /// The same fields, where they are.
    #[inline(always)]
    fn in_place(&self) -> FieldsInPlace<'a, '_, N>
        ensures { fields_at result ≡ field_texts self.now }
    {
        FieldsInPlace {
            line: self.line,
            ends: &self.ends,
        }
    }
}

/// The N fields of a line, whose ends stay where they were found: to copy them takes as long as to read a number.
#[derive(Clone, Copy, Drop)]
pub(crate) struct FieldsInPlace<'a, 'b, const N: usize> {
    line: &'a [u8],
    ends: &'b [usize],
    ghost within: { AreEnds line.now ends.now },
    ghost count: { length ends.now ≡ N },
}

impl<'a, 'b, const N: usize> FieldsInPlace<'a, 'b, N> {
    ghost use Rattle.batch_loader.specs.LineFields.{fields_at, field_texts};

    /// The fields of a line, by where they end.
    #[inline(always)]
    pub(crate) fn new(line: &'a [u8], ends: &'b [usize; N]) -> Self
        requires { AreEnds line.now ends.now }
        ensures { fields_at result ≡ parts_at line.now 0 ends.now }
    {
        FieldsInPlace { line, ends }
    }

    /// A copy of the fields.
    pub(crate) fn copied(&self) -> LineFields<'a, N>
        ensures { field_texts result ≡ fields_at self.now }
    {
        let Some(ends) = self.ends.first_chunk::<N>() else {
            unreachable!()
        };
        LineFields {
            line: self.line,
            ends: *ends,
        }
    }

    /// A field, by its place from 0.
    #[inline(always)]
    pub(crate) fn get(&self, place: usize) -> &'a [u8]
        requires { place < N }
        ensures { result.now ≡ slice_index_or (fields_at self.now) place [] }
    {
        &self.line[self.start(place)..self.ends[place]]
    }

    /// The number up to a limit that a field spells, if it spells one.
    #[inline(always)]
    pub(crate) fn number(&self, place: usize, limit: u64) -> Option<u64>
        requires { place < N }
        ensures { result ≡ number_spelled limit (slice_index_or (fields_at self.now) place []) }
    {
        number_between(self.line, self.start(place), self.ends[place], limit)
    }

    /// The same, decided sooner where the number has one digit or two.
    #[inline(always)]
    pub(crate) fn few_digits(&self, place: usize, limit: u64) -> Option<u64>
        requires { place < N }
        ensures { result ≡ number_spelled limit (slice_index_or (fields_at self.now) place []) }
    {
        few_digits_between(self.line, self.start(place), self.ends[place], limit)
    }

    /// Where a field begins.
    #[inline(always)]
    fn start(&self, place: usize) -> usize
        requires { place < N }
        ensures start { result ≡ start_of self.now.ends.now place }
        ensures order { result ≤ slice_index self.now.ends.now place }
        ensures within { slice_index self.now.ends.now place ≤ length self.now.line.now }
    {
        if place == 0 {
            0
        } else {
            self.ends[place - 1] + 1
        }
    }
}
