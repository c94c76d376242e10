//! The kinds of the rows of a dimension. Rows of one kind have the same attributes.
ghost use Rattle.std.specs.Prelude.{◌≡◌, IfOk};
ghost use Rattle.std.specs.List.{range_with_len};
ghost use Rattle.dictionary.specs.Columns.{AreCodes};
ghost use Rattle.dimensions.specs.Shown.{AreStorable};
ghost use Rattle.group_numbers.specs.Kinds.{AreKinds, HasEachCode, HasEachKind, has_kind, kind_in};

use cube_model::Axis;
use dimensions::Dims;
use std::alloc::{AllocError, Global};

/// The kind of each row of a dimension, by the row's place.
#[derive(Clone, Copy)]
pub enum Kinds<'a> {
    /// Each row is a kind of its own.
    Rows,
    /// By the code of the text that determines all others of a row.
    Codes(&'a [u16]),
}

impl<'a> Kinds<'a> {
    /// Those of a dimension.
    #[inline(always)]
    pub fn of(dims: &'a Dims, axis: Axis) -> Kinds<'a>
        ensures { AreKinds dims.now axis result }
    {
        match axis {
            Axis::Date => Kinds::Rows,
            _ => Kinds::Codes(dims.codes(axis, 0)),
        }
    }

    /// The kind of the row at a place.
    #[inline(always)]
    pub fn at(self, place: usize) -> usize
        requires { has_kind self place }
        ensures { result ≡ kind_in self.entry place }
    {
        match self {
            Kinds::Rows => place,
            Kinds::Codes(codes) => usize::from(codes[place]),
        }
    }
}

/// For each kind of the rows of a dimension, by the kinds, the place of a row of it. It can only fail when out of
/// memory.
pub fn places_of_kinds(alloc: Global, dims: &Dims, axis: Axis) -> Result<Vec<usize>, AllocError>
    ensures places { IfOk result (λ places. HasEachKind dims.now axis places.items) }
    ensures storable { AreStorable dims.now }
{
    match axis {
        Axis::Date => all_places(alloc, dims.row_count(axis)),
        _ => first_places(alloc, dims.codes(axis, 0), dims.texts(axis, 0).len()),
    }
}

// The place of the first use of each of so many codes. It reads no further than the last of them.
fn first_places(alloc: Global, codes: &[u16], count: usize) -> Result<Vec<usize>, AllocError>
    requires { AreCodes count codes.now }
    ensures { IfOk result (λ places. HasEachCode codes.now places.items) }
{
    let mut places = Vec::with_capacity(alloc, count)?;
    for place in 0..codes.len() {
        if places.len() == count {
            return Ok(places);
        }
        if usize::from(codes[place]) == places.len() {
            places.push(place)?;
        }
    }
    Ok(places)
}

// The places of so many rows.
fn all_places(alloc: Global, count: usize) -> Result<Vec<usize>, AllocError>
    ensures { IfOk result (λ rows. rows.items ≡ range_with_len 0 count) }
{
    (0..count).collect(alloc)
}
