//! Lines in the order that is asked for.
ghost use Rattle.std.specs.Prelude.{◌≡◌, ◌<◌, ◌≤◌, length, None, IfOk, IsOk, IsOkUnless};
ghost use Rattle.std.specs.List.{All, range_with_len};
ghost use Rattle.std.specs.Option.{ForSome, option_map};
ghost use Rattle.group_tallies.specs.GroupLines.{line_at};
ghost use Rattle.report_formats.specs.Arranging.{arranged, limited, lines_at, places_for, sorted_places};

use crate::arrangement::{Arrangement, Sorting};
use crate::comparing::compare_places;
use cube_model::{Fault, Value};
use ssb_reports::Lines;
use std::alloc::{AllocError, Global};
use std::io::Write;

/// The first of some lines in an order. It keeps their places: no line is copied.
pub struct Arranged<'a, L: Lines> {
    lines: &'a L,
    places: Option<Vec<usize>>,
    count: usize,
    ghost fits: { count ≤ length (lines_at (option_map (λ places. places.items) places) (L.lines lines.now)) },
    ghost in_range: { ForSome places (λ places. All (λ place. place < length (L.lines lines.now)) places.items) },
}

impl<'a, L: Lines> Drop for Arranged<'a, L> {
    fn drop(self) {
        let Arranged {
            lines: _,
            places: _,
            count: _,
        } = self;
    }
}

impl<'a, L: Lines> Arranged<'a, L> {
    ghost use Rattle.report_formats.specs.Shown.{shown};

    /// The lines as an arrangement has them. Without an order no memory is taken.
    ///
    /// It can only fail when out of memory.
    pub fn new(
        alloc: Global,
        lines: &'a L,
        arrangement: Arrangement,
    ) -> Result<Arranged<'a, L>, Fault>
        ensures ok { IfOk result (λ found. shown L.Lines found ≡ arranged arrangement (L.lines lines.now)) }
        ensures only { IsOkUnless result Fault.Memory }
        ensures free { arrangement.sorting ≡ None → IsOk result }
    {
        let places = places_for(alloc, lines, arrangement.sorting)?;
        let count = limited(arrangement.limit, lines.count());
        Ok(Arranged {
            lines,
            places,
            count,
        })
    }

    // The place of the line at a place among these.
    fn place_of(&self, place: usize) -> usize
        requires { place < length (shown L.Lines self.now) }
        ensures inside { result < length (L.lines self.now.lines.now) }
        ensures line { line_at (L.lines self.now.lines.now) result ≡ line_at (shown L.Lines self.now) place }
    {
        match &self.places {
            None => place,
            Some(places) => places[place],
        }
    }
}

// How many of so many lines a limit leaves.
fn limited(limit: Option<usize>, count: usize) -> usize
    ensures { result ≡ limited limit count }
{
    match limit {
        None => count,
        Some(limit) => limit.min(count),
    }
}

// The places of lines where an order is asked for.
fn places_for<L: Lines>(
    alloc: Global,
    lines: &L,
    sorting: Option<Sorting>,
) -> Result<Option<Vec<usize>>, AllocError>
    ensures ok { IfOk result
        (λ places. option_map (λ list. list.items) places ≡ places_for sorting (L.lines lines.now)) }
    ensures free { sorting ≡ None → IsOk result }
{
    match sorting {
        None => Ok(None),
        Some(sorting) => {
            let places = sorted_places(alloc, lines, sorting)?;
            Ok(Some(places))
        }
    }
}

// The places of lines in the order that is asked for.
fn sorted_places<L: Lines>(
    alloc: Global,
    lines: &L,
    sorting: Sorting,
) -> Result<Vec<usize>, AllocError>
    ensures { IfOk result (λ places. places.items ≡ sorted_places sorting (L.lines lines.now)) }
{
    let mut places = all_places(alloc, lines.count())?;
    places.sort_unstable_by(|left, right| compare_places(lines, sorting, *left, *right));
    Ok(places)
}

// The places of so many lines.
fn all_places(alloc: Global, count: usize) -> Result<Vec<usize>, AllocError>
    ensures { IfOk result (λ places. places.items ≡ range_with_len 0 count) }
{
    (0..count).collect(alloc)
}

impl<'a, L: Lines> Lines for Arranged<'a, L> {
    ghost use Rattle.report_formats.specs.Shown.{shown};

    ghost lines = { shown L.Lines };

    fn count(&self) -> usize {
        self.count
    }

    fn write_line<W: Write>(&self, place: usize, out: &mut W) -> Result<(), Fault> {
        self.lines.write_line(self.place_of(place), out)
    }

    fn columns(&self, place: usize) -> usize {
        self.lines.columns(self.place_of(place))
    }

    fn text(&self, place: usize, column: usize) -> Option<&[u8]> {
        self.lines.text(self.place_of(place), column)
    }

    fn values(&self, place: usize) -> usize {
        self.lines.values(self.place_of(place))
    }

    fn value(&self, place: usize, aggregate: usize) -> Value {
        self.lines.value(self.place_of(place), aggregate)
    }
}
