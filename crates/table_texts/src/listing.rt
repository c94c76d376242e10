//! The list of the members of an attribute.
ghost use Rattle.std.specs.Prelude.{◌≡◌, ◌<◌, [], length, slice_index_or};
ghost use Rattle.std.specs.List.{flat_map};
ghost use Rattle.cube_model.specs.Attributes.{axis_of};
ghost use Rattle.cube_model.specs.Places.{attr_members, row_count_of, text_at, texts_of};
ghost use Rattle.table_texts.specs.Members.{header_line, member_line, members_line, members_text};
ghost use Rattle.table_texts.specs.Tallies.{AreTallies, IsTally, WritesInMemory};
ghost use Rattle.ssb_reports.specs.Writing.{Writes};

use crate::part::{Part, write_row};
use crate::tallies::{Tally, tallies_of};
use crate::uppers::{Uppers, uppers_of};
use cube_model::{Attr, Fault};
use dimensions::Dims;
use ssb_reports::{write_bytes, write_number};
use std::alloc::Global;
use std::io::Write;

/// Hands a writer the list of the members of an attribute, in order by bytes: with each the members above it, and how
/// many rows of the dimension have it. It does not flush.
///
/// It takes memory once, for a tally of each member, and writes nothing where that is refused.
pub fn write_members<W: Write>(
    alloc: Global,
    dims: &Dims,
    attr: Attr,
    out: &mut W,
) -> Result<(), Fault>
    ensures { WritesInMemory (W.contents out.old) (W.contents out.new) result (members_text dims.now attr) }
{
    let tallies = tallies_of(alloc, dims, attr)?;
    write_list(dims, attr, tallies.as_slice(), out)
}

fn write_list<W: Write>(
    dims: &Dims,
    attr: Attr,
    tallies: &[Tally],
    out: &mut W,
) -> Result<(), Fault>
    requires { AreTallies dims.now attr (row_count_of dims.now (axis_of attr)) tallies.now }
    ensures { Writes (W.contents out.old) (W.contents out.new) result (members_text dims.now attr) }
{
    write_header(attr, out)?;
    write_lines(dims, attr, tallies, out)?;
    write_count(tallies.len(), out)
}

fn write_header<W: Write>(attr: Attr, out: &mut W) -> Result<(), Fault>
    ensures { Writes (W.contents out.old) (W.contents out.new) result (header_line attr) }
{
    let last = [Part::Text(b"rows")];
    let rows = last.as_slice();
    match uppers_of(attr) {
        Uppers::Nothing => write_row(out, &[attr].as_slice(), &rows),
        Uppers::One(next) => write_row(out, &[attr, next].as_slice(), &rows),
        Uppers::Two(next, top) => write_row(out, &[attr, next, top].as_slice(), &rows),
    }
}

fn write_lines<W: Write>(
    dims: &Dims,
    attr: Attr,
    tallies: &[Tally],
    out: &mut W,
) -> Result<(), Fault>
    requires { AreTallies dims.now attr (row_count_of dims.now (axis_of attr)) tallies.now }
    ensures { Writes (W.contents out.old) (W.contents out.new) result
        (flat_map (member_line dims.now attr) (attr_members dims.now attr)) }
{
    for rank in 0..dims.members(attr) {
        write_line(dims, attr, rank as u16, tallies[rank], out)?;
    }
    Ok(())
}

fn write_line<W: Write>(
    dims: &Dims,
    attr: Attr,
    rank: u16,
    tally: Tally,
    out: &mut W,
) -> Result<(), Fault>
    requires rank { rank < length (attr_members dims.now attr) }
    requires tally { IsTally (texts_of dims.now attr) (row_count_of dims.now (axis_of attr))
        (slice_index_or (attr_members dims.now attr) rank []) tally }
    ensures { Writes (W.contents out.old) (W.contents out.new) result
        (member_line dims.now attr (slice_index_or (attr_members dims.now attr) rank [])) }
{
    let member = Part::Text(dims.member(attr, rank));
    let Tally { first, rows } = tally;
    let last = [Part::Rows(rows)];
    let count = last.as_slice();
    match uppers_of(attr) {
        Uppers::Nothing => write_row(out, &[member].as_slice(), &count),
        Uppers::One(next) => {
            let next = Part::Text(text_at(dims, next, first));
            write_row(out, &[member, next].as_slice(), &count)
        }
        Uppers::Two(next, top) => {
            let next = Part::Text(text_at(dims, next, first));
            let top = Part::Text(text_at(dims, top, first));
            write_row(out, &[member, next, top].as_slice(), &count)
        }
    }
}

fn text_at<'d>(dims: &'d Dims, attr: Attr, place: usize) -> &'d [u8]
    requires { place < row_count_of dims.now (axis_of attr) }
    ensures { result.now ≡ text_at dims.now attr place }
{
    dims.member(attr, dims.rank(attr, place))
}

fn write_count<W: Write>(count: usize, out: &mut W) -> Result<(), Fault>
    ensures { Writes (W.contents out.old) (W.contents out.new) result (members_line count) }
{
    write_bytes(out, b"members ")?;
    write_number(out, count)?;
    write_bytes(out, b"\n")
}
