//! The table of a dimension.
ghost use Rattle.std.specs.Prelude.{◌≡◌, ◌<◌, ◌^◌, [], ◌∷◌};
ghost use Rattle.cube_model.specs.Attributes.{axis_of};
ghost use Rattle.cube_model.specs.Places.{row_count_of, text_at};
ghost use Rattle.ssb_reports.specs.Report.{row_text};
ghost use Rattle.ssb_reports.specs.Writing.{Writes};
ghost use Rattle.table_texts.specs.Places.{row_fields, is_spellable_at, row_key, texts_listed, texts_at};
ghost use Rattle.table_texts.specs.Spellable.{WritesTable, is_spellable_dimension};
ghost use Rattle.table_texts.specs.Texts.{dimension_text};

use crate::cell::{Cell, write_line};
use crate::spellable::are_field_texts;
use cube_model::{Attr, Axis, Fault};
use dimensions::Dims;
use std::io::Write;

// A column that is not kept.
const NONE: Cell<'static> = Cell::Text(b"");

// The texts that are kept of a row, the lowest member first. Only a day has a fourth.
#[derive(Clone, Copy, Drop)]
struct KeptTexts<'d> {
    first: &'d [u8],
    second: &'d [u8],
    third: &'d [u8],
    fourth: &'d [u8],
}

/// Hands a writer a line for each row of a dimension, in which columns that are not kept are empty. Where one of the
/// rows has a text that no line can hold, it answers `BadLayout` and writes nothing.
///
/// It takes no memory, and does not flush.
pub fn write_dimension<W: Write>(dims: &Dims, axis: Axis, out: &mut W) -> Result<(), Fault>
    ensures { WritesTable (is_spellable_dimension dims.now axis) (W.contents out.old) (W.contents out.new) result
        (dimension_text dims.now axis) }
{
    if !is_spellable(dims, axis) {
        return Err(Fault::BadLayout);
    }
    write_rows(dims, axis, out)
}

fn is_spellable(dims: &Dims, axis: Axis) -> bool
    ensures { result ≡ is_spellable_dimension dims.now axis }
{
    let mut all = true;
    for place in 0..dims.row_count(axis) {
        all = is_spellable_at(dims, axis, place) && all;
    }
    all
}

fn is_spellable_at(dims: &Dims, axis: Axis, place: usize) -> bool
    requires place { place < row_count_of dims.now axis }
    requires key { row_key dims.now axis place < 2 ^ 32 }
    ensures { result ≡ is_spellable_at dims.now axis place }
{
    let KeptTexts {
        first,
        second,
        third,
        fourth,
    } = texts_at(dims, axis, place);
    are_field_texts(&[first, second, third, fourth])
}

fn write_rows<W: Write>(dims: &Dims, axis: Axis, out: &mut W) -> Result<(), Fault>
    ensures { Writes (W.contents out.old) (W.contents out.new) result (dimension_text dims.now axis) }
{
    for place in 0..dims.row_count(axis) {
        write_row(dims, axis, place, out)?;
    }
    Ok(())
}

fn write_row<W: Write>(dims: &Dims, axis: Axis, place: usize, out: &mut W) -> Result<(), Fault>
    requires { place < row_count_of dims.now axis }
    ensures { Writes (W.contents out.old) (W.contents out.new) result (row_text (row_fields dims.now axis place)) }
{
    let key = [Cell::Number(key_at(dims, axis, place) as u64)];
    let texts = texts_at(dims, axis, place);
    let first = Cell::Text(texts.first);
    let second = Cell::Text(texts.second);
    let third = Cell::Text(texts.third);
    let fourth = Cell::Text(texts.fourth);
    match axis {
        Axis::Customer => { write_line(out, &key, &[NONE, NONE, first, second, third, NONE, NONE]) }
        Axis::Supplier => write_line(out, &key, &[NONE, NONE, first, second, third, NONE]),
        Axis::Part => {
            write_line(
                out,
                &key,
                &[NONE, third, second, first, NONE, NONE, NONE, NONE],
            )
        }
        Axis::Date => write_line(
            out,
            &key,
            &[
                NONE, NONE, NONE, second, first, third, NONE, NONE, NONE, NONE, fourth, NONE, NONE,
                NONE, NONE, NONE,
            ],
        ),
    }
}

fn key_at(dims: &Dims, axis: Axis, place: usize) -> u32
    requires { place < row_count_of dims.now axis }
    ensures { result ≡ row_key dims.now axis place }
{
    dims.keys(axis)[place]
}

fn texts_at(dims: &Dims, axis: Axis, place: usize) -> KeptTexts<'_>
    requires { place < row_count_of dims.now axis }
    ensures { texts_listed result ≡ texts_at dims.now axis place }
{
    match axis {
        Axis::Customer => three_texts(
            dims,
            Attr::CustomerCity,
            Attr::CustomerNation,
            Attr::CustomerRegion,
            place,
        ),
        Axis::Supplier => three_texts(
            dims,
            Attr::SupplierCity,
            Attr::SupplierNation,
            Attr::SupplierRegion,
            place,
        ),
        Axis::Part => three_texts(
            dims,
            Attr::PartBrand1,
            Attr::PartCategory,
            Attr::PartMfgr,
            place,
        ),
        Axis::Date => KeptTexts {
            first: text_at(dims, Attr::DateYearmonthnum, place),
            second: text_at(dims, Attr::DateYear, place),
            third: text_at(dims, Attr::DateYearmonth, place),
            fourth: text_at(dims, Attr::DateWeeknuminyear, place),
        },
    }
}

fn three_texts(dims: &Dims, first: Attr, second: Attr, third: Attr, place: usize) -> KeptTexts<'_>
    requires first { place < row_count_of dims.now (axis_of first) }
    requires second { place < row_count_of dims.now (axis_of second) }
    requires third { place < row_count_of dims.now (axis_of third) }
    ensures { texts_listed result ≡ text_at dims.now first place ∷ text_at dims.now second place
        ∷ text_at dims.now third place
        ∷ [] ∷ [] }
{
    KeptTexts {
        first: text_at(dims, first, place),
        second: text_at(dims, second, place),
        third: text_at(dims, third, place),
        fourth: b"",
    }
}

fn text_at<'d>(dims: &'d Dims, attr: Attr, place: usize) -> &'d [u8]
    requires { place < row_count_of dims.now (axis_of attr) }
    ensures { result.now ≡ text_at dims.now attr place }
{
    dims.member(attr, dims.rank(attr, place))
}
