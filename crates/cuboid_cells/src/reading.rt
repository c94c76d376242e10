//! Reading the parts of a run from the front of bytes.
ghost use Rattle.std.specs.Prelude.{◌≡◌, ◌+◌, ◌*◌, ◌≤◌, ◌<◌, ◌↔◌, length, IfNone, IfOk, IfSome, IsErr};
ghost use Rattle.std.specs.Prelude.{IsOkUnless, IsTrue, OnOk};
ghost use Rattle.cuboid_cells.specs.Cells.{FollowRules};
ghost use Rattle.cube_model.specs.declared.fault.Fault.{Fault};
ghost use Rattle.cuboid_cells.specs.Pieces.{AreCellsFrom, least_after};
ghost use Rattle.cuboid_cells.specs.Reading.{IsNumberIn, ReadsCell, ReadsCells, ReadsRunHeader, ReadsKey, ReadsMode};
ghost use Rattle.cuboid_cells.specs.Reading.{ReadsSummaries, ReadsSummary, ReadsThree};
ghost use Rattle.cuboid_cells.specs.Spelled.{cell_bytes, mode_bytes};

use crate::cell::Cell;
use crate::encoding::{bytes_of_cell, name};
use crate::key::Key;
use crate::limits::{ALL_CODE, MOST_CELLS};
use crate::rules::{may_follow, number_after};
use crate::summary::{Summaries, Summary};
use cube_model::Fault;
use lattice::View;
use std::alloc::Global;
use wire::Cursor;

// What is before the cells.
#[derive(Clone, Copy)]
pub(crate) struct Header<'a> {
    pub(crate) name: &'a [u8],
    pub(crate) view: u32,
    pub(crate) from: u32,
    pub(crate) to: u32,
    pub(crate) cells: u32,
}

impl<'a> Header<'a> {
    ghost use Rattle.lattice.specs.declared.view.View.{View};
    ghost use Rattle.cuboid_cells.specs.Reading.{IsHeaderOf, IsHeaderWith};

    // The view of whose run it is the header, where the run has so many bytes.
    pub(crate) fn view(&self, bytes: usize) -> Option<View>
        ensures some { IfSome result (IsHeaderOf bytes self.now) }
        ensures none { IfNone result ((view : View) → IsHeaderOf bytes self.now view → ⊥) }
    {
        if self.view >= 512 {
            return None;
        }
        let view = View::new(self.view as u16)?;
        if self.is_with(view.ship_mode, bytes) {
            Some(view)
        } else {
            None
        }
    }

    // Whether the run has so many bytes, with a fifth code in each cell or none.
    fn is_with(&self, ship_modes: bool, bytes: usize) -> bool
        ensures { IsTrue result ↔ IsHeaderWith ship_modes bytes self.now }
    {
        self.name == name(ship_modes)
            && self.from < self.to
            && self.cells as usize <= MOST_CELLS
            && bytes == 20 + bytes_of_cell(ship_modes) * self.cells as usize
    }
}

// The header at the front of bytes.
pub(crate) fn read_header<'a>(cursor: &mut Cursor<'a>) -> Result<Header<'a>, Fault>
    ensures ok { IfOk result (ReadsRunHeader cursor.old cursor.new) }
    ensures short { IsErr result ↔ (length cursor.old < 20) }
    ensures fault { IsOkUnless result Fault.BadLayout }
{
    Ok(Header {
        name: cursor.bytes(4)?,
        view: cursor.u32()?,
        from: cursor.u32()?,
        to: cursor.u32()?,
        cells: cursor.u32()?,
    })
}

// So many cells at the front of bytes, which are cells of a view if they keep its rules, and whether they do.
pub(crate) fn read_cells(
    alloc: Global,
    cursor: &mut Cursor<'_>,
    view: View,
    count: usize,
) -> Result<(Vec<Cell>, bool), Fault>
    requires { cell_bytes view.ship_mode * count ≤ length cursor.old }
    ensures ok { IfOk result (λ read. ReadsCells view.ship_mode count cursor.old cursor.new read.0.items) }
    ensures rules { IfOk result (λ read. IsTrue read.1 ↔ FollowRules view read.0.items) }
    ensures memory { IsOkUnless result Fault.Memory }
{
    let mut cells = Vec::with_capacity(alloc, count)?;
    match read_on(cursor, view, 0, count, &mut cells)? {
        Some(_) => Ok((cells, true)),
        None => Ok((cells, false)),
    }
}

// So many cells at the front of bytes, in place of those that are given, and the least number that the key of a cell
// after them can have. Nothing where they are no cells of the view that ascend by their keys from a number on.
//
// A cell is looked at as soon as it is read, while it is at hand: all of them together may be more than a cache holds.
pub(crate) fn read_on(
    cursor: &mut Cursor<'_>,
    view: View,
    least: u128,
    count: usize,
    cells: &mut Vec<Cell>,
) -> Result<Option<u128>, Fault>
    requires { cell_bytes view.ship_mode * count ≤ length cursor.old }
    ensures ok { OnOk result (ReadsCells view.ship_mode count cursor.old cursor.new cells.new.items) }
    ensures some { IfOk result
        (λ found. IfSome found
        (λ next. AreCellsFrom view least cells.new.items × (next ≡ least_after least cells.new.items))) }
    ensures none { IfOk result (λ found. IfNone found (AreCellsFrom view least cells.new.items → ⊥)) }
    ensures memory { IsOkUnless result Fault.Memory }
{
    cells.clear();
    let mut fine = true;
    let mut next = least;
    for _ in 0..count {
        let cell = next_cell(cursor, view.ship_mode);
        fine = fine & may_follow(view, next, &cell);
        next = number_after(cell.key);
        cells.push(cell)?;
    }
    if fine { Ok(Some(next)) } else { Ok(None) }
}

// The cell at the front of bytes, which the caller knows to be there.
#[inline(always)]
fn next_cell(cursor: &mut Cursor<'_>, ship_modes: bool) -> Cell
    requires { cell_bytes ship_modes ≤ length cursor.old }
    ensures { ReadsCell ship_modes cursor.old cursor.new result }
{
    Cell {
        key: next_key(cursor, ship_modes),
        count: cursor.next_u64(),
        measures: next_summaries(cursor),
    }
}

#[inline(always)]
fn next_key(cursor: &mut Cursor<'_>, ship_modes: bool) -> Key
    requires { 8 + mode_bytes ship_modes ≤ length cursor.old }
    ensures { ReadsKey ship_modes cursor.old cursor.new result }
{
    Key {
        customer: cursor.next_u16(),
        supplier: cursor.next_u16(),
        part: cursor.next_u16(),
        date: cursor.next_u16(),
        ship_mode: next_mode(cursor, ship_modes),
    }
}

// The number of the key at the front of bytes, which the caller knows to be there.
pub(crate) fn number_in(bytes: &[u8], ship_modes: bool) -> u128
    requires { 8 + mode_bytes ship_modes ≤ length bytes.now }
    ensures { IsNumberIn ship_modes bytes.now result }
{
    let mut cursor = Cursor::new(bytes);
    next_key(&mut cursor, ship_modes).number()
}

// A fifth code, if there is one.
#[inline(always)]
fn next_mode(cursor: &mut Cursor<'_>, ship_modes: bool) -> u16
    requires { mode_bytes ship_modes ≤ length cursor.old }
    ensures { ReadsMode ship_modes cursor.old cursor.new result }
{
    match ship_modes {
        false => ALL_CODE,
        true => cursor.next_u16(),
    }
}

#[inline(always)]
fn next_summaries(cursor: &mut Cursor<'_>) -> Summaries
    requires { 144 ≤ length cursor.old }
    ensures { ReadsSummaries cursor.old cursor.new result }
{
    let (quantity, extendedprice, revenue) = next_three(cursor);
    let (supplycost, discounted, profit) = next_three(cursor);
    Summaries {
        quantity,
        extendedprice,
        revenue,
        supplycost,
        discounted,
        profit,
    }
}

// What is kept of three measures.
#[inline(always)]
fn next_three(cursor: &mut Cursor<'_>) -> (Summary, Summary, Summary)
    requires { 72 ≤ length cursor.old }
    ensures { ReadsThree cursor.old cursor.new result }
{
    (
        next_summary(cursor),
        next_summary(cursor),
        next_summary(cursor),
    )
}

#[inline(always)]
fn next_summary(cursor: &mut Cursor<'_>) -> Summary
    requires { 24 ≤ length cursor.old }
    ensures { ReadsSummary cursor.old cursor.new result }
{
    Summary {
        sum: cursor.next_i64(),
        least: cursor.next_i64(),
        greatest: cursor.next_i64(),
    }
}
