//! A table of the cells of a view, by the numbers of their keys.
ghost use Rattle.std.specs.Prelude.{◌≡◌, ◌⊎◌, ◌<◌, ◌++◌, ℕ, [], List, IfErr, IfOk, IsTrue, OnOk, false, length};
ghost use Rattle.std.specs.Prelude.{slice_index_or, true};
ghost use Rattle.group_numbers.specs.Rows.{row_at};
ghost use Rattle.cuboid_cells.specs.declared.cell.Cell.{Cell};
ghost use Rattle.cube_model.specs.declared.fault.Fault.{Fault};
ghost use Rattle.cube_model.specs.declared.rows.DimRows.{DimRows};
ghost use Rattle.cube_model.specs.declared.rows.LineOrder.{LineOrder};
ghost use Rattle.cuboid_upkeep.specs.Grouping.{RepresentRows};
ghost use Rattle.cuboid_upkeep.specs.Steps.{AreUnfit};
ghost use Rattle.lattice.specs.declared.view.View.{View};
ghost use Rattle.cuboid_upkeep.specs.declared.member_codes.ViewMembers.{ViewMembers};
ghost use Rattle.cuboid_upkeep.specs.Growing.{IsTableOver};
ghost use Rattle.cuboid_upkeep.specs.Keys.{AreRowNumbers, IsKeyOfRow, IsNumberOfRow};
ghost use Rattle.cuboid_upkeep.specs.Members.{AreMembersOf};
ghost use Rattle.cuboid_upkeep.specs.Numbers.{AreFew, numbers_count};
ghost use Rattle.cuboid_upkeep.specs.Slots.{SlotsHaveCells, HasNumber, IsTaken, cells_in, slot_is_used, used};

use crate::keys::{NO_KEY, row_key};
use crate::member_codes::ViewMembers;
use crate::row_cell::row_cell;
use crate::row_numbers::numbers_of_rows;
use crate::taking::take_in;
use cube_model::Fault;
use cuboid_cells::limits::ALL_CODE;
use cuboid_cells::{Cell, Cells, Key, Summaries, Summary};
use dimensions::Dims;
use group_numbers::FactRows;
use lattice::View;
use std::alloc::{AllocError, Global};

/// A slot for the cell of each number.
pub struct CellTable {
    pub view: View,
    pub members: ViewMembers,
    pub slots: Vec<Cell>,
    /// About how many slots are in use: at least as many as are, unless there are too many to count.
    pub about: usize,
}

// Written out, so that a proof has one call to follow where a table is let go.
impl Drop for CellTable {
    fn drop(self) {
        let CellTable {
            view: _,
            members: _,
            slots: _,
            about: _,
        } = self;
    }
}

// How many rows are looked at together before they are taken in.
const AHEAD: usize = 64;

// What is kept of no number.
const NOTHING: Summary = Summary {
    sum: 0,
    least: 0,
    greatest: 0,
};

// A slot that is free.
const FREE: Cell = Cell {
    key: NO_KEY,
    count: 0,
    measures: Summaries {
        quantity: NOTHING,
        extendedprice: NOTHING,
        revenue: NOTHING,
        supplycost: NOTHING,
        discounted: NOTHING,
        profit: NOTHING,
    },
};

impl CellTable {
    // A table of no cell, of a view that does not group by ship mode and that has so many numbers.
    pub(crate) fn new(
        alloc: Global,
        view: View,
        members: ViewMembers,
        size: usize,
    ) -> Result<CellTable, AllocError>
        requires no_modes { view.ship_mode ≡ false }
        requires few { AreFew members }
        requires size { size ≡ numbers_count members }
        ensures over { IfOk result (λ table. (dimensions : DimRows) → AreMembersOf dimensions view members
            → IsTableOver dimensions table) }
        ensures none { IfOk result (λ table. cells_in table.view table.slots.items ≡ record {
          view = view;
          cells = [];
        }) }
    {
        let slots = free_slots(alloc, size)?;
        Ok(CellTable {
            view,
            members,
            slots,
            about: 0,
        })
    }

    // Takes fact rows in. `BadLayout` where a row has not its members, or a number would exceed its type. Whatever the
    // ship modes are, since the view does not group by them.
    pub(crate) fn add_rows<F: FactRows>(
        &mut self,
        alloc: Global,
        dims: &Dims,
        rows: &F,
    ) -> Result<(), Fault>
        requires over { IsTableOver dims.now self.old }
        ensures ok { OnOk result ((modes : List (List ℕ)) (so_far : List LineOrder)
            → RepresentRows dims.now modes so_far (cells_in self.old.view self.old.slots.items)
            → RepresentRows dims.now modes (so_far ++ F.rows rows.now)
            (cells_in self.new.view self.new.slots.items)) }
        ensures over { OnOk result (IsTableOver dims.now self.new) }
        ensures view { self.new.view ≡ self.old.view }
        ensures refused { IfErr result (λ fault. (modes : List (List ℕ)) (so_far : List LineOrder)
            → RepresentRows dims.now modes so_far (cells_in self.old.view self.old.slots.items)
            → (fault ≡ Fault.Memory)
            ⊎ ((fault ≡ Fault.BadLayout) × AreUnfit dims.now modes self.old.view (so_far ++ F.rows rows.now))) }
    {
        let numbers = numbers_of_rows(alloc, dims, self.view, &self.members, rows)?;
        let free = take_in_rows(
            &mut self.slots,
            dims,
            self.view,
            &self.members,
            numbers.as_slice(),
            rows,
        )?;
        self.about = self.about.saturating_add(free);
        Ok(())
    }

    // The cells, by ascending keys.
    pub(crate) fn finish(self, alloc: Global) -> Result<Cells, AllocError>
        requires { (dimensions : DimRows) × IsTableOver dimensions self }
        ensures { IfOk result (λ cells. cells ≡ cells_in self.view self.slots.items) }
    {
        let room = self.about.min(self.slots.len());
        let cells = used_cells(alloc, self.slots.as_slice(), room)?;
        Ok(Cells::of(self.view, cells))
    }
}

// So many free slots.
fn free_slots(alloc: Global, size: usize) -> Result<Vec<Cell>, AllocError>
    ensures size { IfOk result (λ slots. length slots.items ≡ size) }
    ensures free { IfOk result (λ slots. used slots.items ≡ []) }
    ensures slots { IfOk result (λ slots. (view : View) (members : ViewMembers)
        → SlotsHaveCells view members 0 slots.items) }
{
    let mut slots = Vec::new(alloc);
    slots.resize(size, FREE)?;
    Ok(slots)
}

// Takes fact rows in, of whose keys the numbers are given. It answers how many of the slots were free, each as often as
// rows that came together were to go there.
fn take_in_rows<F: FactRows>(
    slots: &mut Vec<Cell>,
    dims: &Dims,
    view: View,
    members: &ViewMembers,
    numbers: &[u32],
    rows: &F,
) -> Result<usize, Fault>
    requires members { AreMembersOf dims.now view members.now }
    requires no_modes { view.ship_mode ≡ false }
    requires size { length slots.old.items ≡ numbers_count members.now }
    requires slots { SlotsHaveCells view members.now 0 slots.old.items }
    requires numbers { AreRowNumbers dims.now view members.now (F.rows rows.now) (length (F.rows rows.now))
        numbers.now }
    ensures ok { IfOk result
        (λ _. IsTaken dims.now view members.now (F.rows rows.now) (length (F.rows rows.now)) slots.old.items
        slots.new.items) }
    ensures refused { IfErr result (λ fault. (fault ≡ Fault.BadLayout) × ((so_far : List LineOrder)
        → RepresentRows dims.now [] so_far (cells_in view slots.old.items)
        → AreUnfit dims.now [] view (so_far ++ F.rows rows.now))) }
{
    let mut free = 0;
    for place in 0..rows.count() {
        free = with_free_ahead(slots.as_slice(), numbers, place, free);
        let number = numbers[place] as usize;
        let key = key_for(&slots[number], number, dims, view, members, rows, place);
        let cell = row_cell(key, rows, place)?;
        take_in(slots, number, &cell)?;
    }
    Ok(free)
}

// The key of the row at a place, whose number is given: that of the slot of the number, if it is in use.
#[inline(always)]
fn key_for<F: FactRows>(
    slot: &Cell,
    number: usize,
    dims: &Dims,
    view: View,
    members: &ViewMembers,
    rows: &F,
    place: usize,
) -> Key
    requires members { AreMembersOf dims.now view members.now }
    requires no_modes { view.ship_mode ≡ false }
    requires slot { slot_is_used slot.now ≡ true → HasNumber view members.now number slot.now }
    requires place { place < length (F.rows rows.now) }
    requires number { IsNumberOfRow dims.now view members.now (row_at (F.rows rows.now) place) number }
    ensures { IsKeyOfRow dims.now [] view members.now (row_at (F.rows rows.now) place) result }
{
    if slot.count >= 1 {
        return slot.key;
    }
    match row_key(dims, view, members, rows, place, ALL_CODE) {
        Some(key) => key,
        None => NO_KEY,
    }
}

// At every 64th place, a count with the free slots of the next 64 rows; elsewhere the count.
#[inline(always)]
fn with_free_ahead(slots: &[Cell], numbers: &[u32], place: usize, free: usize) -> usize {
    if place % AHEAD == 0 {
        free.saturating_add(free_ahead(slots, numbers, place))
    } else {
        free
    }
}

// How many of the slots of the 64 numbers from a place on are free.
//
// Of each slot all parts are looked at, so that the processor waits for the memory of many slots at once, and has it
// when their rows are taken in one after another.
fn free_ahead(slots: &[Cell], numbers: &[u32], place: usize) -> usize {
    let end = numbers.len().min(place.saturating_add(AHEAD));
    match numbers.get(place..end) {
        Some(ahead) => free_among(slots, ahead),
        None => 0,
    }
}

fn free_among(slots: &[Cell], numbers: &[u32]) -> usize {
    let mut free: usize = 0;
    for number in numbers {
        if is_free(slots, *number as usize) {
            free = free.saturating_add(1);
        }
    }
    free
}

// Whether the slot at a place is free.
#[inline(always)]
fn is_free(slots: &[Cell], place: usize) -> bool
    ensures { IsTrue result → (slot : Cell) → place < length slots.now
        → (slice_index_or slots.now place slot).count ≡ 0 }
{
    match slots.get(place) {
        Some(slot) => {
            (slot.count == 0)
                & (slot.measures.extendedprice.greatest == 0)
                & (slot.measures.supplycost.greatest == 0)
                & (slot.measures.profit.greatest == 0)
        }
        None => false,
    }
}

// The cells of the slots that are in use. There is room for so many from the start.
fn used_cells(alloc: Global, slots: &[Cell], room: usize) -> Result<Vec<Cell>, AllocError>
    ensures { IfOk result (λ cells. cells.items ≡ used slots.now) }
{
    let mut cells = Vec::with_capacity(alloc, room)?;
    for slot in slots {
        if slot.count > 0 {
            cells.push(*slot)?;
        }
    }
    Ok(cells)
}
