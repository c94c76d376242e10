//! The numbers of the groups of cells.
ghost use Rattle.std.specs.Prelude.{◌≡◌, ◌↔◌, true, IfOk, IsTrue, OnErr};
ghost use Rattle.std.specs.Option.{option_map};
ghost use Rattle.cube_model.specs.declared.rows.LineOrder.{LineOrder};
ghost use Rattle.group_numbers.specs.GroupNumbers.{IsGroupNumbersOver, query_of};
ghost use Rattle.dimensions.specs.Shown.{AreStorable};
ghost use Rattle.cuboid_cells.specs.Cells.{IsCellOf};
ghost use Rattle.cuboid_upkeep.specs.CellNumbers.{AreUnwanted, IsCellNumber};
ghost use Rattle.cuboid_upkeep.specs.Codes.{modes_of};
ghost use Rattle.cuboid_upkeep.specs.Representatives.{IsCodeOfMode, IsRepresentative};

use crate::codes::is_all;
use crate::member_parts::{MemberParts, parts_of_members};
use cube_model::Axis;
use cuboid_cells::Cell;
use cuboid_cells::limits::ALL_CODE;
use dictionary::Dictionary;
use dimensions::Dims;
use group_numbers::{GroupNumbers, GroupNumbersOver};
use lattice::View;
use std::alloc::{AllocError, Global};
use std::marker::Model;

// How many numbers a code has.
const CODES: u128 = 65_536;

// The code of every member together.
const EVERY: u128 = 65_535;

/// A code of a cell is that of no member.
#[derive(Clone, Copy, PartialEq, Eq)]
pub struct UnknownMember;

/// The numbers of the groups that the cells of a view belong to by a query. Contracts see the dimensions, the query,
/// the view and the ship modes.
///
/// A number is the sum of what the members of a cell give to it. That follows from their codes, from tables that are
/// made once, so that for a cell neither keys nor rows of dimensions are looked at.
#[derive(Drop)]
pub struct CellNumbers<'a> {
    grouping: GroupNumbersOver<'a>,
    view: View,
    modes: Option<&'a Dictionary>,
    // Whether rows of zeros keep the conditions on the numbers of rows.
    within: bool,
    customers: MemberParts,
    suppliers: MemberParts,
    parts: MemberParts,
    dates: MemberParts,
}

impl<'a> Model for CellNumbers<'a> {
    ghost use Rattle.std.specs.Option.{option_map};
    ghost use Rattle.cuboid_upkeep.specs.CellNumbers.{AreTables, AskedOfCells};
    ghost use Rattle.cuboid_upkeep.specs.Codes.{modes_of};

    ghost Value = { AskedOfCells };

    ghost view = { λ numbers. record {
      dimensions = numbers.grouping.dimensions;
      query = numbers.grouping.query;
      view = numbers.view;
      modes = modes_of (option_map (λ modes. modes.now) numbers.modes);
    } };

    ghost invariant = { λ numbers. AreTables (record {
      dimensions = numbers.grouping.dimensions;
      query = numbers.grouping.query;
      view = numbers.view;
      modes = modes_of (option_map (λ modes. modes.now) numbers.modes);
    }) numbers.within numbers.customers numbers.suppliers numbers.parts numbers.dates };
}

impl<'a> CellNumbers<'a> {
    /// Those of the cells of a view, whose fifth codes are places among the modes. Only a view that groups by ship mode
    /// looks at the modes.
    pub fn of(
        alloc: Global,
        dims: &'a Dims,
        grouping: &'a GroupNumbers,
        view: View,
        modes: Option<&'a Dictionary>,
    ) -> Result<CellNumbers<'a>, AllocError>
        requires { IsGroupNumbersOver dims.now grouping.now }
        ensures asked { IfOk result (λ numbers. numbers ≡ record {
          dimensions = dims.now;
          query = query_of grouping.now;
          view = view;
          modes = modes_of (option_map (λ modes. modes.now) modes.entry);
        }) }
        ensures storable { AreStorable dims.now }
    {
        let grouping = grouping.over(dims);
        let within = grouping.bounds().hold(0, 0);
        let customers = parts_of_members(alloc, dims, &grouping, Axis::Customer, view.customer)?;
        let suppliers = parts_of_members(alloc, dims, &grouping, Axis::Supplier, view.supplier)?;
        let parts = parts_of_members(alloc, dims, &grouping, Axis::Part, view.part)?;
        let dates = parts_of_members(alloc, dims, &grouping, Axis::Date, view.date)?;
        Ok(CellNumbers {
            grouping,
            view,
            modes,
            within,
            customers,
            suppliers,
            parts,
            dates,
        })
    }

    /// The number of the group of a cell of the view, if the rows of the cell are selected. It refuses a cell with a
    /// code that no member has: no row represents it.
    #[inline]
    pub fn number(&self, cell: &Cell) -> Result<Option<u128>, UnknownMember>
        requires { IsCellOf self.now.view cell.now }
        ensures ok { IfOk result (IsCellNumber self.now cell.now) }
        ensures refused { OnErr result ((row : LineOrder)
            → IsRepresentative self.now.dimensions self.now.modes self.now.view cell.now row → ⊥) }
    {
        if !has_mode(self.view, self.modes, cell.key.ship_mode) {
            return Err(UnknownMember);
        }
        let Some(customer) = self.customers.at(cell.key.customer) else {
            return Err(UnknownMember);
        };
        let Some(supplier) = self.suppliers.at(cell.key.supplier) else {
            return Err(UnknownMember);
        };
        let Some(part) = self.parts.at(cell.key.part) else {
            return Err(UnknownMember);
        };
        let Some(date) = self.dates.at(cell.key.date) else {
            return Err(UnknownMember);
        };
        if !self.within {
            return Ok(None);
        }
        Ok(self.grouping.number_by(customer, supplier, part, date))
    }

    /// The least number, from one on, that the key of a cell of the view can have which is to be looked at, and nothing
    /// where there is no such cell: the others have no rows that are selected.
    ///
    /// Only the code on the first axis that the view groups is looked at, by which keys ascend.
    pub fn next_number(&self, from: u128) -> Option<u128>
        ensures { AreUnwanted self.now from result }
    {
        let view = self.view;
        if !is_all(view.customer) {
            return self
                .customers
                .next_number(0, CODES * CODES * CODES * CODES, from);
        }
        if !is_all(view.supplier) {
            let before = EVERY * CODES;
            return self
                .suppliers
                .next_number(before, CODES * CODES * CODES, from);
        }
        if !is_all(view.part) {
            let before = (EVERY * CODES + EVERY) * CODES;
            return self.parts.next_number(before, CODES * CODES, from);
        }
        if !is_all(view.date) {
            let before = ((EVERY * CODES + EVERY) * CODES + EVERY) * CODES;
            return self.dates.next_number(before, CODES, from);
        }
        Some(from)
    }
}

// Whether the fifth code of a cell is that of a mode, where the view groups by ship mode.
#[inline]
fn has_mode(view: View, modes: Option<&Dictionary>, code: u16) -> bool
    ensures { IsTrue result ↔ (view.ship_mode ≡ true
        → IsCodeOfMode (modes_of (option_map (λ modes. modes.now) modes.entry)) code) }
{
    !view.ship_mode || is_mode(modes, code)
}

// Whether a code is that of a mode.
#[inline]
fn is_mode(modes: Option<&Dictionary>, code: u16) -> bool
    ensures { IsTrue result ↔ IsCodeOfMode (modes_of (option_map (λ modes. modes.now) modes.entry)) code }
{
    let Some(modes) = modes else {
        return false;
    };
    if code == ALL_CODE {
        return false;
    }
    let Some(_text) = modes.text(u32::from(code)) else {
        return false;
    };
    true
}
