//! The groups of a fold that is done, and their lines, of which none is made.
ghost use Rattle.std.specs.Prelude.{◌≡◌, ◌<◌, pos, Err, List, length, slice_index_or, IfErr, IfNone, IfOk, IfSome};
ghost use Rattle.group_tallies.specs.Limits.{AreFoldable, EndsFolding};
ghost use Rattle.cube_model.specs.Answers.{answer};
ghost use Rattle.cube_model.specs.declared.answer.Member.TheVariants.{All, Text};
ghost use Rattle.cube_model.specs.declared.answer.Value.TheVariants.{Whole};
ghost use Rattle.cube_model.specs.declared.rows.LineOrder.{LineOrder};
ghost use Rattle.group_tallies.specs.FoldInvariant.{AreTallied, IsFold};
ghost use Rattle.group_tallies.specs.Groups.{finest};
ghost use Rattle.group_tallies.specs.Slots.{entries_of};
ghost use Rattle.group_numbers.specs.GroupNumbers.{IsGroupNumbersOver, query_of};

use crate::columns::value_at;
use crate::finish::groups_of_kind;
use crate::lines::lines_among;
use crate::slots::Slots;
use crate::tally::Tally;
use cube_model::{Answer, Fault, Value};
use dimensions::Dims;
use group_numbers::GroupNumbers;
use std::alloc::{AllocError, Global};
use std::marker::Model;

/// The groups of a fold that is done, in the order of the answer's lines. They have no texts: each line's are those of
/// the dimensions.
pub struct Groups {
    grouping: GroupNumbers,
    columns: Vec<Vec<Tally>>,
    order: Vec<(u128, u32)>,
}

// Written out, so that a proof has one call to follow where groups are let go.
impl Drop for Groups {
    fn drop(self) {
        let Groups {
            grouping: _,
            columns: _,
            order: _,
        } = self;
    }
}

impl Groups {
    ghost use Rattle.group_tallies.specs.GroupLines.{AreGroupsOver, answer_over, lines_over};

    /// The groups of what a fold has: the group numbers of its query, the slots of the numbers of groups, and a column
    /// for each aggregate with a tally at each slot. It takes no copy of it.
    ///
    /// `BadLayout` says that a count or a sum over some of the rows would pass its limit.
    pub fn of(
        alloc: Global,
        dims: &Dims,
        grouping: GroupNumbers,
        slots: Slots,
        columns: Vec<Vec<Tally>>,
    ) -> Result<Groups, Fault>
        requires over { IsGroupNumbersOver dims.now grouping }
        requires fold { IsFold dims.now (query_of grouping) slots columns.items }
        ensures over { IfOk result (AreGroupsOver dims.now) }
        ensures answer { IfOk result (λ groups. (rows : List LineOrder)
            → AreTallied dims.now (finest (query_of grouping)) (entries_of slots) columns.items rows
            → answer_over dims.now groups ≡ answer (query_of grouping) dims.now rows) }
        ensures refused { result ≡ Err Fault.BadLayout → (rows : List LineOrder)
            → AreTallied dims.now (finest (query_of grouping)) (entries_of slots) columns.items rows
            → AreFoldable dims.now rows → ⊥ }
        ensures only { IfErr result EndsFolding }
    {
        let mut slots = slots;
        let mut columns = columns;
        let order = groups_of_kind(
            alloc,
            &grouping.over(dims),
            grouping.query(),
            &mut slots,
            &mut columns,
        )?;
        Ok(Groups {
            grouping,
            columns,
            order,
        })
    }

    /// The lines over the dimensions of the fold.
    pub fn over<'a>(&'a self, dims: &'a Dims) -> GroupLines<'a>
        requires { AreGroupsOver dims.now self.now }
        ensures { result ≡ lines_over dims.now self.now }
    {
        GroupLines { dims, groups: self }
    }

    /// The answer over the dimensions of the fold, with its lines.
    pub fn answer(&self, alloc: Global, dims: &Dims) -> Result<Answer, AllocError>
        requires { AreGroupsOver dims.now self.now }
        ensures { IfOk result (λ answer. answer ≡ answer_over dims.now self.now) }
    {
        let grouping = self.grouping.over(dims);
        let columns = self.columns.as_slice();
        let lines = lines_among(
            alloc,
            &grouping,
            self.grouping.query(),
            columns,
            self.order.as_slice(),
        )?;
        Ok(Answer { lines })
    }
}

/// The lines of groups, of which none is made. Contracts see the list of them.
#[derive(Drop)]
pub struct GroupLines<'a> {
    dims: &'a Dims,
    groups: &'a Groups,
}

impl<'a> Model for GroupLines<'a> {
    ghost use Rattle.std.specs.Prelude.{List};
    ghost use Rattle.cube_model.specs.declared.answer.Line.{Line};
    ghost use Rattle.group_tallies.specs.GroupLines.{AreGroupsOver, lines_over};

    ghost Value = { List Line };

    ghost view = { λ lines. lines_over lines.dims.now lines.groups.now };

    ghost invariant = { λ lines. AreGroupsOver lines.dims.now lines.groups.now };
}

impl<'a> GroupLines<'a> {
    ghost use Rattle.group_tallies.specs.GroupLines.{line_at};

    /// How many lines there are.
    pub fn len(&self) -> usize
        ensures { result ≡ length self.now }
    {
        self.groups.order.len()
    }

    /// The line at a place, which counts from 0.
    pub fn line(&self, place: usize) -> GroupLine<'a>
        requires { place < length self.now }
        ensures { result ≡ line_at self.now place }
    {
        let (number, slot) = self.groups.order[place];
        GroupLine {
            dims: self.dims,
            grouping: &self.groups.grouping,
            columns: self.groups.columns.as_slice(),
            number,
            slot,
        }
    }
}

/// A line of groups, which is not made. Contracts see it.
#[derive(Drop)]
pub struct GroupLine<'a> {
    dims: &'a Dims,
    grouping: &'a GroupNumbers,
    columns: &'a [Vec<Tally>],
    number: u128,
    slot: u32,
}

impl<'a> Model for GroupLine<'a> {
    ghost use Rattle.std.specs.Prelude.{◌≡◌, length};
    ghost use Rattle.cube_model.specs.declared.answer.Line.{Line};
    ghost use Rattle.group_tallies.specs.GroupLines.{HasLine, line_by};
    ghost use Rattle.group_numbers.specs.GroupNumbers.{IsGroupNumbersOver, query_of};

    ghost Value = { Line };

    ghost view = { λ l. line_by l.dims.now (query_of l.grouping.now) l.columns.now (l.number, l.slot) };

    ghost invariant = { λ line. IsGroupNumbersOver line.dims.now line.grouping.now
        × (length line.columns.now ≡ length (query_of line.grouping.now).aggregates)
        × HasLine line.dims.now (query_of line.grouping.now) line.columns.now (line.number, line.slot) };
}

impl<'a> GroupLine<'a> {
    /// How many columns it has.
    pub fn columns(&self) -> usize
        ensures { result ≡ length self.now.key }
    {
        self.grouping.query().columns.len()
    }

    /// Its text in a column, where it is: none for ALL.
    pub fn text(&self, column: usize) -> Option<&'a [u8]>
        requires { column < length self.now.key }
        ensures text { IfSome result (λ text. slice_index_or self.now.key column All ≡ Text text.now) }
        ensures all { IfNone result (slice_index_or self.now.key column All ≡ All) }
    {
        self.grouping.over(self.dims).text(column, self.number)
    }

    /// How many values it has.
    pub fn values(&self) -> usize
        ensures { result ≡ length self.now.values }
    {
        self.grouping.query().aggregates.len()
    }

    /// Its value of an aggregate.
    pub fn value(&self, aggregate: usize) -> Value
        requires { aggregate < length self.now.values }
        ensures { result ≡ slice_index_or self.now.values aggregate (Whole (pos 0)) }
    {
        let aggregates = self.grouping.query().aggregates.as_slice();
        value_at(aggregates, self.columns, self.slot as usize, aggregate)
    }
}
