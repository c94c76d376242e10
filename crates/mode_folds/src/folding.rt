//! A fold of a query that may look at ship modes, over fact rows that come in any number of calls.
ghost use Rattle.std.specs.Prelude.{◌≡◌, Err, List, IfErr, IfOk, OnOk, true};
ghost use Rattle.group_tallies.specs.Limits.{EndsFolding};
ghost use Rattle.cube_model.specs.declared.rows.LineOrder.{LineOrder};
ghost use Rattle.cuboid_upkeep.specs.Grouping.{RepresentRows};
ghost use Rattle.lattice.specs.Determined.{Serves};
ghost use Rattle.mode_folds.specs.Answered.{IsAnsweredOver, answered_over};
ghost use Rattle.mode_folds.specs.States.{BeginsByModes, CanTakeByModes, IsFoldableByModes, IsOverByModes};
ghost use Rattle.mode_folds.specs.States.{RepresentsModeRows, TakesByModes};
ghost use Rattle.mode_queries.specs.Answers.{moded_answer};

use crate::answered::Answered;
use crate::cell_parts::add_cells_by_mode;
use crate::celling::passing_cells;
use crate::dividing::passing;
use crate::joining::joined;
use crate::parts::add_by_mode;
use crate::together::{add_cells_together, add_together};
use cube_model::{Fault, LineOrder, ProperQuery};
use cube_query::Fold;
use cuboid_cells::Cells;
use dictionary::Dictionary;
use dimensions::Dims;
use mode_queries::{ProperRef, QueryRef};
use std::alloc::{AllocError, Global};
use std::marker::Model;

/// The groups of a query that may look at ship modes, over the fact rows that were added so far.
///
/// What it answers depends on those rows, and not on the calls that they came in. Where the ship mode is a column, the
/// rows of each ship mode have a fold of their own, of the query without that column; a rollup and a cube also have one
/// of all rows. Each call is handed the dimensions, which are those that it began with.
///
/// Memory grows with the groups of each ship mode, and not with the rows.
pub struct ModeFold<'a> {
    alloc: Global,
    asked: QueryRef<'a>,
    query: ProperQuery<'a>,
    together: Fold,
    modes: Dictionary,
    folds: Vec<Fold>,
}

// Written out, so that a proof has one call to follow where a fold is let go.
impl<'a> Drop for ModeFold<'a> {
    fn drop(self) {
        let ModeFold {
            alloc: _,
            asked: _,
            query: _,
            together: _,
            modes: _,
            folds: _,
        } = self;
    }
}

impl<'a> Model for ModeFold<'a> {
    ghost use Rattle.std.specs.Prelude.{◌≡◌};
    ghost use Rattle.mode_folds.specs.Parts.{HaveQuery};
    ghost use Rattle.mode_folds.specs.States.{ModeFoldState};
    ghost use Rattle.mode_queries.specs.Proper.{IsProperByModes};
    ghost use Rattle.mode_queries.specs.References.{asked_by};

    ghost Value = { ModeFoldState };

    ghost view = { λ fold. record {
      asked = asked_by fold.asked;
      together = fold.together;
      modes = fold.modes.texts;
      folds = fold.folds.items;
    } };

    ghost invariant = { λ fold. IsProperByModes (asked_by fold.asked)
        × (fold.together.query ≡ (asked_by fold.asked).query)
        × HaveQuery (asked_by fold.asked).query fold.folds.items
        × (fold.query ≡ (asked_by fold.asked).query) };
}

impl<'a> ModeFold<'a> {
    /// A fold of a query, with no row yet.
    pub fn new(alloc: Global, dims: &Dims, asked: ProperRef<'a>) -> Result<ModeFold<'a>, AllocError>
        ensures ok { IfOk result (BeginsByModes dims.now asked.entry) }
        ensures over { IfOk result (IsOverByModes dims.now) }
    {
        let (asked, query) = asked.into_parts();
        let together = Fold::new(alloc, dims, &query)?;
        Ok(ModeFold {
            alloc,
            asked,
            query,
            together,
            modes: Dictionary::new(alloc, u32::MAX),
            folds: Vec::new(alloc),
        })
    }

    /// Counts fact rows in, and gives back a vector whose memory may be used again, with what it has left open. After a
    /// refusal the fold is to be dropped.
    ///
    /// It asks nothing of the rows: `BadLayout` says that a row has a key that no dimension row has, or that the sums
    /// with them pass their limit. It takes memory for new groups, and for the time of the call some for each row.
    pub fn add_rows(&mut self, dims: &Dims, rows: Vec<LineOrder>) -> Result<Vec<LineOrder>, Fault>
        requires { IsOverByModes dims.now self.old }
        ensures over { IsOverByModes dims.now self.new }
        ensures ok { OnOk result (TakesByModes dims.now self.old rows.items self.new) }
        ensures refused { result ≡ Err Fault.BadLayout → CanTakeByModes dims.now self.old rows.items → ⊥ }
        ensures only { IfErr result EndsFolding }
    {
        let rows = passing(self.asked.conditions(), rows);
        add_together(dims, &self.asked, &mut self.together, rows.as_slice())?;
        if self.asked.place().is_none() {
            return Ok(rows);
        }
        add_by_mode(
            self.alloc,
            dims,
            &self.query,
            &mut self.modes,
            &mut self.folds,
            rows,
        )?;
        Ok(Vec::new(self.alloc))
    }

    /// Counts the cells of a view in, in place of the rows that they represent. After a refusal the fold is to be
    /// dropped.
    ///
    /// The view has to serve the query and to group by ship mode; the fifth codes of cells are places among the modes.
    /// `BadLayout` says that the cells represent no rows that can be taken: a code is that of no member, or the sums
    /// with them pass their limit. It takes memory for new groups, and for the time of the call some for each cell.
    pub fn add_cells(&mut self, dims: &Dims, cells: &Cells, modes: &Dictionary) -> Result<(), Fault>
        requires over { IsOverByModes dims.now self.old }
        requires serves { Serves cells.now.view self.old.asked.query }
        requires grouped { cells.now.view.ship_mode ≡ true }
        ensures over { IsOverByModes dims.now self.new }
        ensures query { self.new.asked ≡ self.old.asked }
        ensures ok { OnOk result ((rows : List LineOrder) → RepresentRows dims.now modes.now.texts rows cells.now
            → TakesByModes dims.now self.old rows self.new) }
        ensures refused { result ≡ Err Fault.BadLayout → (rows : List LineOrder)
            → RepresentRows dims.now modes.now.texts rows cells.now
            → CanTakeByModes dims.now self.old rows → ⊥ }
        ensures only { IfErr result EndsFolding }
    {
        let cells = passing_cells(self.alloc, self.asked.conditions(), cells, modes)?;
        add_cells_together(dims, &self.asked, &mut self.together, &cells, modes)?;
        if self.asked.place().is_none() {
            return Ok(());
        }
        add_cells_by_mode(
            self.alloc,
            dims,
            &self.query,
            &mut self.modes,
            &mut self.folds,
            &cells,
            modes,
        )
    }

    /// The answer over the fact rows that were added. `BadLayout` says that a sum over some of them passes its limit.
    pub fn into_answered(self, dims: &Dims) -> Result<Answered, Fault>
        requires { IsOverByModes dims.now self }
        ensures over { IfOk result (IsAnsweredOver dims.now) }
        ensures answer { IfOk result (λ found. (rows : List LineOrder) → RepresentsModeRows dims.now self.entry rows
            → answered_over dims.now found ≡ moded_answer self.entry.asked dims.now rows) }
        ensures refused { result ≡ Err Fault.BadLayout → IsFoldableByModes dims.now self.entry → ⊥ }
        ensures only { IfErr result EndsFolding }
    {
        let ModeFold {
            alloc,
            asked,
            query: _,
            together,
            modes,
            folds,
        } = self;
        match asked.place() {
            None => Ok(Answered::Groups(together.into_groups(dims)?)),
            Some(place) => {
                let answer = joined(
                    alloc,
                    dims,
                    &asked,
                    place,
                    &together,
                    &modes,
                    folds.as_slice(),
                )?;
                Ok(Answered::Lines(answer))
            }
        }
    }
}
