//! A fold over fact rows that come in any number of calls.
ghost use Rattle.std.specs.Prelude.{◌≡◌, ◌⊎◌, ◌≤◌, ◌<◌, ℕ, List, true, length, map, Some, Err, IfOk, IsOkUnless};
ghost use Rattle.std.specs.Prelude.{IfErr, IsErrOf, OnOk, OnErr};
ghost use Rattle.std.specs.List.{All, AllByRecursion};
ghost use Rattle.std.specs.Option.{option_map};
ghost use Rattle.group_tallies.specs.Limits.{EndsFolding};
ghost use Rattle.cube_model.specs.Answers.{answer};
ghost use Rattle.cube_model.specs.Selection.{is_selected};
ghost use Rattle.cube_model.specs.declared.rows.LineOrder.{LineOrder};
ghost use Rattle.wire.specs.Runs.{ReadsSourceOr};
ghost use Rattle.column_segment.specs.Projected.{AgreeOn};
ghost use Rattle.cuboid_cells.specs.Pieces.{AreLeft, size_of_run};
ghost use Rattle.cuboid_cells.specs.Steps.{cells_of};
ghost use Rattle.cuboid_cells.specs.declared.cell.Cell.{Cell};
ghost use Rattle.cube_query.specs.Asked.{AreSame, asked_columns, is_asked};
ghost use Rattle.cube_query.specs.CellRuns.{IsRunMerged, TakesRun};
ghost use Rattle.cube_query.specs.CellSlots.{AreMergedIn, HaveNoRepresentative, asked_of};
ghost use Rattle.cube_query.specs.CellTallies.{GroupsHaveRoomFor};
ghost use Rattle.group_tallies.specs.Columns.{tallies_at};
ghost use Rattle.group_tallies.specs.GroupLines.{AreGroupsOver, answer_over};
ghost use Rattle.cube_query.specs.Groups.{RepresentsRows, Begins, CanTake, CountsRowsIn, IsFoldable, IsOver, Takes};
ghost use Rattle.dimensions.specs.Shown.{AreStorable};
ghost use Rattle.group_numbers.specs.Numbers.{group_count, IsKnown};
ghost use Rattle.group_numbers.specs.Parts.{IsKnownFor};
ghost use Rattle.group_numbers.specs.GroupNumbers.{IsGroupNumbersOver, query_of};
ghost use Rattle.group_tallies.specs.Slots.{entries_of, slot_of, AreSlots, CanPlace, Cover, Grow};
ghost use Rattle.cube_query.specs.WholeBatch.{has_one_group};
ghost use Rattle.group_tallies.specs.FoldInvariant.{AreGroupSlots};
ghost use Rattle.cuboid_upkeep.specs.Codes.{modes_of};
ghost use Rattle.cuboid_upkeep.specs.Grouping.{RepresentRows};
ghost use Rattle.lattice.specs.Determined.{Serves};

use crate::asked::asked_columns;
use crate::cell_runs::merge_run;
use crate::cell_slots::with_cells;
use crate::chosen_rows::ChosenRows;
use crate::column_rows::ColumnRows;
use crate::group_slots::group_slots_of;
use crate::whole_batch::{has_one_group, selected_rows, with_batch};
use column_kernels::Mask;
use column_segment::{FactColumn, FactColumns, Segment};
use cube_model::{Answer, Fault, LineOrder, ProperQuery};
use cuboid_cells::{Cells, RunReader};
use cuboid_upkeep::CellNumbers;
use dictionary::Dictionary;
use dimensions::Dims;
use group_numbers::{FactRows, GroupNumbers, RowSlice};
use group_tallies::{
    Groups, Slots, Tally, answer_lines, count_in_all, have_room, make_room, no_columns,
};
use std::alloc::{AllocError, Global};
use std::marker::Model;
use wire::Source;

/// The groups of a query over the fact rows that were added so far.
///
/// What it answers depends on those rows, and not on the calls that they came in. It keeps its own copy of the query
/// and borrows nothing: each call is handed the dimensions, which are those that it began with.
///
/// Memory grows with the groups, and not with the rows: with those that there can be, or where these are more than
/// 65,536, with those that had a row. Up to 4,194,304 that there can be, it takes four bytes more for each of them.
pub struct Fold {
    alloc: Global,
    grouping: GroupNumbers,
    slots: Slots,
    columns: Vec<Vec<Tally>>,
}

// Written out, so that a proof has one call to follow where a fold is let go.
impl Drop for Fold {
    fn drop(self) {
        let Fold {
            alloc: _,
            grouping: _,
            slots: _,
            columns: _,
        } = self;
    }
}

impl Model for Fold {
    ghost use Rattle.cube_query.specs.Groups.{FoldState};
    ghost use Rattle.group_numbers.specs.GroupNumbers.{query_of};
    ghost use Rattle.group_tallies.specs.FoldInvariant.{IsKept, all_tallies};

    ghost Value = { FoldState };

    ghost view = { λ fold. record {
      query = query_of fold.grouping;
      grouping = fold.grouping;
      tallies = all_tallies fold.grouping fold.slots fold.columns.items;
    } };

    ghost invariant = { λ fold. IsKept fold.grouping fold.slots fold.columns.items };
}

impl Fold {
    /// A fold of a query, with no row yet.
    pub fn new(alloc: Global, dims: &Dims, query: &ProperQuery<'_>) -> Result<Self, AllocError>
        ensures { IfOk result (Begins dims.now query.now) }
    {
        let grouping = GroupNumbers::new(alloc, dims, query)?;
        let slots = Slots::new(alloc, grouping.group_count())?;
        let columns = no_columns(alloc, query.get().aggregates.as_slice())?;
        Ok(Fold {
            alloc,
            grouping,
            slots,
            columns,
        })
    }

    /// The columns of fact rows at which its query looks, in the order of their places.
    pub fn asked_columns(&self) -> Result<Vec<FactColumn>, Fault>
        ensures ok { IfOk result (λ columns. columns.items ≡ asked_columns self.now.query) }
        ensures memory { IsOkUnless result Fault.Memory }
    {
        Ok(asked_columns(self.alloc, self.grouping.query())?)
    }

    /// Counts fact rows in. A refusal leaves the fold as it was.
    ///
    /// It asks nothing of the rows: `BadLayout` says that a row has a key that no dimension row has, or that the sums
    /// with them pass their limit. All memory is taken before the first row is counted: some for new groups, and for
    /// the time of the call some for each row.
    pub fn add_rows(&mut self, dims: &Dims, rows: &[LineOrder]) -> Result<(), Fault>
        requires { IsOver dims.now self.old }
        ensures { CountsRowsIn dims.now (λ counted. counted ≡ rows.now) self.old self.new result }
    {
        self.add(dims, &RowSlice(rows))
    }

    /// Counts the rows of a batch in. A refusal leaves the fold as it was.
    ///
    /// It asks nothing of the rows, and refuses them as `add_rows` does.
    pub fn add_segment(&mut self, dims: &Dims, segment: &Segment) -> Result<(), Fault>
        requires { IsOver dims.now self.old }
        ensures { CountsRowsIn dims.now (λ counted. counted ≡ segment.now.rows) self.old self.new result }
    {
        self.add_batch(dims, segment.columns())
    }

    /// Counts the rows of a batch in by its columns, of which only those matter at which the query looks. A refusal
    /// leaves the fold as it was.
    ///
    /// It refuses rows as `add_rows` does. Those that fail a condition are left out column by column, and only the
    /// others are looked at further: one by one, or where the query has one group and no condition on a dimension, all
    /// at once, by sums over the columns.
    pub fn add_columns(&mut self, dims: &Dims, batch: FactColumns) -> Result<(), Fault>
        requires { IsOver dims.now self.old }
        ensures { CountsRowsIn dims.now (AgreeOn (asked_columns self.old.query) batch.entry) self.old self.new result }
    {
        self.add_batch(dims, batch)
    }

    /// Counts the cells of a view in, in place of the rows that they represent. A refusal leaves the fold as it was.
    ///
    /// The view has to serve the query. The fifth codes of cells are places among the modes, which only a view that
    /// groups by ship mode looks at. `BadLayout` says that the cells represent no rows that can be taken: a code is
    /// that of no member, or the sums with them pass their limit. Each cell is read once. It takes memory for new
    /// groups, and for the time of the call some for each group and each member of the view's levels.
    pub fn add_cells(
        &mut self,
        dims: &Dims,
        cells: &Cells,
        modes: Option<&Dictionary>,
    ) -> Result<(), Fault>
        requires over { IsOver dims.now self.old }
        requires serves { Serves cells.now.view self.old.query }
        ensures { CountsRowsIn dims.now (λ rows.
            RepresentRows dims.now (modes_of (option_map (λ modes. modes.now) modes.entry)) rows cells.now)
            self.old self.new result }
    {
        let slots = &mut self.slots;
        let columns = self.columns.as_slice();
        let merged = columns_with_cells(
            self.alloc,
            dims,
            &self.grouping,
            slots,
            columns,
            cells,
            modes,
        )?;
        self.columns = merged;
        Ok(())
    }

    /// Counts the cells of a run in, in place of the rows that they represent, piece by piece as they are read from a
    /// source.
    ///
    /// The cells are those that are left of the run. Its view has to serve the query. Cells that have no rows that are
    /// selected, by their codes on the first axis that the view groups, are not all read, and what is wrong with such a
    /// cell need not be found. The fifth codes of cells are places among the modes, which only a view that groups by
    /// ship mode looks at. `BadLayout` says that the text is no run, or that its cells represent no rows that can be
    /// taken, as `add_cells` does. No cell is read twice. It takes memory for new groups, and for the time of the call
    /// some for each member of the view's levels and for one piece. After a refusal the fold is to be dropped.
    pub fn add_run<S: Source>(
        &mut self,
        dims: &Dims,
        source: &mut S,
        run: &mut RunReader,
        modes: Option<&Dictionary>,
    ) -> Result<(), Fault>
        requires over { IsOver dims.now self.old }
        requires serves { Serves run.old.head.view self.old.query }
        requires total { S.totals source.old run.old.id ≡ Some (size_of_run run.old) }
        ensures over { IsOver dims.now self.new }
        ensures query { self.new.query ≡ self.old.query }
        ensures ok { OnOk result (S.keeps_word source.new
            → TakesRun dims.now (modes_of (option_map (λ modes. modes.now) modes.entry)) (S.texts source.old run.old.id)
            run.old
            self.old self.new) }
        ensures refused { IsErrOf result Fault.BadLayout → S.keeps_word source.new
            → (cells : List Cell) → AreLeft (S.texts source.old run.old.id) run.old cells → (rows : List LineOrder)
            → RepresentRows dims.now (modes_of (option_map (λ modes. modes.now) modes.entry)) rows
            (cells_of run.old.head.view cells)
            → CanTake dims.now self.old rows → ⊥ }
        ensures run { ReadsSourceOr S.Source EndsFolding source.old source.new result }
    {
        let slots = &mut self.slots;
        let columns = self.columns.as_mut_slice();
        with_run(
            self.alloc,
            dims,
            &self.grouping,
            slots,
            columns,
            source,
            run,
            modes,
        )
    }

    // Counts the rows of a batch in by its columns. A refusal leaves the fold as it was.
    fn add_batch(&mut self, dims: &Dims, batch: FactColumns) -> Result<(), Fault>
        requires { IsOver dims.now self.old }
        ensures over { IsOver dims.now self.new }
        ensures ok { OnOk result (Takes dims.now self.old batch.entry self.new) }
        ensures err { OnErr result (self.new ≡ self.old) }
        ensures refused { result ≡ Err Fault.BadLayout → (rows : List LineOrder)
            → AreSame (is_asked self.old.query) batch.entry rows
            → CanTake dims.now self.old rows → ⊥ }
        ensures only { IfErr result EndsFolding }
    {
        if has_one_group(self.grouping.query()) {
            return self.add_whole(dims, &batch);
        }
        if self.grouping.query().conditions.is_empty() {
            return self.add(dims, &ColumnRows::of(batch));
        }
        let rows = ChosenRows::of(self.alloc, &self.grouping.over(dims), batch)?;
        self.add(dims, &rows)
    }

    // Counts the selected rows of a batch in, all at once. A refusal leaves the fold as it was.
    fn add_whole(&mut self, dims: &Dims, batch: &FactColumns) -> Result<(), Fault>
        requires over { IsOver dims.now self.old }
        requires one_group { has_one_group self.old.query ≡ true }
        ensures over { IsOver dims.now self.new }
        ensures ok { OnOk result (Takes dims.now self.old batch.now self.new) }
        ensures err { OnErr result (self.new ≡ self.old) }
        ensures refused { result ≡ Err Fault.BadLayout → (rows : List LineOrder)
            → AreSame (is_asked self.old.query) batch.now rows
            → CanTake dims.now self.old rows → ⊥ }
        ensures only { IfErr result EndsFolding }
    {
        let mask = selected_rows(self.alloc, &self.grouping.over(dims), batch)?;
        self.add_masked(dims, batch, &mask)
    }

    // The same by the mask of the selected rows.
    fn add_masked(&mut self, dims: &Dims, batch: &FactColumns, mask: &Mask) -> Result<(), Fault>
        requires over { IsOver dims.now self.old }
        requires one_group { has_one_group self.old.query ≡ true }
        requires mask { mask.now ≡ map (is_selected dims.now self.old.query.conditions) batch.now }
        ensures over { IsOver dims.now self.new }
        ensures ok { OnOk result (Takes dims.now self.old batch.now self.new) }
        ensures err { OnErr result (self.new ≡ self.old) }
        ensures refused { result ≡ Err Fault.BadLayout → (rows : List LineOrder)
            → AreSame (is_asked self.old.query) batch.now rows
            → CanTake dims.now self.old rows → ⊥ }
        ensures only { IfErr result EndsFolding }
    {
        if mask.count() == 0 {
            return Ok(());
        }
        let columns = &mut self.columns;
        let slots = &mut self.slots;
        let slot = ready_for_one(slots, columns)?;
        let aggregates = self.grouping.query().aggregates.as_slice();
        let merged = with_batch(
            self.alloc,
            columns.as_slice(),
            aggregates,
            slot,
            batch,
            mask,
        )?;
        self.columns = merged;
        Ok(())
    }

    // Counts fact rows in, wherever they are. A refusal leaves the fold as it was.
    fn add<F: FactRows>(&mut self, dims: &Dims, rows: &F) -> Result<(), Fault>
        requires { IsOver dims.now self.old }
        ensures over { IsOver dims.now self.new }
        ensures ok { OnOk result (Takes dims.now self.old (F.rows rows.now) self.new) }
        ensures err { OnErr result (self.new ≡ self.old) }
        ensures refused { result ≡ Err Fault.BadLayout → (others : List LineOrder)
            → AreSame (is_asked self.old.query) (F.rows rows.now) others
            → CanTake dims.now self.old others → ⊥ }
        ensures only { IfErr result EndsFolding }
    {
        let columns = &mut self.columns;
        let slots = &mut self.slots;
        let group_slots = ready(self.alloc, dims, &self.grouping, slots, columns, rows)?;
        let aggregates = self.grouping.query().aggregates.as_slice();
        if !have_room(columns.as_slice(), aggregates, rows, group_slots.as_slice()) {
            return Err(Fault::BadLayout);
        }
        count_in_all(
            columns.as_mut_slice(),
            aggregates,
            rows,
            group_slots.as_slice(),
        );
        Ok(())
    }

    /// The answer over the fact rows that were added. `BadLayout` says that a sum over some of them passes its limit.
    pub fn finish(&self, dims: &Dims) -> Result<Answer, Fault>
        requires { IsOver dims.now self.now }
        ensures answer { IfOk result (λ found. (rows : List LineOrder) → RepresentsRows dims.now self.now rows
            → found ≡ answer self.now.query dims.now rows) }
        ensures refused { result ≡ Err Fault.BadLayout → IsFoldable dims.now self.now → ⊥ }
        ensures only { IfErr result EndsFolding }
    {
        let grouping = self.grouping.over(dims);
        let query = self.grouping.query();
        let lines = answer_lines(
            self.alloc,
            &grouping,
            query,
            self.columns.as_slice(),
            &self.slots,
        )?;
        Ok(Answer { lines })
    }

    /// The groups of the fact rows that were added, with the lines of the answer, of which none is made. `BadLayout`
    /// says what it says of `finish`.
    pub fn into_groups(self, dims: &Dims) -> Result<Groups, Fault>
        requires { IsOver dims.now self }
        ensures over { IfOk result (AreGroupsOver dims.now) }
        ensures answer { IfOk result (λ groups. (rows : List LineOrder) → RepresentsRows dims.now self rows
            → answer_over dims.now groups ≡ answer self.query dims.now rows) }
        ensures refused { result ≡ Err Fault.BadLayout → IsFoldable dims.now self → ⊥ }
        ensures only { IfErr result EndsFolding }
    {
        let Fold {
            alloc,
            grouping,
            slots,
            columns,
        } = self;
        Groups::of(alloc, dims, grouping, slots, columns)
    }
}

// Makes all ready for rows to be counted in: the slots of their groups, and a place for each slot. Nothing is counted
// yet.
fn ready<F: FactRows>(
    alloc: Global,
    dims: &Dims,
    grouping: &GroupNumbers,
    slots: &mut Slots,
    columns: &mut Vec<Vec<Tally>>,
    rows: &F,
) -> Result<Vec<Option<u32>>, Fault>
    requires over { IsGroupNumbersOver dims.now grouping.now }
    requires numbers { AreSlots (group_count dims.now (query_of grouping.now).columns) (entries_of slots.old) }
    requires cover { Cover (group_count dims.now (query_of grouping.now).columns) slots.old }
    ensures group_slots { IfOk result (λ group_slots.
        AreGroupSlots dims.now (query_of grouping.now) (entries_of slots.new) (F.rows rows.now) group_slots.items) }
    ensures refused { result ≡ Err Fault.BadLayout → All (IsKnownFor dims.now (query_of grouping.now)) (F.rows rows.now)
        → ⊥ }
    ensures only { IfErr result EndsFolding }
    ensures long { OnOk result (AllByRecursion (λ column. length (entries_of slots.new) ≤ length column.items)
        columns.new.items) }
    ensures same { (slot : ℕ) → tallies_at columns.new.items slot ≡ tallies_at columns.old.items slot }
    ensures cover { Cover (group_count dims.now (query_of grouping.now).columns) slots.new }
    ensures grow { Grow (group_count dims.now (query_of grouping.now).columns) (entries_of slots.old)
        (entries_of slots.new) }
{
    let group_slots = group_slots_of(alloc, &grouping.over(dims), slots, rows)?;
    make_room(columns, slots)?;
    Ok(group_slots)
}

// The columns of a fold with cells merged in, next to those that they are made from. Numbers of groups that have no
// slot are given one.
fn columns_with_cells(
    alloc: Global,
    dims: &Dims,
    grouping: &GroupNumbers,
    slots: &mut Slots,
    columns: &[Vec<Tally>],
    cells: &Cells,
    modes: Option<&Dictionary>,
) -> Result<Vec<Vec<Tally>>, Fault>
    requires over { IsGroupNumbersOver dims.now grouping.now }
    requires numbers { AreSlots (group_count dims.now (query_of grouping.now).columns) (entries_of slots.old) }
    requires cover { Cover (group_count dims.now (query_of grouping.now).columns) slots.old }
    requires columns { length columns.now ≡ length (query_of grouping.now).aggregates }
    ensures merged { IfOk result (λ merged. AreMergedIn (asked_of dims.now (query_of grouping.now) cells.now.view
        (modes_of (option_map (λ modes. modes.now) modes.entry))) (query_of grouping.now).aggregates
        (entries_of slots.new)
        cells.now.cells columns.now merged.items) }
    ensures refused { result ≡ Err Fault.BadLayout → (rows : List LineOrder)
        → RepresentRows dims.now (modes_of (option_map (λ modes. modes.now) modes.entry)) rows cells.now
        → All (IsKnown dims.now) rows
        → GroupsHaveRoomFor (entries_of slots.new) (query_of grouping.now).aggregates cells.now.cells columns.now → ⊥ }
    ensures only { IfErr result EndsFolding }
    ensures cover { Cover (group_count dims.now (query_of grouping.now).columns) slots.new }
    ensures grow { Grow (group_count dims.now (query_of grouping.now).columns) (entries_of slots.old)
        (entries_of slots.new) }
    ensures storable { AreStorable dims.now }
{
    let view = cells.view();
    let cells = cells.as_slice();
    let numbers = CellNumbers::of(alloc, dims, grouping, view, modes)?;
    let aggregates = grouping.query().aggregates.as_slice();
    with_cells(alloc, &numbers, slots, columns, aggregates, cells)
}

// Merges the cells of a run into the columns of a fold, as they are read. Numbers of groups that have no slot are given
// one.
fn with_run<S: Source>(
    alloc: Global,
    dims: &Dims,
    grouping: &GroupNumbers,
    slots: &mut Slots,
    columns: &mut [Vec<Tally>],
    source: &mut S,
    run: &mut RunReader,
    modes: Option<&Dictionary>,
) -> Result<(), Fault>
    requires over { IsGroupNumbersOver dims.now grouping.now }
    requires numbers { AreSlots (group_count dims.now (query_of grouping.now).columns) (entries_of slots.old) }
    requires cover { Cover (group_count dims.now (query_of grouping.now).columns) slots.old }
    requires columns { length columns.old ≡ length (query_of grouping.now).aggregates }
    requires total { S.totals source.old run.old.id ≡ Some (size_of_run run.old) }
    ensures merged { OnOk result (S.keeps_word source.new
        → IsRunMerged
        (asked_of dims.now (query_of grouping.now) run.old.head.view
        (modes_of (option_map (λ modes. modes.now) modes.entry)))
        (query_of grouping.now).aggregates (entries_of slots.new) (S.texts source.old run.old.id) run.old
        columns.old columns.new) }
    ensures refused { IsErrOf result Fault.BadLayout → S.keeps_word source.new
        → (cells : List Cell) → AreLeft (S.texts source.old run.old.id) run.old cells
        → HaveNoRepresentative
        (asked_of dims.now (query_of grouping.now) run.old.head.view
        (modes_of (option_map (λ modes. modes.now) modes.entry)))
        cells
        ⊎ (GroupsHaveRoomFor (entries_of slots.new) (query_of grouping.now).aggregates cells columns.old → ⊥) }
    ensures fresh { (slot : ℕ) → length (entries_of slots.new) ≤ slot
        → tallies_at columns.new slot ≡ tallies_at columns.old slot }
    ensures cover { Cover (group_count dims.now (query_of grouping.now).columns) slots.new }
    ensures grow { Grow (group_count dims.now (query_of grouping.now).columns) (entries_of slots.old)
        (entries_of slots.new) }
    ensures run { ReadsSourceOr S.Source EndsFolding source.old source.new result }
    ensures storable { AreStorable dims.now }
{
    let view = run.head().view;
    let numbers = CellNumbers::of(alloc, dims, grouping, view, modes)?;
    let aggregates = grouping.query().aggregates.as_slice();
    merge_run(alloc, &numbers, slots, columns, aggregates, source, run)
}

// Makes all ready for the one group of a query: its slot, and a place for each slot. Nothing is counted yet.
fn ready_for_one(slots: &mut Slots, columns: &mut Vec<Vec<Tally>>) -> Result<u32, AllocError>
    requires { CanPlace slots.old 0 }
    ensures slot { IfOk result (λ slot. slot_of (entries_of slots.new) 0 ≡ Some slot) }
    ensures long { OnOk result
        (AllByRecursion (λ column. length (entries_of slots.new) ≤ length column.items) columns.new.items) }
    ensures same { (slot : ℕ) → tallies_at columns.new.items slot ≡ tallies_at columns.old.items slot }
    ensures cover { (bound : ℕ) → Cover bound slots.old → Cover bound slots.new }
    ensures grow { (bound : ℕ) → 0 < bound → AreSlots bound (entries_of slots.old)
        → Grow bound (entries_of slots.old) (entries_of slots.new) }
{
    let slot = slots.place(0)?;
    make_room(columns, slots)?;
    Ok(slot)
}
