//! The cells of a run, merged in as they are read.
ghost use Rattle.std.specs.Prelude.{◌≡◌, ◌⊎◌, ◌<◌, ◌≤◌, ℕ, List, Some, length, IsErrOf, OnOk};
ghost use Rattle.std.specs.List.{All};
ghost use Rattle.group_tallies.specs.Limits.{EndsFolding};
ghost use Rattle.cube_model.specs.declared.fault.Fault.{Fault};
ghost use Rattle.wire.specs.Runs.{ReadsSourceOr};
ghost use Rattle.cuboid_cells.specs.Cells.{IsCellOf};
ghost use Rattle.cuboid_cells.specs.Pieces.{AreLeft, size_of_run};
ghost use Rattle.cuboid_cells.specs.declared.cell.Cell.{Cell};
ghost use Rattle.group_numbers.specs.Numbers.{group_count};
ghost use Rattle.cube_query.specs.CellRuns.{IsRunMerged, ReadsWanted};
ghost use Rattle.cube_query.specs.CellSlots.{HaveNoRepresentative};
ghost use Rattle.cube_query.specs.CellTallies.{GroupsHaveRoomFor};
ghost use Rattle.group_tallies.specs.Columns.{tallies_at};
ghost use Rattle.group_tallies.specs.Slots.{entries_of, AreSlots, Cover, Grow};

use crate::cell_slots::merge_cells;
use cube_model::{Agg, Fault};
use cuboid_cells::{Cell, RunReader};
use cuboid_upkeep::CellNumbers;
use group_tallies::{Slots, Tally};
use std::alloc::Global;
use wire::Source;

/// Merges the cells of a run that are left into columns at the slots of their groups, piece by piece as they are read.
/// Numbers of groups that have no slot are given one. Cells that have no rows that are selected, by their codes on the
/// first axis that the view groups, are not all read.
///
/// `BadLayout` says that the text is no run, that no row represents a cell, for a code is that of no member, or that a
/// count or a sum would pass its limit. After a refusal the columns have what they had where there is no slot.
pub fn merge_run<S: Source>(
    alloc: Global,
    numbers: &CellNumbers,
    slots: &mut Slots,
    columns: &mut [Vec<Tally>],
    aggs: &[Agg],
    source: &mut S,
    run: &mut RunReader,
) -> Result<(), Fault>
    requires view { numbers.now.view ≡ run.old.head.view }
    requires numbers { AreSlots (group_count numbers.now.dimensions numbers.now.query.columns) (entries_of slots.old) }
    requires cover { Cover (group_count numbers.now.dimensions numbers.now.query.columns) slots.old }
    requires columns { length columns.old ≡ length aggs.now }
    requires total { S.totals source.old run.old.id ≡ Some (size_of_run run.old) }
    ensures merged { OnOk result (S.keeps_word source.new → IsRunMerged numbers.now aggs.now (entries_of slots.new)
        (S.texts source.old run.old.id) run.old columns.old columns.new) }
    ensures refused { IsErrOf result Fault.BadLayout → S.keeps_word source.new
        → (cells : List Cell) → AreLeft (S.texts source.old run.old.id) run.old cells
        → HaveNoRepresentative numbers.now cells
        ⊎ (GroupsHaveRoomFor (entries_of slots.new) aggs.now cells columns.old → ⊥) }
    ensures fresh { (slot : ℕ) → length (entries_of slots.new) ≤ slot
        → tallies_at columns.new slot ≡ tallies_at columns.old slot }
    ensures cover { Cover (group_count numbers.now.dimensions numbers.now.query.columns) slots.new }
    ensures grow { Grow (group_count numbers.now.dimensions numbers.now.query.columns) (entries_of slots.old)
        (entries_of slots.new) }
    ensures run { ReadsSourceOr S.Source EndsFolding source.old source.new result }
{
    let mut cells = Vec::new(alloc);
    while !run.is_done() {
        read_wanted(numbers, source, run, &mut cells)?;
        merge_cells(numbers, slots, columns, aggs, cells.as_slice())?;
    }
    Ok(())
}

// Reads the next cells of a run in place of those that are given, once the cells before them are passed over that need
// not be looked at. Where only such cells are left it reads none.
fn read_wanted<S: Source>(
    numbers: &CellNumbers,
    source: &mut S,
    run: &mut RunReader,
    cells: &mut Vec<Cell>,
) -> Result<(), Fault>
    requires view { numbers.now.view ≡ run.old.head.view }
    requires total { S.totals source.old run.old.id ≡ Some (size_of_run run.old) }
    requires more { run.old.done < run.old.head.count }
    ensures id { run.new.id ≡ run.old.id }
    ensures head { run.new.head ≡ run.old.head }
    ensures more { OnOk result (run.old.done < run.new.done) }
    ensures each { OnOk result (All (IsCellOf run.old.head.view) cells.new.items) }
    ensures ok { OnOk result (S.keeps_word source.new → (left : List Cell)
        → AreLeft (S.texts source.old run.old.id) run.old left
        → ReadsWanted numbers.now (S.texts source.old run.old.id) left run.new cells.new.items) }
    ensures refused { IsErrOf result Fault.BadLayout → S.keeps_word source.new → (left : List Cell)
        → AreLeft (S.texts source.old run.old.id) run.old left → ⊥ }
    ensures run { ReadsSourceOr S.Source EndsFolding source.old source.new result }
{
    cells.clear();
    let Some(least) = numbers.next_number(run.least()) else {
        run.skip_all();
        return Ok(());
    };
    run.skip_to(source, least)?;
    if run.is_done() {
        return Ok(());
    }
    run.read_piece(source, cells)
}
