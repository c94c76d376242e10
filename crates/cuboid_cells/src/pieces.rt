//! Reading a run piece by piece.
ghost use Rattle.std.specs.Prelude.{◌≡◌, ◌⊎◌, ◌↔◌, ◌<◌, ◌≤◌, ℕ, List, Option, Some, length, IfErr, IfOk, IsErrOf};
ghost use Rattle.std.specs.Prelude.{IsTrue, OnOk};
ghost use Rattle.cube_model.specs.Causes.{EndsDecoding};
ghost use Rattle.cube_model.specs.declared.fault.Fault.{Fault};
ghost use Rattle.wire.specs.Runs.{ReadsSource, ReadsSourceOr};
ghost use Rattle.cuboid_cells.specs.Pieces.{AreCellsFrom, AreLeft, IsAtFirst, ReadsOn, least_after, size_of_run};
ghost use Rattle.cuboid_cells.specs.Spelled.{HoldsNoRun, cell_bytes};
ghost use Rattle.cuboid_cells.specs.declared.cell.Cell.{Cell};

use crate::ahead::Ahead;
use crate::cell::Cell;
use crate::encoding::bytes_of_cell;
use crate::head::{RunHead, head_of};
use crate::reading::read_on;
use cube_model::Fault;
use std::alloc::Global;
use std::marker::Model;
use wire::{Cursor, Source};

// The bytes of the header.
pub(crate) const HEAD: usize = 20;

/// A run that is read from a source piece by piece. The memory that it takes does not depend on how many cells the run
/// has.
///
/// Cells can be passed over, of which nothing is looked at but some keys. So that the text is a run is known only where
/// all its cells were read.
#[derive(Drop)]
pub struct RunReader {
    pub(crate) id: u32,
    pub(crate) head: RunHead,
    // How many cells were read or passed over.
    pub(crate) done: usize,
    // The least number that the key of the next cell can have.
    pub(crate) least: u128,
    pub(crate) ahead: Ahead,
}

impl Model for RunReader {
    ghost use Rattle.std.specs.Prelude.{◌≤◌};
    ghost use Rattle.cuboid_cells.specs.Limits.{most_cells};
    ghost use Rattle.cuboid_cells.specs.Pieces.{RunPlace};

    ghost Value = { RunPlace };

    ghost view = { λ run. record {
      id = run.id;
      head = run.head;
      done = run.done;
      least = run.least;
      ahead = run.ahead;
    } };

    ghost invariant = { λ run. (run.done ≤ run.head.count) × (run.head.count ≤ most_cells) };
}

impl RunReader {
    /// The run whose bytes a source has at an id, of which the header is read.
    ///
    /// `BadLayout` where there are none, or where they are those of no run. It can also fail when out of memory, or
    /// with what the source answers.
    pub fn open<S: Source>(alloc: Global, source: &mut S, id: u32) -> Result<RunReader, Fault>
        ensures id { IfOk result (λ run. run.id ≡ id) }
        ensures total { IfOk result (λ run. S.totals source.old id ≡ Some (size_of_run run)) }
        ensures ok { IfOk result (λ run. S.keeps_word source.new → IsAtFirst (S.texts source.old id) run) }
        ensures refused { IsErrOf result Fault.BadLayout → S.keeps_word source.new
            → HoldsNoRun (S.texts source.old id) }
        ensures run { ReadsSourceOr S.Source EndsDecoding source.old source.new result }
    {
        let Some(total) = source.total(id) else {
            return Err(Fault::BadLayout);
        };
        let total = total as usize;
        let mut ahead = Ahead::new(alloc)?;
        ahead.refill(source, id, 0, total)?;
        let Some(head) = head_of(ahead.rest(), total) else {
            return Err(Fault::BadLayout);
        };
        ahead.skip(HEAD);
        Ok(RunReader {
            id,
            head,
            done: 0,
            least: 0,
            ahead,
        })
    }

    /// What the header says.
    pub fn head(&self) -> RunHead
        ensures { result ≡ self.now.head }
    {
        self.head
    }

    /// Whether all cells were read or passed over.
    pub fn is_done(&self) -> bool
        ensures done { IsTrue result ↔ (self.now.done ≡ self.now.head.count) }
        ensures within { self.now.done ≤ self.now.head.count }
    {
        self.done == self.head.count
    }

    /// Reads the next cells, one at least, in place of those that are given. They are cells of the view, and climb by
    /// their keys from the least number that a key can have, whatever the bytes are.
    ///
    /// `BadLayout` where the bytes are those of no run. It can also fail when out of memory, or with what the source
    /// answers. After an error the reader is to be dropped.
    pub fn read_piece<S: Source>(
        &mut self,
        source: &mut S,
        cells: &mut Vec<Cell>,
    ) -> Result<(), Fault>
        requires total { S.totals source.old self.old.id ≡ Some (size_of_run self.old) }
        requires more { self.old.done < self.old.head.count }
        ensures id { self.new.id ≡ self.old.id }
        ensures head { self.new.head ≡ self.old.head }
        ensures more { OnOk result (self.old.done < self.new.done) }
        ensures rules { OnOk result (AreCellsFrom self.old.head.view self.old.least cells.new.items) }
        ensures least { OnOk result (self.new.least ≡ least_after self.old.least cells.new.items) }
        ensures ok { OnOk result (S.keeps_word source.new → (left : List Cell)
            → AreLeft (S.texts source.old self.old.id) self.old left
            → ReadsOn (S.texts source.old self.old.id) left self.new cells.new.items) }
        ensures refused { IsErrOf result Fault.BadLayout → S.keeps_word source.new → (left : List Cell)
            → AreLeft (S.texts source.old self.old.id) self.old left → ⊥ }
        ensures run { ReadsSourceOr S.Source EndsDecoding source.old source.new result }
    {
        self.read_ahead(source)?;
        self.take_piece(cells)
    }

    // Reads further bytes, where not all of a cell is ahead.
    fn read_ahead<S: Source>(&mut self, source: &mut S) -> Result<(), Fault>
        requires total { S.totals source.old self.old.id ≡ Some (size_of_run self.old) }
        requires more { self.old.done < self.old.head.count }
        ensures place { self.new ≡ record self.old { ahead = self.new.ahead } }
        ensures enough { OnOk result (cell_bytes self.old.head.view.ship_mode ≤ length self.new.ahead) }
        ensures ok { OnOk result (S.keeps_word source.new → (left : List Cell)
            → AreLeft (S.texts source.old self.old.id) self.old left
            → AreLeft (S.texts source.old self.old.id) self.new left) }
        ensures run { ReadsSource S.Source source.old source.new result }
    {
        let size = bytes_of_cell(self.head.view.ship_mode);
        if self.ahead.rest().len() >= size {
            return Ok(());
        }
        let at = HEAD + size * self.done;
        let total = HEAD + size * self.head.count;
        self.ahead.refill(source, self.id, at, total)
    }

    // Takes the cells that are ahead whole.
    fn take_piece(&mut self, cells: &mut Vec<Cell>) -> Result<(), Fault>
        requires enough { cell_bytes self.old.head.view.ship_mode ≤ length self.old.ahead }
        requires more { self.old.done < self.old.head.count }
        ensures id { self.new.id ≡ self.old.id }
        ensures head { self.new.head ≡ self.old.head }
        ensures more { OnOk result (self.old.done < self.new.done) }
        ensures rules { OnOk result (AreCellsFrom self.old.head.view self.old.least cells.new.items) }
        ensures least { OnOk result (self.new.least ≡ least_after self.old.least cells.new.items) }
        ensures ok { OnOk result ((text : Option (List ℕ)) (left : List Cell) → AreLeft text self.old left
            → ReadsOn text left self.new cells.new.items) }
        ensures refused { IfErr result (λ fault. (fault ≡ Fault.Memory) ⊎ ((fault ≡ Fault.BadLayout)
            × ((text : Option (List ℕ)) (left : List Cell) → AreLeft text self.old left → ⊥))) }
    {
        let view = self.head.view;
        let size = bytes_of_cell(view.ship_mode);
        let rest = self.ahead.rest();
        let count = (rest.len() / size).min(self.head.count - self.done);
        let mut cursor = Cursor::new(rest);
        let Some(least) = read_on(&mut cursor, view, self.least, count, cells)? else {
            return Err(Fault::BadLayout);
        };
        self.ahead.skip(size * count);
        self.done += count;
        self.least = least;
        Ok(())
    }
}
