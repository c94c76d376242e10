//! Passing over cells of a run.
ghost use Rattle.std.specs.Prelude.{◌≡◌, ◌+◌, ◌-◌, ◌<◌, ◌≤◌, ℕ, [], List, Option, Some, max, slice_index_or, drop};
ghost use Rattle.std.specs.Prelude.{if◌then◌else◌, All, IfOk, IfSome, OnOk};
ghost use Rattle.cube_model.specs.declared.fault.Fault.{Fault};
ghost use Rattle.wire.specs.Runs.{ReadsSource};
ghost use Rattle.cuboid_cells.specs.Cells.{key_as_number};
ghost use Rattle.cuboid_cells.specs.Pieces.{AreLeft, AreParted, PassesOver, size_of_run};
ghost use Rattle.cuboid_cells.specs.declared.cell.Cell.{Cell};

use crate::encoding::{bytes_of_cell, bytes_of_key};
use crate::pieces::{HEAD, RunReader};
use crate::reading::number_in;
use cube_model::Fault;
use wire::{Source, read_part};

// How many cells are read at a time, at least.
const PIECE: usize = 404;

// Two places: the first cell whose key has no number below one is at neither a place before them nor at one after them.
#[derive(Clone, Copy)]
struct Range {
    from: usize,
    to: usize,
}

impl RunReader {
    /// The least number that the key of a cell that is left can have.
    pub fn least(&self) -> u128
        ensures { result ≡ self.now.least }
    {
        self.least
    }

    /// Passes over all cells that are left, and reads nothing.
    pub fn skip_all(&mut self)
        ensures id { self.new.id ≡ self.old.id }
        ensures head { self.new.head ≡ self.old.head }
        ensures done { self.new.done ≡ self.new.head.count }
        ensures least { self.new.least ≡ self.old.least }
        ensures ok { (text : Option (List ℕ)) (left : List Cell) → AreLeft text self.old left
            → AreLeft text self.new [] }
    {
        self.move_to(self.head.count, self.least);
    }

    /// Passes over the cells that are left whose keys have numbers below one. A key that was not read ahead is read
    /// alone, and there are as many such reads as the search takes that halves what is left. There is none where the
    /// least number that a key can have is no less.
    ///
    /// It can fail with what the source answers. After an error the reader is to be dropped.
    pub fn skip_to<S: Source>(&mut self, source: &mut S, least: u128) -> Result<(), Fault>
        requires total { S.totals source.old self.old.id ≡ Some (size_of_run self.old) }
        ensures id { self.new.id ≡ self.old.id }
        ensures head { self.new.head ≡ self.old.head }
        ensures no_less { OnOk result (self.old.done ≤ self.new.done) }
        ensures least { OnOk result (self.new.least ≡ max least self.old.least) }
        ensures ok { OnOk result (S.keeps_word source.new → (left : List Cell)
            → AreLeft (S.texts source.old self.old.id) self.old left
            → PassesOver (S.texts source.old self.old.id) left least self.new) }
        ensures idle { least ≤ self.old.least → source.new ≡ source.old }
        ensures run { ReadsSource S.Source source.old source.new result }
    {
        if least <= self.least {
            return Ok(());
        }
        let place = self.first_from(source, least)?;
        self.move_to(place, least);
        Ok(())
    }

    // Goes on to a place, from which on no key has a number below one.
    fn move_to(&mut self, place: usize, least: u128)
        requires from { self.old.done ≤ place }
        requires to { place ≤ self.old.head.count }
        ensures id { self.new.id ≡ self.old.id }
        ensures head { self.new.head ≡ self.old.head }
        ensures done { self.new.done ≡ place }
        ensures least { self.new.least ≡ least }
        ensures ok { (text : Option (List ℕ)) (left : List Cell) → AreLeft text self.old left
            → All (λ cell. least ≤ key_as_number cell.key) (drop (place - self.old.done) left)
            → AreLeft text self.new (drop (place - self.old.done) left) }
    {
        let bytes = bytes_of_cell(self.head.view.ship_mode) * (place - self.done);
        let bytes = bytes.min(self.ahead.rest().len());
        self.ahead.skip(bytes);
        self.done = place;
        self.least = least;
    }

    // The place of the first cell that is left whose key has no number below one, or that after the last cell.
    //
    // The keys that are ahead are looked at first, and then one that is a piece further on: the cell is mostly near.
    fn first_from<S: Source>(&self, source: &mut S, least: u128) -> Result<usize, Fault>
        requires total { S.totals source.old self.now.id ≡ Some (size_of_run self.now) }
        ensures within { IfOk result (λ place. (self.now.done ≤ place) × (place ≤ self.now.head.count)) }
        ensures ok { IfOk result (λ place. S.keeps_word source.new → (left : List Cell)
            → AreLeft (S.texts source.old self.now.id) self.now left
            → AreParted least (place - self.now.done) (place - self.now.done) left) }
        ensures run { ReadsSource S.Source source.old source.new result }
    {
        let all = Range {
            from: self.done,
            to: self.head.count,
        };
        let mut range = self.narrowed(source, least, all, self.last_ahead())?;
        let further = range.from + PIECE;
        range = self.narrowed(source, least, range, further)?;
        while range.from < range.to {
            let middle = range.from + (range.to - range.from) / 2;
            range = self.narrowed(source, least, range, middle)?;
        }
        Ok(range.from)
    }

    // The place of the last cell whose key is ahead, or the place where the reader is.
    fn last_ahead(&self) -> usize {
        let ship_modes = self.head.view.ship_mode;
        let bytes = self
            .ahead
            .rest()
            .len()
            .saturating_sub(bytes_of_key(ship_modes));
        self.done + bytes / bytes_of_cell(ship_modes)
    }

    // The part of a range that is left once the key at a place is looked at. The range stays where the place is not in
    // it.
    fn narrowed<S: Source>(
        &self,
        source: &mut S,
        least: u128,
        range: Range,
        place: usize,
    ) -> Result<Range, Fault>
        requires total { S.totals source.old self.now.id ≡ Some (size_of_run self.now) }
        requires from { self.now.done ≤ range.from }
        requires order { range.from ≤ range.to }
        requires to { range.to ≤ self.now.head.count }
        ensures from { IfOk result (λ next. range.from ≤ next.from) }
        ensures order { IfOk result (λ next. next.from ≤ next.to) }
        ensures to { IfOk result (λ next. next.to ≤ range.to) }
        ensures less { range.from ≤ place → place < range.to
            → IfOk result (λ next. next.to - next.from < range.to - range.from) }
        ensures ok { IfOk result (λ next. S.keeps_word source.new → (left : List Cell)
            → AreLeft (S.texts source.old self.now.id) self.now left
            → AreParted least (range.from - self.now.done) (range.to - self.now.done) left
            → AreParted least (next.from - self.now.done) (next.to - self.now.done) left) }
        ensures run { ReadsSource S.Source source.old source.new result }
    {
        if place < range.from || place >= range.to {
            return Ok(range);
        }
        let number = self.number_at(source, place)?;
        Ok(half_of(range, place, number < least))
    }

    // The number of the key at a place.
    fn number_at<S: Source>(&self, source: &mut S, place: usize) -> Result<u128, Fault>
        requires total { S.totals source.old self.now.id ≡ Some (size_of_run self.now) }
        requires from { self.now.done ≤ place }
        requires within { place < self.now.head.count }
        ensures ok { IfOk result (λ number. S.keeps_word source.new → (left : List Cell) (none : Cell)
            → AreLeft (S.texts source.old self.now.id) self.now left
            → number ≡ key_as_number (slice_index_or left (place - self.now.done) none).key) }
        ensures run { ReadsSource S.Source source.old source.new result }
    {
        if let Some(number) = self.number_ahead(place) {
            return Ok(number);
        }
        let ship_modes = self.head.view.ship_mode;
        let at = HEAD + bytes_of_cell(ship_modes) * place;
        let mut bytes = [0u8; 10];
        let key = &mut bytes[..bytes_of_key(ship_modes)];
        read_part(source, self.id, at as u64, key)?;
        Ok(number_in(key, ship_modes))
    }

    // The number of the key at a place, if the key is ahead.
    fn number_ahead(&self, place: usize) -> Option<u128>
        requires from { self.now.done ≤ place }
        requires within { place < self.now.head.count }
        ensures { IfSome result (λ number. (text : Option (List ℕ)) (left : List Cell) (none : Cell)
            → AreLeft text self.now left
            → number ≡ key_as_number (slice_index_or left (place - self.now.done) none).key) }
    {
        let ship_modes = self.head.view.ship_mode;
        let at = bytes_of_cell(ship_modes) * (place - self.done);
        let rest = self.ahead.rest();
        if rest.len() < at + bytes_of_key(ship_modes) {
            return None;
        }
        Some(number_in(&rest[at..], ship_modes))
    }
}

// What is left of a range once it is known whether the key at a place in it has a number below one.
fn half_of(range: Range, place: usize, is_below: bool) -> Range
    requires from { range.from ≤ place }
    requires to { place < range.to }
    ensures { result ≡ (if is_below then record { from = place + 1; to = range.to }
        else record { from = range.from; to = place }) }
{
    match is_below {
        true => Range {
            from: place + 1,
            to: range.to,
        },
        false => Range {
            from: range.from,
            to: place,
        },
    }
}
