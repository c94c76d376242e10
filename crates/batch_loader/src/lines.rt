//! The lines of a text, one by one.
ghost use Rattle.std.specs.Prelude.{◌≡◌, ◌+◌, Some, None, MatchBool, IfOk, IfErr, IsOkUnless};
ghost use Rattle.std.specs.Prelude.{IfSome, length, ◌≤◌};
ghost use Rattle.std.specs.Io.KnownBytes.{Keeps};
ghost use Rattle.batch_loader.specs.Reading.{TakesNext, IsAllTaken, RefusesNext, NextGives};
ghost use Rattle.batch_loader.specs.Rows.{next_number};
ghost use Rattle.std.specs.Borrow.{sem};
ghost use Rattle.std.specs.Io.BufRead.{Rests};
ghost use Rattle.batch_loader.specs.contracts.lines.Lines.{the_row};

use crate::reading::{LINE_LIMIT, LineFault, read_line};
use crate::window::{Window, line_at_front};
use cube_model::{Fault, Place};
use std::alloc::Global;
use std::io::Read;
use std::marker::Model;

/// The lines of what a reader has left.
///
/// The line that was taken last lies in front of the window still, with its LF, if any byte is taken there, and else in
/// the buffer.
pub struct Lines<R: Read> {
    reader: R,
    window: Window,
    taken: usize,
    buffer: Vec<u8>,
    number: u64,
    fault: Option<Fault>,
}

// Written out, so that a proof has one call to follow where one is let go.
impl<R: Read + Drop> Drop for Lines<R> {
    fn drop(self) {
        let Lines {
            reader: _,
            window: _,
            taken: _,
            buffer: _,
            number: _,
            fault: _,
        } = self;
    }
}

impl<R: Read> Model for Lines<R> {
    ghost use Rattle.std.specs.Prelude.{◌≤◌, length, drop};
    ghost use Rattle.std.specs.Vec.{vec_capacity};
    ghost use Rattle.std.specs.Io.KnownBytes.{prepend_known};
    ghost use Rattle.cube_model.specs.Limits.{longest_line};
    ghost use Rattle.batch_loader.specs.Unread.{Unread, line_in};

    ghost Value = { Unread };

    ghost view = { λ lines. record {
      left = prepend_known (drop lines.taken lines.window) (R.remaining lines.reader);
      line = line_in lines.taken lines.window lines.buffer.items;
      number = lines.number;
      fault = lines.fault;
    } };

    ghost invariant = { λ lines. (lines.taken ≤ length lines.window) × (longest_line ≤ vec_capacity lines.buffer) };
}

impl<R: Read> Lines<R> {
    /// The lines of what a reader gives. It fails only when out of memory.
    pub fn new(alloc: Global, reader: R) -> Result<Self, Fault>
    where
        R: Drop,
        ensures left { IfOk result (λ lines. Keeps (R.remaining reader) lines.left) }
        ensures number { IfOk result (λ lines. lines.number ≡ 0) }
        ensures fault { IfOk result (λ lines. lines.fault ≡ None) }
        ensures err { IsOkUnless result Fault.Memory }
    {
        let window = Window::new(alloc)?;
        let buffer = Vec::with_capacity(alloc, LINE_LIMIT)?;
        Ok(Lines {
            reader,
            window,
            taken: 0,
            buffer,
            number: 0,
            fault: None,
        })
    }

    /// The line that was taken last, without its LF. After a refusal it is the line that is refused, except where that
    /// is too long or a read failed.
    pub fn line(&self) -> &[u8]
        ensures { result.now ≡ self.now.line }
    {
        if self.taken == 0 {
            return self.buffer.as_slice();
        }
        &self.window.rest()[..self.taken - 1]
    }

    /// How many lines were taken, which is the number of the line that was taken last.
    pub fn number(&self) -> u64
        ensures { result ≡ self.now.number }
    {
        self.number
    }

    /// The fault that each call answers from now on, if there was one.
    pub fn fault(&self) -> Option<Fault>
        ensures { result ≡ self.now.fault }
    {
        let Lines { fault, .. } = self;
        *fault
    }

    /// Holds a fault, which each call answers from now on.
    pub(crate) fn refuse(&mut self, fault: Fault) -> Fault
        ensures fault { result ≡ fault }
        ensures held { self.new ≡ record self.old { fault = Some fault } }
    {
        self.fault = Some(fault);
        fault
    }

    /// Takes the next line. It gives false at the end of the text.
    pub(crate) fn advance(&mut self) -> Result<bool, Fault>
        // After a refusal the same comes again.
        ensures again { IfSome self.old.fault (λ fault. result ≡ Err fault) }
        ensures held { IfErr result (λ fault. self.new.fault ≡ Some fault) }
        ensures found { IfOk result
            (λ found. MatchBool found (TakesNext self.old self.new self.new.line) (IsAllTaken self.old self.new)) }
        ensures refused { self.old.fault ≡ None → IfErr result (RefusesNext self.old) }
        ensures number { self.old.fault ≡ None → IfErr result (λ _. self.new.number ≡ next_number self.old.number) }
    {
        if let Some(fault) = self.fault {
            return Err(fault);
        }
        self.window.skip(self.taken);
        self.taken = line_at_front(&self.window);
        if self.taken > 0 {
            self.number = self.number.saturating_add(1);
            return Ok(true);
        }
        let found = read_line(&mut self.reader, &mut self.window, &mut self.buffer);
        if found != Ok(false) {
            self.number = self.number.saturating_add(1);
        }
        match found {
            Ok(found) => Ok(found),
            Err(LineFault::Long) => {
                let place = Place::Line(self.number);
                Err(self.refuse(Fault::FieldTooLong { place, field: 0 }))
            }
            Err(LineFault::Input) => Err(self.refuse(Fault::Input)),
        }
    }

    /// The next line, without its LF, or nothing at the end of the text.
    pub fn next(&mut self) -> Result<Option<&[u8]>, Fault>
        ensures again { IfSome self.old.fault (λ fault. result ≡ Err fault) }
        ensures* after_borrow { sem 𝓛 (Rests (the_row R.row R.Read) self.entry (λ new. NextGives self.old new result)) }
    {
        if self.advance()? {
            Ok(Some(self.line()))
        } else {
            Ok(None)
        }
    }
}
