//! Bytes that were read ahead.
ghost use Rattle.std.specs.Prelude.{◌≡◌, ◌<◌, ◌≤◌, ◌+◌, ◌-◌, ℕ, List, [], Option, Ok, false, MatchBool, IfOk, length};
ghost use Rattle.std.specs.Prelude.{take, drop};
ghost use Rattle.std.specs.Vec.{vec_capacity};
ghost use Rattle.std.specs.Io.KnownBytes.{IsAtEnd, Keeps, prepend_known};
ghost use Rattle.batch_loader.specs.Fronts.{IsFront, TakesPart};
ghost use Rattle.batch_loader.specs.Reading.{TakesLine};

use crate::reading::LINE_LIMIT;
use memchr::memchr;
use std::alloc::{AllocError, Global};
use std::io::Read;
use std::marker::Model;

/// How many bytes are read at once.
const PIECE: usize = 65536;

/// Bytes that were read and not yet taken.
#[derive(Drop)]
pub struct Window {
    bytes: Vec<u8>,
    from: usize,
    to: usize,
}

impl Model for Window {
    ghost use Rattle.std.specs.Prelude.{ℕ, List, ◌<◌, ◌≤◌, length, slice_range};

    ghost Value = { List ℕ };

    ghost view = { λ window. slice_range window.bytes.items window.from window.to };

    ghost invariant = { λ window. (window.from ≤ window.to) × (window.to ≤ length window.bytes.items)
        × (0 < length window.bytes.items) };
}

impl Window {
    /// No bytes, with room for some.
    pub fn new(alloc: Global) -> Result<Self, AllocError>
        ensures { IfOk result (λ window. window ≡ []) }
    {
        let mut bytes = Vec::with_capacity(alloc, PIECE)?;
        bytes.resize(PIECE, 0u8)?;
        Ok(Window {
            bytes,
            from: 0,
            to: 0,
        })
    }

    /// The bytes.
    pub fn rest(&self) -> &[u8]
        ensures { result.now ≡ self.now }
    {
        &self.bytes.as_slice()[self.from..self.to]
    }

    /// Drops bytes at the front.
    pub fn skip(&mut self, count: usize)
        requires { count ≤ length self.old }
        ensures { self.new ≡ drop count self.old }
    {
        self.from += count;
    }

    /// Where there are no bytes, reads some. It gives false at the end of the text.
    pub fn refill<R: Read>(&mut self, reader: &mut R) -> Result<bool, ()>
        ensures keeps { Keeps (prepend_known self.old (R.remaining reader.old))
            (prepend_known self.new (R.remaining reader.new)) }
        ensures more { IfOk result
            (λ more. MatchBool more (0 < length self.new) (IsAtEnd (prepend_known self.old (R.remaining reader.old))
            × IsAtEnd (prepend_known self.new (R.remaining reader.new)))) }
    {
        if self.from < self.to {
            return Ok(true);
        }
        match reader.read(self.bytes.as_mut_slice()) {
            Err(_) => Err(()),
            Ok(count) => {
                self.from = 0;
                self.to = count;
                Ok(count > 0)
            }
        }
    }
}

/// How many bytes the line at the front has with its LF, or 0 where the window has no LF, or the line is too long.
pub fn line_at_front(window: &Window) -> usize
    ensures within { result ≤ length window.now }
    ensures short { result ≤ LINE_LIMIT + 1 }
    ensures line { (left : Option (List ℕ)) → 0 < result
        → TakesLine (prepend_known window.now left) (prepend_known (drop result window.now) left)
        (take (result - 1) window.now) }
{
    match memchr(b'\n', window.rest()) {
        Some(at) if at <= LINE_LIMIT => at + 1,
        _ => 0,
    }
}

/// Puts the bytes before the next LF after a line, or all, and takes them and the LF. It gives true where there is an
/// LF, and an error for a line that is too long.
pub fn take_part(window: &mut Window, line: &mut Vec<u8>) -> Result<bool, ()>
    requires room { LINE_LIMIT ≤ vec_capacity line.old }
    requires short { length line.old.items ≤ LINE_LIMIT }
    ensures part { (old left : Option (List ℕ)) → IsFront old (prepend_known window.old left) line.old.items
        → TakesPart old (prepend_known window.new left) line.new.items LINE_LIMIT result }
    ensures short { length line.new.items ≤ LINE_LIMIT }
    ensures room { LINE_LIMIT ≤ vec_capacity line.new }
    ensures grows { result ≡ Ok false → 0 < length window.old → length line.old.items < length line.new.items }
{
    let rest = window.rest();
    match memchr(b'\n', rest) {
        Some(at) => {
            if at > LINE_LIMIT - line.len() {
                return Err(());
            }
            line.extend_from_slice(&rest[..at]).unwrap();
            window.skip(at + 1);
            Ok(true)
        }
        None => {
            let count = rest.len();
            if count > LINE_LIMIT - line.len() {
                return Err(());
            }
            line.extend_from_slice(rest).unwrap();
            window.skip(count);
            Ok(false)
        }
    }
}
