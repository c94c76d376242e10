//! Reading numbers from the front of bytes.
ghost use Rattle.std.specs.Prelude.{◌≡◌, ◌↔◌, ◌<◌, ◌≤◌, [], length, IsTrue, IsErr, IfOk, IsOkUnless, OnErr};
ghost use Rattle.wire.specs.Reading.{ReadsNumber, ReadsSigned, TakesBytes};

use crate::field::{number_i64, number_u8, number_u16, number_u32, number_u64};
use cube_model::Fault;
use std::marker::Model;

/// Bytes that are read from the front. Contracts see it as the bytes that are left.
#[derive(Drop)]
pub struct Cursor<'a> {
    rest: &'a [u8],
}

impl<'a> Model for Cursor<'a> {
    ghost use Rattle.std.specs.Prelude.{ℕ, List};

    ghost Value = { List ℕ };

    ghost view = { λ cursor. cursor.rest.now };
}

impl<'a> Cursor<'a> {
    /// At the first of the bytes.
    pub fn new(bytes: &'a [u8]) -> Self
        ensures { result ≡ bytes.now }
    {
        Cursor { rest: bytes }
    }

    /// How many bytes are left.
    pub fn len(&self) -> usize
        ensures { result ≡ length self.now }
    {
        self.rest.len()
    }

    /// Whether no byte is left.
    pub fn is_empty(&self) -> bool
        ensures { IsTrue result ↔ (self.now ≡ []) }
    {
        self.rest.is_empty()
    }

    /// Takes bytes as they are.
    pub fn bytes(&mut self, count: usize) -> Result<&'a [u8], Fault>
        ensures value { IfOk result (λ part. TakesBytes count self.old self.new part.now) }
        ensures short { IsErr result ↔ (length self.old < count) }
        ensures fault { IsOkUnless result Fault.BadLayout }
        ensures unchanged { OnErr result (self.new ≡ self.old) }
    {
        if self.rest.len() < count {
            return Err(Fault::BadLayout);
        }
        Ok(self.next_bytes(count))
    }

    /// Takes a number of one byte.
    pub fn u8(&mut self) -> Result<u8, Fault>
        ensures value { IfOk result (ReadsNumber 1 self.old self.new) }
        ensures short { IsErr result ↔ (length self.old < 1) }
        ensures fault { IsOkUnless result Fault.BadLayout }
        ensures unchanged { OnErr result (self.new ≡ self.old) }
    {
        let field = self.bytes(1)?;
        Ok(number_u8(field))
    }

    /// Takes a number of two bytes.
    pub fn u16(&mut self) -> Result<u16, Fault>
        ensures value { IfOk result (ReadsNumber 2 self.old self.new) }
        ensures short { IsErr result ↔ (length self.old < 2) }
        ensures fault { IsOkUnless result Fault.BadLayout }
        ensures unchanged { OnErr result (self.new ≡ self.old) }
    {
        let field = self.bytes(2)?;
        Ok(number_u16(field))
    }

    /// Takes a number of four bytes.
    pub fn u32(&mut self) -> Result<u32, Fault>
        ensures value { IfOk result (ReadsNumber 4 self.old self.new) }
        ensures short { IsErr result ↔ (length self.old < 4) }
        ensures fault { IsOkUnless result Fault.BadLayout }
        ensures unchanged { OnErr result (self.new ≡ self.old) }
    {
        let field = self.bytes(4)?;
        Ok(number_u32(field))
    }

    /// Takes a number of eight bytes.
    pub fn u64(&mut self) -> Result<u64, Fault>
        ensures value { IfOk result (ReadsNumber 8 self.old self.new) }
        ensures short { IsErr result ↔ (length self.old < 8) }
        ensures fault { IsOkUnless result Fault.BadLayout }
        ensures unchanged { OnErr result (self.new ≡ self.old) }
    {
        let field = self.bytes(8)?;
        Ok(number_u64(field))
    }

    /// Takes a signed number of eight bytes.
    pub fn i64(&mut self) -> Result<i64, Fault>
        ensures value { IfOk result (ReadsSigned self.old self.new) }
        ensures short { IsErr result ↔ (length self.old < 8) }
        ensures fault { IsOkUnless result Fault.BadLayout }
        ensures unchanged { OnErr result (self.new ≡ self.old) }
    {
        let field = self.bytes(8)?;
        Ok(number_i64(field))
    }

    // Takes bytes as they are, which the caller knows to be left.
    #[inline(always)]
    fn next_bytes(&mut self, count: usize) -> &'a [u8]
        requires { count ≤ length self.old }
        ensures { TakesBytes count self.old self.new result.now }
    {
        let (part, rest) = self.rest.split_at(count);
        self.rest = rest;
        part
    }

    /// Takes a number of two bytes, which the caller knows to be left.
    #[inline(always)]
    pub fn next_u16(&mut self) -> u16
        requires { 2 ≤ length self.old }
        ensures { ReadsNumber 2 self.old self.new result }
    {
        number_u16(self.next_bytes(2))
    }

    /// Takes a number of eight bytes, which the caller knows to be left.
    #[inline(always)]
    pub fn next_u64(&mut self) -> u64
        requires { 8 ≤ length self.old }
        ensures { ReadsNumber 8 self.old self.new result }
    {
        number_u64(self.next_bytes(8))
    }

    /// Takes a signed number of eight bytes, which the caller knows to be left.
    #[inline(always)]
    pub fn next_i64(&mut self) -> i64
        requires { 8 ≤ length self.old }
        ensures { ReadsSigned self.old self.new result }
    {
        number_i64(self.next_bytes(8))
    }
}
