//! Writing numbers over bytes that are there.
#![tactic(auto, unfolding(crate::specs::Spelling::spelling))]

ghost use Rattle.std.specs.Prelude.{◌≡◌, ◌+◌, ◌≤◌, length};
ghost use Rattle.wire.specs.Spelling.{signed_spelling, spelling};
ghost use Rattle.wire.specs.Writing.{with_field};

use byteorder::{ByteOrder, LittleEndian};

/// Writes bytes as they are from a place on.
pub fn write_bytes(to: &mut [u8], at: usize, bytes: &[u8])
    requires { at + length bytes.now ≤ length to.old }
    ensures { to.new ≡ with_field at bytes.now to.old }
{
    to[at..at + bytes.len()].copy_from_slice(bytes);
}

/// Writes a number in two bytes from a place on.
pub fn write_u16(to: &mut [u8], at: usize, number: u16)
    requires { at + 2 ≤ length to.old }
    ensures { to.new ≡ with_field at (spelling 2 number) to.old }
{
    LittleEndian::write_u16(&mut to[at..at + 2], number);
}

/// Writes a number in four bytes from a place on.
pub fn write_u32(to: &mut [u8], at: usize, number: u32)
    requires { at + 4 ≤ length to.old }
    ensures { to.new ≡ with_field at (spelling 4 number) to.old }
{
    LittleEndian::write_u32(&mut to[at..at + 4], number);
}

/// Writes a number in eight bytes from a place on.
pub fn write_u64(to: &mut [u8], at: usize, number: u64)
    requires { at + 8 ≤ length to.old }
    ensures { to.new ≡ with_field at (spelling 8 number) to.old }
{
    LittleEndian::write_u64(&mut to[at..at + 8], number);
}

/// Writes a signed number in eight bytes from a place on.
pub fn write_i64(to: &mut [u8], at: usize, number: i64)
    requires { at + 8 ≤ length to.old }
    ensures { to.new ≡ with_field at (signed_spelling number) to.old }
{
    LittleEndian::write_i64(&mut to[at..at + 8], number);
}
