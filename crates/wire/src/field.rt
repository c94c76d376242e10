//! The number that the bytes of a field spell.
ghost use Rattle.std.specs.Prelude.{◌≡◌, length};
ghost use Rattle.wire.specs.Spelling.{signed_spelling, spelling};

use byteorder::{ByteOrder, LittleEndian};

// The number that one byte spells.
pub fn number_u8(field: &[u8]) -> u8
    requires { length field.now ≡ 1 }
    ensures { spelling 1 result ≡ field.now }
{
    field[0]
}

// The number that two bytes spell.
pub fn number_u16(field: &[u8]) -> u16
    requires { length field.now ≡ 2 }
    ensures { spelling 2 result ≡ field.now }
{
    LittleEndian::read_u16(field)
}

// The number that four bytes spell.
pub fn number_u32(field: &[u8]) -> u32
    requires { length field.now ≡ 4 }
    ensures { spelling 4 result ≡ field.now }
{
    LittleEndian::read_u32(field)
}

// The number that eight bytes spell.
pub fn number_u64(field: &[u8]) -> u64
    requires { length field.now ≡ 8 }
    ensures { spelling 8 result ≡ field.now }
{
    LittleEndian::read_u64(field)
}

// The signed number that eight bytes spell.
pub fn number_i64(field: &[u8]) -> i64
    requires { length field.now ≡ 8 }
    ensures { signed_spelling result ≡ field.now }
{
    LittleEndian::read_i64(field)
}
