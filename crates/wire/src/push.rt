//! Writing numbers after the bytes of a vector.
#![tactic(auto, unfolding(crate::specs::Spelling::spelling))]

ghost use Rattle.std.specs.Prelude.{◌≡◌, ◌+◌, ◌<◌, ◌++◌, length, OnOk, OnErr, IsOkUnless};
ghost use Rattle.std.specs.Vec.{vec_len, vec_capacity};
ghost use Rattle.wire.specs.Spelling.{spelling, signed_spelling};

use byteorder::{ByteOrder, LittleEndian};
use cube_model::Fault;

/// Adds bytes as they are.
pub fn push_bytes(out: &mut Vec<u8>, bytes: &[u8]) -> Result<(), Fault>
    ensures ok { OnOk result (out.new.items ≡ out.old.items ++ bytes.now) }
    ensures err { OnErr result (out.new.items ≡ out.old.items) }
    ensures memory { IsOkUnless result Fault.Memory }
    ensures full { OnErr result (vec_capacity out.old < vec_len out.old + length bytes.now) }
{
    out.extend_from_slice(bytes)?;
    Ok(())
}

/// Adds a number in one byte.
pub fn push_u8(out: &mut Vec<u8>, number: u8) -> Result<(), Fault>
    ensures ok { OnOk result (out.new.items ≡ out.old.items ++ spelling 1 number) }
    ensures err { OnErr result (out.new.items ≡ out.old.items) }
    ensures memory { IsOkUnless result Fault.Memory }
    ensures full { OnErr result (vec_capacity out.old < vec_len out.old + 1) }
{
    push_bytes(out, &[number])
}

/// Adds a number in two bytes.
pub fn push_u16(out: &mut Vec<u8>, number: u16) -> Result<(), Fault>
    ensures ok { OnOk result (out.new.items ≡ out.old.items ++ spelling 2 number) }
    ensures err { OnErr result (out.new.items ≡ out.old.items) }
    ensures memory { IsOkUnless result Fault.Memory }
    ensures full { OnErr result (vec_capacity out.old < vec_len out.old + 2) }
{
    let mut bytes = [0; 2];
    LittleEndian::write_u16(&mut bytes, number);
    push_bytes(out, &bytes)
}

/// Adds a number in four bytes.
pub fn push_u32(out: &mut Vec<u8>, number: u32) -> Result<(), Fault>
    ensures ok { OnOk result (out.new.items ≡ out.old.items ++ spelling 4 number) }
    ensures err { OnErr result (out.new.items ≡ out.old.items) }
    ensures memory { IsOkUnless result Fault.Memory }
    ensures full { OnErr result (vec_capacity out.old < vec_len out.old + 4) }
{
    let mut bytes = [0; 4];
    LittleEndian::write_u32(&mut bytes, number);
    push_bytes(out, &bytes)
}

/// Adds a number in eight bytes.
pub fn push_u64(out: &mut Vec<u8>, number: u64) -> Result<(), Fault>
    ensures ok { OnOk result (out.new.items ≡ out.old.items ++ spelling 8 number) }
    ensures err { OnErr result (out.new.items ≡ out.old.items) }
    ensures memory { IsOkUnless result Fault.Memory }
    ensures full { OnErr result (vec_capacity out.old < vec_len out.old + 8) }
{
    let mut bytes = [0; 8];
    LittleEndian::write_u64(&mut bytes, number);
    push_bytes(out, &bytes)
}

/// Adds a signed number in eight bytes.
pub fn push_i64(out: &mut Vec<u8>, number: i64) -> Result<(), Fault>
    ensures ok { OnOk result (out.new.items ≡ out.old.items ++ signed_spelling number) }
    ensures err { OnErr result (out.new.items ≡ out.old.items) }
    ensures memory { IsOkUnless result Fault.Memory }
    ensures full { OnErr result (vec_capacity out.old < vec_len out.old + 8) }
{
    let mut bytes = [0; 8];
    LittleEndian::write_i64(&mut bytes, number);
    push_bytes(out, &bytes)
}
