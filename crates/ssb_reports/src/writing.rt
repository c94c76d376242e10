//! Bytes to a writer.
ghost use Rattle.std.specs.Prelude.{◌≡◌, ◌≤◌, length, IfOk, IfErr};
ghost use Rattle.std.specs.Io.KnownBytes.{Keeps, WriteAppends};
ghost use Rattle.std.specs.List.{flat_map};
ghost use Rattle.ssb_reports.specs.Writing.{Writes};

use cube_model::Fault;
use itoa::{Buffer, Integer};
use std::io::{ErrorKind, Write};

/// Hands a writer all of some bytes. It tries again where a write was interrupted.
pub fn write_bytes<W: Write>(out: &mut W, bytes: &[u8]) -> Result<(), Fault>
    ensures { Writes (W.contents out.old) (W.contents out.new) result bytes.now }
{
    let mut left = bytes;
    for _ in 0..u64::MAX {
        if left.is_empty() {
            return Ok(());
        }
        let taken = write_some(out, left)?;
        left = &left[taken..];
    }
    Err(Fault::Output)
}

// Hands a writer a beginning of some bytes, none where the write was interrupted, and says how many.
fn write_some<W: Write>(out: &mut W, bytes: &[u8]) -> Result<usize, Fault>
    ensures bytes { WriteAppends (W.contents out.old) (W.contents out.new) result bytes.now }
    ensures bound { IfOk result (λ taken. taken ≤ length bytes.now) }
    ensures fault { IfErr result (λ fault. fault ≡ Fault.Output) }
{
    match out.write(bytes) {
        Ok(0) => Err(Fault::Output),
        Ok(taken) => Ok(taken),
        Err(error) if error.kind() == ErrorKind::Interrupted => Ok(0),
        Err(_) => Err(Fault::Output),
    }
}

/// Hands a writer a whole number in decimal.
pub fn write_number<W: Write, I: Integer>(out: &mut W, number: I) -> Result<(), Fault>
    ensures { Writes (W.contents out.old) (W.contents out.new) result (I.text number) }
{
    let mut buffer = Buffer::new();
    write_bytes(out, buffer.format(number).as_bytes())
}

/// Hands a writer some parts one after the other.
pub fn write_parts<W: Write>(out: &mut W, parts: &[&[u8]]) -> Result<(), Fault>
    ensures { Writes (W.contents out.old) (W.contents out.new) result (flat_map (λ part. part.now) parts.now) }
{
    for part in parts {
        write_bytes(out, part)?;
    }
    Ok(())
}

/// Has a writer pass on what it holds back.
pub fn flush<W: Write>(out: &mut W) -> Result<(), Fault>
    ensures bytes { Keeps (W.contents out.old) (W.contents out.new) }
    ensures fault { IfErr result (λ fault. fault ≡ Fault.Output) }
{
    match out.flush() {
        Ok(()) => Ok(()),
        Err(_) => Err(Fault::Output),
    }
}
