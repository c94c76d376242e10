//! Lines, however a reader cuts its bytes.
ghost use Rattle.std.specs.Prelude.{◌≡◌, ◌≤◌, MatchBool, IfOk, IfErr, length};
ghost use Rattle.std.specs.Vec.{vec_capacity};
ghost use Rattle.std.specs.Io.KnownBytes.{prepend_known};
ghost use Rattle.batch_loader.specs.Reading.{TakesLine, StaysAtEnd, IsLongLine};
ghost use Rattle.batch_loader.specs.declared.reading.LineFault.TheVariants.{Long};

use crate::window::{Window, take_part};
use cube_model::limits::LONGEST_LINE;
use std::io::Read;

/// The most bytes of a line, its LF not counted.
pub const LINE_LIMIT: usize = LONGEST_LINE;

/// Why no line was read.
#[derive(Clone, Copy, PartialEq, Eq)]
pub enum LineFault {
    Long,
    Input,
}

/// Reads the next line into a buffer, without its LF. It gives false at the end of the text.
pub fn read_line<R: Read>(
    reader: &mut R,
    window: &mut Window,
    line: &mut Vec<u8>,
) -> Result<bool, LineFault>
    requires { LINE_LIMIT ≤ vec_capacity line.old }
    ensures found { IfOk result (λ found. MatchBool found
        (TakesLine (prepend_known window.old (R.remaining reader.old))
        (prepend_known window.new (R.remaining reader.new)) line.new.items)
        (StaysAtEnd (prepend_known window.old (R.remaining reader.old))
        (prepend_known window.new (R.remaining reader.new)))) }
    ensures short { IfOk result (λ _. length line.new.items ≤ LINE_LIMIT) }
    ensures long { IfErr result
        (λ fault. fault ≡ Long → IsLongLine (prepend_known window.old (R.remaining reader.old)) LINE_LIMIT) }
    ensures room { LINE_LIMIT ≤ vec_capacity line.new }
{
    line.clear();
    for _ in 0..=LINE_LIMIT {
        match window.refill(reader) {
            Err(()) => return Err(LineFault::Input),
            Ok(false) => return Ok(!line.is_empty()),
            Ok(true) => {}
        }
        match take_part(window, line) {
            Err(()) => return Err(LineFault::Long),
            Ok(true) => return Ok(true),
            Ok(false) => {}
        }
    }
    Err(LineFault::Long)
}
