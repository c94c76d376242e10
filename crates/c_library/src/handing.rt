//! How C is given a text, or a fault.
ghost use Rattle.std.specs.Prelude.{◌≡◌};
ghost use Rattle.c_library.specs.Handing.{HandsOver, IsSaid, fault_number, said_in};

use cube_model::Fault;
use std::alloc::Global;

/// Puts a text at the front of the room for it, where it has enough, and answers its length.
pub(crate) fn put(text: &[u8], out: &mut [u8]) -> i64
    ensures { HandsOver text.now out.old out.new result }
{
    if text.len() <= out.len() {
        out[..text.len()].copy_from_slice(text);
    }
    text.len() as i64
}

/// The number of a fault with a minus.
pub(crate) fn number_of(fault: Fault) -> i64
    ensures { result ≡ fault_number fault }
{
    -i64::from(fault.code())
}

/// Puts the line that the program prints of a fault in the room for a message, and answers the number of the fault with
/// a minus. Where there is no memory for the line it is an empty one.
pub(crate) fn refuse(alloc: Global, fault: Fault, message: &mut [u8]) -> i64
    ensures number { result ≡ fault_number fault }
    ensures said { IsSaid message.old message.new }
{
    match format!(in alloc; "{fault}") {
        Ok(line) => say(line.as_bytes(), message),
        Err(_) => say(b"", message),
    }
    number_of(fault)
}

// Puts a text in the room for a message, cut where there is too little, with a zero byte at its end.
fn say(text: &[u8], message: &mut [u8])
    ensures { message.new ≡ said_in message.old text.now }
{
    if message.is_empty() {
        return;
    }
    let end = text.len().min(message.len() - 1);
    message[..end].copy_from_slice(&text[..end]);
    message[end] = 0;
}
