//! The texts that a page writes into files.
use std::alloc::{AllocError, Global};
use std::io::{self, Write};

/// Where a text is after some of its bytes.
#[derive(Clone, Copy)]
enum Place {
    /// Outside of all escapes.
    Text,
    /// After a backslash.
    Escape,
    /// After a backslash and some octal digits, with their value.
    Octal { digits: u8, value: u8 },
}

/// What `printf` prints of a text: its bytes, and a byte for each escape. An escape is a backslash with `n`, `r` or
/// three octal digits after it.
pub fn unescaped(alloc: Global, text: &str) -> Result<Vec<u8>, AllocError> {
    let mut bytes = Vec::new(alloc);
    let mut place = Place::Text;
    for byte in text.as_bytes() {
        place = take_byte(&mut bytes, place, *byte)?;
    }
    Ok(bytes)
}

// Takes the next byte, and says where the byte after it is.
fn take_byte(bytes: &mut Vec<u8>, place: Place, byte: u8) -> Result<Place, AllocError> {
    match place {
        Place::Text if byte == b'\\' => Ok(Place::Escape),
        Place::Text => put(bytes, byte),
        Place::Escape => match byte {
            b'n' => put(bytes, b'\n'),
            b'r' => put(bytes, b'\r'),
            digit => Ok(Place::Octal {
                digits: 1,
                value: octal(digit),
            }),
        },
        Place::Octal { digits, value } => {
            let value = value.wrapping_mul(8).wrapping_add(octal(byte));
            if digits < 2 {
                Ok(Place::Octal { digits: 2, value })
            } else {
                put(bytes, value)
            }
        }
    }
}

fn put(bytes: &mut Vec<u8>, byte: u8) -> Result<Place, AllocError> {
    bytes.push(byte)?;
    Ok(Place::Text)
}

fn octal(digit: u8) -> u8 {
    digit.wrapping_sub(b'0') & 7
}

/// A line for each number from `first` to `last`, with the number in place of each `&`.
pub fn numbered(alloc: Global, first: u32, last: u32, line: &str) -> io::Result<Vec<u8>> {
    let mut bytes = Vec::new(alloc);
    for number in first..=last {
        push_line(&mut bytes, line, number)?;
    }
    Ok(bytes)
}

fn push_line(bytes: &mut Vec<u8>, line: &str, number: u32) -> io::Result<()> {
    for (place, part) in line.split('&').enumerate() {
        if place > 0 {
            write!(bytes, "{number}")?;
        }
        bytes.extend_from_slice(part.as_bytes())?;
    }
    bytes.push(b'\n')?;
    Ok(())
}

/// The text that `s/.*/TEXT/` puts in the place of each line.
pub fn replacement(script: &str) -> Option<&str> {
    script.strip_prefix("s/.*/")?.strip_suffix('/')
}

/// The first line of a text, with its end.
pub fn first_line(alloc: Global, text: &[u8]) -> Result<Vec<u8>, AllocError> {
    let mut line = Vec::new(alloc);
    for byte in text {
        line.push(*byte)?;
        if *byte == b'\n' {
            break;
        }
    }
    Ok(line)
}

/// A text without its carriage returns.
pub fn without_returns(alloc: Global, text: &[u8]) -> Result<Vec<u8>, AllocError> {
    let mut bytes = Vec::new(alloc);
    for byte in text {
        if *byte != b'\r' {
            bytes.push(*byte)?;
        }
    }
    Ok(bytes)
}
