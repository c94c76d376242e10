//! Readers that cut a text, and fail.
ghost use Rattle.std.specs.Prelude.{◌≡◌, ◌<◌};

use std::io::{self, Read};

/// Gives a text in pieces of some bytes. It may fail at a read.
#[derive(Drop)]
pub struct Pieces<'a> {
    pub text: &'a [u8],
    pub piece: usize,
    /// At which read from here on it fails, counted from 1; at 0 none does.
    pub fails_at: u32,
    ghost some: { 0 < piece },
}

/// Gives a text whole, as far as there is room.
pub fn whole(text: &[u8]) -> Pieces<'_>
    ensures { result.text.now ≡ text.now }
{
    in_pieces(text, usize::MAX)
}

/// Gives a text byte by byte.
pub fn byte_by_byte(text: &[u8]) -> Pieces<'_>
    ensures { result.text.now ≡ text.now }
{
    in_pieces(text, 1)
}

/// Gives a text in pieces of seven bytes.
pub fn in_sevens(text: &[u8]) -> Pieces<'_>
    ensures { result.text.now ≡ text.now }
{
    in_pieces(text, 7)
}

/// Gives a text in pieces of some bytes.
pub fn in_pieces(text: &[u8], piece: usize) -> Pieces<'_>
    requires { 0 < piece }
    ensures { result.text.now ≡ text.now }
{
    Pieces {
        text,
        piece,
        fails_at: 0,
    }
}

impl<'a> Pieces<'a> {
    /// The reader, which fails at a read from here on, counted from 1; at 0 none does.
    pub fn failing_at(self, read: u32) -> Pieces<'a>
        ensures text { result.text.now ≡ self.entry.text.now }
        ensures fails { result.fails_at ≡ read }
    {
        Pieces {
            text: self.text,
            piece: self.piece,
            fails_at: read,
        }
    }
}

impl Read for Pieces<'_> {
    ghost use Rattle.std.specs.Prelude.{Some};

    ghost remaining = { λ pieces. Some pieces.text.now };

    fn read(&mut self, buf: &mut [u8]) -> io::Result<usize> {
        if self.fails_at == 1 {
            return Err(io::Error::other("the reader fails here"));
        }
        self.fails_at = self.fails_at.saturating_sub(1);
        let text = self.text;
        let count = self.piece.min(text.len()).min(buf.len());
        buf[..count].copy_from_slice(&text[..count]);
        self.text = &text[count..];
        Ok(count)
    }
}
