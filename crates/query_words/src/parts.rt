//! The parts of a word.
ghost use Rattle.std.specs.Prelude.{◌≡◌, ◌<◌, map, IfOk};
ghost use Rattle.query_words.specs.Words.{parts_by};

use cube_model::{Items, Text};
use std::alloc::{AllocError, Global};

/// The parts of a text between ASCII signs.
pub fn parts(alloc: Global, text: &str, sign: char) -> Result<Vec<&str>, AllocError>
    requires { sign < 128 }
    ensures { IfOk result (λ parts. map (λ part. part.now) parts.items ≡ parts_by sign text.now) }
{
    text.split(sign).collect(alloc)
}

/// A copy of a text.
pub fn text_of(alloc: Global, text: &str) -> Result<Text, AllocError>
    ensures { IfOk result (λ copy. copy ≡ text.now) }
{
    Ok(Items::from_vec(Vec::from_slice(alloc, text.as_bytes())?))
}

/// Copies of texts.
pub fn copies(alloc: Global, texts: &[&str]) -> Result<Items<Text>, AllocError>
    ensures { IfOk result (λ copies. copies ≡ map (λ text. text.now) texts.now) }
{
    let mut copies = Items::new(alloc);
    for text in texts {
        copies.push(text_of(alloc, text)?)?;
    }
    Ok(copies)
}
