//! Texts as members.
ghost use Rattle.std.specs.Prelude.{◌≡◌, ◌≤◌, codes, IfOk, length};
ghost use Rattle.cube_model.specs.Limits.{most_members};
ghost use Rattle.std.specs.Str.{bytes_eq};

use cube_model::{Items, Text};
use dictionary::Dictionary;
use std::alloc::{AllocError, Global};

/// Whether a text is the one that means all members.
pub fn is_all(text: &[u8]) -> bool
    ensures { result ≡ bytes_eq (codes "ALL") text.now }
{
    text == b"ALL".as_slice()
}

/// The texts of a dictionary of members, in the order of their codes.
pub fn copied_texts(alloc: Global, dictionary: &Dictionary) -> Result<Vec<Text>, AllocError>
    requires { length dictionary.now.texts ≤ most_members }
    ensures { IfOk result (λ texts. texts.items ≡ dictionary.now.texts) }
{
    let mut texts = Vec::with_capacity(alloc, dictionary.len())?;
    for code in 0..dictionary.len() as u32 {
        let text = dictionary.text(code).unwrap();
        texts.push(Items::from_vec(Vec::from_slice(alloc, text)?))?;
    }
    Ok(texts)
}
