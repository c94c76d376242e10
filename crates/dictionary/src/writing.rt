//! Writing texts.
ghost use Rattle.std.specs.Prelude.{◌≡◌, ◌≤◌, ◌++◌, length, map, All, OnOk, IsOkUnless};
ghost use Rattle.std.specs.List.{flat_map};
ghost use Rattle.cube_model.specs.Limits.{longest_text};
ghost use Rattle.dictionary.specs.Spelling.{text_spelling};

use cube_model::Fault;
use wire::{push_bytes, push_u8};

// Adds texts to bytes.
pub(crate) fn push_texts(out: &mut Vec<u8>, texts: &[Vec<u8>]) -> Result<(), Fault>
    requires short { All (λ text. length text.items ≤ longest_text) texts.now }
    ensures ok { OnOk result
        (out.new.items ≡ out.old.items ++ flat_map text_spelling (map (λ text. text.items) texts.now)) }
    ensures memory { IsOkUnless result Fault.Memory }
{
    for text in texts {
        push_text(out, text)?;
    }
    Ok(())
}

// Adds a text to bytes.
fn push_text(out: &mut Vec<u8>, text: &[u8]) -> Result<(), Fault>
    requires short { length text.now ≤ longest_text }
    ensures ok { OnOk result (out.new.items ≡ out.old.items ++ text_spelling text.now) }
    ensures memory { IsOkUnless result Fault.Memory }
{
    push_u8(out, text.len() as u8)?;
    push_bytes(out, text)
}
