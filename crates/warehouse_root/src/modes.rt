//! The object of the ship modes of a warehouse of the second layout.
ghost use Rattle.std.specs.Prelude.{◌≡◌, ◌≢◌, ◌⊎◌, ℕ, List, ◌++◌, codes, IfErr, IfOk, IsErr, IsOkUnless, OnOk};
ghost use Rattle.std.specs.List.{list_any};
ghost use Rattle.std.specs.Str.{bytes_eq};
ghost use Rattle.cube_model.specs.declared.fault.Fault.{Fault};
ghost use Rattle.cube_model.specs.Limits.{most_members};
ghost use Rattle.dictionary.specs.Spelling.{AreShort};
ghost use Rattle.warehouse_root.specs.Modes.{SpellModes, modes_spelling};

use cube_model::Fault;
use cube_model::limits::MOST_MEMBERS;
use dictionary::Dictionary;
use std::alloc::Global;
use wire::{Cursor, push_bytes};

/// The id of the object.
pub const MODES_ID: u32 = 5;

// Its first bytes.
const NAME: &[u8] = b"SHP2";

/// The bytes of ship modes, none of which may have more than 255 bytes. It can only fail when out of memory.
pub fn encode_modes(alloc: Global, modes: &Dictionary) -> Result<Vec<u8>, Fault>
    requires { AreShort modes.now.texts }
    ensures ok { IfOk result (λ bytes. bytes.items ≡ modes_spelling modes.now.texts) }
    ensures memory { IsOkUnless result Fault.Memory }
{
    let mut out = Vec::new(alloc);
    push_bytes(&mut out, NAME)?;
    modes.push_to(&mut out)?;
    Ok(out)
}

/// The ship modes that bytes spell, in a dictionary for at most 65,535 of them.
///
/// `BadLayout` exactly where the bytes spell none: where the name differs, no dictionary of at most 65,535 texts
/// follows it, bytes are left, or a text is the one that means all ship modes. It can also fail when out of memory.
pub fn decode_modes(alloc: Global, bytes: &[u8]) -> Result<Dictionary, Fault>
    ensures ok { IfOk result (λ modes. SpellModes bytes.now modes.texts) }
    ensures limit { IfOk result (λ modes. modes.limit ≡ most_members) }
    ensures refused { IfErr result (λ fault. (fault ≡ Fault.Memory)
        ⊎ ((fault ≡ Fault.BadLayout) × ((modes : List (List ℕ)) → ¬ SpellModes bytes.now modes))) }
{
    let mut cursor = Cursor::new(bytes);
    read_name(&mut cursor)?;
    let modes = Dictionary::read(alloc, &mut cursor, MOST_MEMBERS as u32)?;
    if !cursor.is_empty() || names_all(&modes) {
        return Err(Fault::BadLayout);
    }
    Ok(modes)
}

// Takes the name from the front of bytes.
fn read_name(cursor: &mut Cursor<'_>) -> Result<(), Fault>
    ensures ok { OnOk result (cursor.old ≡ codes "SHP2" ++ cursor.new) }
    ensures fault { IsOkUnless result Fault.BadLayout }
    ensures none { IsErr result → (rest : List ℕ) → cursor.old ≢ codes "SHP2" ++ rest }
{
    if cursor.bytes(4)? != NAME {
        return Err(Fault::BadLayout);
    }
    Ok(())
}

// Whether one of the ship modes is the text that means all of them.
fn names_all(modes: &Dictionary) -> bool
    ensures { result ≡ list_any (bytes_eq (codes "ALL")) modes.now.texts }
{
    modes.code(b"ALL".as_slice()).is_some()
}
