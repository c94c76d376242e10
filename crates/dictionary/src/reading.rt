//! Reading texts from the front of bytes.
ghost use Rattle.std.specs.Prelude.{◌≡◌, ◌⊎◌, [], IfErr, IfOk, IsErr, IsOkUnless, OnOk};
ghost use Rattle.cube_model.specs.declared.fault.Fault.{Fault};
ghost use Rattle.dictionary.specs.Reading.{BeginsWithNew, BeginsWithShort, BeginsWithSome, ReadsEach, ReadsNew};
ghost use Rattle.dictionary.specs.Reading.{ReadsShort};

use crate::dictionary::Dictionary;
use cube_model::Fault;
use std::alloc::Global;
use wire::Cursor;

// Takes so many texts, all different, from the front of bytes.
pub(crate) fn read_texts(
    alloc: Global,
    cursor: &mut Cursor<'_>,
    found: &mut Dictionary,
    count: u32,
) -> Result<(), Fault>
    requires empty { found.old.texts ≡ [] }
    ensures ok { OnOk result (ReadsEach count cursor.old cursor.new found.old found.new) }
    ensures refused { IfErr result (λ fault. (fault ≡ Fault.Memory) ⊎ ((fault ≡ Fault.BadLayout)
        × ¬ BeginsWithSome count found.old.limit cursor.old)) }
{
    for _ in 0..count {
        read_text(alloc, cursor, found)?;
    }
    Ok(())
}

// Takes a text that is not there yet from the front of bytes.
fn read_text(alloc: Global, cursor: &mut Cursor<'_>, found: &mut Dictionary) -> Result<(), Fault>
    ensures ok { OnOk result (ReadsNew cursor.old cursor.new found.old found.new) }
    ensures refused { IfErr result (λ fault. (fault ≡ Fault.Memory) ⊎ ((fault ≡ Fault.BadLayout)
        × ¬ BeginsWithNew cursor.old found.old)) }
{
    let next = found.len();
    let text = take_text(cursor)?;
    match found.add_unkept(alloc, text)? {
        Some(code) if code as usize == next => Ok(()),
        _ => Err(Fault::BadLayout),
    }
}

// Takes a text from the front of bytes.
fn take_text<'a>(cursor: &mut Cursor<'a>) -> Result<&'a [u8], Fault>
    ensures ok { IfOk result (λ text. ReadsShort cursor.old cursor.new text.now) }
    ensures fault { IsOkUnless result Fault.BadLayout }
    ensures none { IsErr result → ¬ BeginsWithShort cursor.old }
{
    let count = cursor.u8()?;
    cursor.bytes(usize::from(count))
}
