//! The ship modes of a batch, where they are the members of an axis.
ghost use Rattle.std.specs.Prelude.{◌≡◌, ◌<◌, ◌≤◌, ◌++◌, ℕ, List, length, IfOk, IsOkUnless};
ghost use Rattle.std.specs.Int.{from_le_bytes};
ghost use Rattle.std.specs.Option.{IfNone};
ghost use Rattle.cube_model.specs.Limits.{most_batch_rows, most_members};
ghost use Rattle.cube_model.specs.ShipModes.{crowded_place, reserved_place};
ghost use Rattle.dictionary.specs.Columns.{text_of_code};
ghost use Rattle.dictionary.specs.Dictionary.{firsts};
ghost use Rattle.batch_admission.specs.ShipModes.{AreCodesAmong, row_number_at, texts_by};

use cube_model::Fault;
use dictionary::Dictionary;
use std::alloc::Global;

// The text that means all ship modes.
const ALL: &[u8] = b"ALL";

/// The first of a batch's rows whose ship mode is `ALL`, from 1. Rows are given by the codes of their ship modes, in
/// two bytes each, the lowest first.
pub fn reserved_row(modes: &Dictionary, codes: &[[u8; 2]]) -> Option<u32>
    requires below { AreCodesAmong modes.now.texts codes.now }
    requires few { length codes.now ≤ most_batch_rows }
    ensures { result ≡ row_number_at (reserved_place (texts_by modes.now.texts codes.now)) }
{
    if modes.code(ALL).is_none() {
        return None;
    }
    for (place, code) in codes.iter().enumerate() {
        if text_of(modes, u16::from_le_bytes(*code)) == ALL {
            return Some(place as u32 + 1);
        }
    }
    None
}

/// Adds the ship modes of a batch to those of the batches before it, each once in the order of first use, and answers
/// the first row, from 1, with which they would be more than 65,535: then some of the batch may have been added. Rows
/// are given by the codes of their ship modes, in two bytes each, the lowest first.
///
/// It can only fail when out of memory. Some of the batch may then have been added too.
pub fn add_modes(
    alloc: Global,
    known: &mut Dictionary,
    modes: &Dictionary,
    codes: &[[u8; 2]],
) -> Result<Option<u32>, Fault>
    requires limit { known.old.limit ≡ most_members }
    requires below { AreCodesAmong modes.now.texts codes.now }
    requires few { length codes.now ≤ most_batch_rows }
    ensures fit { IfOk result (λ row. IfNone row ((earlier : List (List ℕ)) → known.old.texts ≡ firsts earlier
        → known.new.texts ≡ firsts (earlier ++ texts_by modes.now.texts codes.now))) }
    ensures crowded { IfOk result (λ row. (earlier : List (List ℕ)) → known.old.texts ≡ firsts earlier
        → row ≡ row_number_at (crowded_place earlier (texts_by modes.now.texts codes.now))) }
    ensures limit { known.new.limit ≡ known.old.limit }
    ensures few { length known.old.texts ≤ most_members → length known.new.texts ≤ most_members }
    ensures memory { IsOkUnless result Fault.Memory }
{
    let mut met = Vec::from_elem(alloc, false, modes.len())?;
    for (place, bytes) in codes.iter().enumerate() {
        let code = u16::from_le_bytes(*bytes);
        if met[usize::from(code)] {
            continue;
        }
        if known.add(alloc, text_of(modes, code))?.is_none() {
            return Ok(Some(place as u32 + 1));
        }
        met[usize::from(code)] = true;
    }
    Ok(None)
}

// The text of a code.
fn text_of(modes: &Dictionary, code: u16) -> &[u8]
    requires { code < length modes.now.texts }
    ensures { result.now ≡ text_of_code modes.now.texts code }
{
    match modes.text(u32::from(code)) {
        Some(text) => text,
        None => &[],
    }
}
