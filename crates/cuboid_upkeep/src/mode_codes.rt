//! The codes of the ship modes of fact rows.
ghost use Rattle.std.specs.Prelude.{◌≡◌, ◌<◌, ℕ, List, true, IfNone, IfOk, IfSome, length};
ghost use Rattle.std.specs.Option.{option_map};
ghost use Rattle.group_numbers.specs.Rows.{row_at};
ghost use Rattle.cuboid_upkeep.specs.Codes.{IsMode, modes_of};
ghost use Rattle.cuboid_upkeep.specs.Keys.{IsOwnMode};
ghost use Rattle.cuboid_upkeep.specs.Modes.{AreModeCodes, AreOwnCodes, code_among};

use crate::member_codes::code_at;
use cuboid_cells::limits::ALL_CODE;
use dictionary::Dictionary;
use group_numbers::ModeRows;
use lattice::View;
use std::alloc::{AllocError, Global};

// For each code that rows have for a ship mode the code of its text among the modes, if a view groups by ship mode;
// nothing for every other view.
pub(crate) fn own_codes<F: ModeRows>(
    alloc: Global,
    view: View,
    rows: &F,
    modes: Option<&Dictionary>,
) -> Result<Vec<u16>, AllocError>
    ensures { IfOk result (λ codes. AreOwnCodes (modes_of (option_map (λ modes. modes.now) modes.entry)) view
        (F.modes rows.now) codes.items) }
{
    let mut codes = Vec::new(alloc);
    if view.ship_mode {
        codes.resize(rows.mode_count(), ALL_CODE)?;
        put_codes(codes.as_mut_slice(), rows, modes);
    }
    Ok(codes)
}

// Puts the code among the modes of each text at the text's place.
fn put_codes<F: ModeRows>(codes: &mut [u16], rows: &F, modes: Option<&Dictionary>)
    requires count { length codes.old ≡ length (F.modes rows.now) }
    ensures { AreModeCodes (modes_of (option_map (λ modes. modes.now) modes.entry)) (F.modes rows.now) codes.new }
{
    for place in 0..codes.len() {
        codes[place] = code_in(modes, rows.mode_text(place));
    }
}

// The code of a text among the modes, and that of every mode together where the text is none of them.
fn code_in(modes: Option<&Dictionary>, text: &[u8]) -> u16
    ensures { result ≡ code_among (modes_of (option_map (λ modes. modes.now) modes.entry)) text.now }
{
    let Some(modes) = modes else {
        return ALL_CODE;
    };
    match modes.code(text) {
        Some(code) if code < u32::from(ALL_CODE) => code as u16,
        _ => ALL_CODE,
    }
}

// The code among the modes of the ship mode of the row at a place, where the codes of the rows' own are given; that of
// every mode together where the view does not group by ship mode. Nothing where the ship mode is none of the modes.
#[inline(always)]
pub(crate) fn own_mode<F: ModeRows>(
    view: View,
    rows: &F,
    codes: &[u16],
    place: usize,
) -> Option<u16>
    requires place { place < length (F.rows rows.now) }
    ensures some { IfSome result (λ code. (modes : List (List ℕ))
        → AreOwnCodes modes view (F.modes rows.now) codes.now
        → IsOwnMode modes view (row_at (F.rows rows.now) place) code) }
    ensures none { IfNone result ((modes : List (List ℕ)) → AreOwnCodes modes view (F.modes rows.now) codes.now
        → (view.ship_mode ≡ true → IsMode modes (row_at (F.rows rows.now) place).shipmode) → ⊥) }
{
    if !view.ship_mode {
        return Some(ALL_CODE);
    }
    let code = code_at(codes, rows.mode_code(place));
    if code == ALL_CODE {
        return None;
    }
    Some(code)
}
