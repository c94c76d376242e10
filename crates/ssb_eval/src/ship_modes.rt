//! The ship modes of the fact rows, and the rows of a batch for which it is refused.
ghost use Rattle.std.specs.Prelude.{◌≡◌, ◌+◌, ◌≤◌, ◌++◌, ◌∷◌, [], ℕ, List, length, OnOk, IsOkUnless};
ghost use Rattle.cube_model.specs.Limits.{most_batch_rows};
ghost use Rattle.cube_model.specs.ShipModes.{modes_in, reserved_place};
ghost use Rattle.batch_admission.specs.ShipModes.{row_number_at};
ghost use Rattle.ssb_eval.specs.ShipModes.{HasMet, cause_met};

use cube_model::limits::MOST_MEMBERS;
use cube_model::{Fault, LineOrder, MemberPlace};
use dictionary::Dictionary;
use std::alloc::Global;
use std::marker::Model;

// The text that means all ship modes.
const ALL: &[u8] = b"ALL";

/// The ship modes of all batches that were looked at, and of the one under way the first row whose ship mode is `ALL`
/// and the first row with which there are more than 65,535 different ones. Rows count from 1. Memory grows with the
/// different ship modes, and not with the rows.
#[derive(Drop)]
pub(crate) struct ShipModes {
    known: Dictionary,
    reserved: Option<u32>,
    crowded: Option<u32>,
}

impl Model for ShipModes {
    ghost use Rattle.ssb_eval.specs.ShipModes.{Met};

    ghost Value = { Met };

    ghost view = { λ modes. record {
      known = modes.known;
      reserved = modes.reserved;
      crowded = modes.crowded;
    } };
}

impl ShipModes {
    /// None yet.
    pub(crate) fn new(alloc: Global) -> ShipModes
        ensures { HasMet result [] [] }
    {
        ShipModes {
            known: Dictionary::new(alloc, MOST_MEMBERS as u32),
            reserved: None,
            crowded: None,
        }
    }

    /// Looks at the next rows of a batch, after so many of its rows.
    ///
    /// It can only fail when out of memory. Some of the rows may then have been looked at.
    pub(crate) fn add_rows(
        &mut self,
        alloc: Global,
        before: u32,
        rows: &[LineOrder],
    ) -> Result<(), Fault>
        requires few { before + length rows.now ≤ most_batch_rows }
        ensures ok { OnOk result ((earlier modes : List (List ℕ)) → before ≡ length modes
            → HasMet self.old earlier modes → HasMet self.new earlier (modes ++ modes_in rows.now)) }
        ensures memory { IsOkUnless result Fault.Memory }
    {
        for (place, row) in rows.iter().enumerate() {
            self.add(alloc, before + place as u32 + 1, row.shipmode.as_slice())?;
        }
        Ok(())
    }

    // Looks at the ship mode of the next row of a batch. The row is given by its number.
    fn add(&mut self, alloc: Global, row: u32, mode: &[u8]) -> Result<(), Fault>
        ensures ok { OnOk result ((earlier modes : List (List ℕ)) → row ≡ length modes + 1
            → HasMet self.old earlier modes → HasMet self.new earlier (modes ++ mode.now ∷ [])) }
        ensures memory { IsOkUnless result Fault.Memory }
    {
        self.reserved = first_reserved(self.reserved, row, mode);
        if self.crowded.is_some() {
            return Ok(());
        }
        let code = self.known.add(alloc, mode)?;
        if code.is_none() {
            self.crowded = Some(row);
        }
        Ok(())
    }

    /// The first cause to refuse the batch under way for its ship modes.
    pub(crate) fn cause(&self) -> Option<Fault>
        ensures { result ≡ cause_met self.now }
    {
        if let Some(row) = self.reserved {
            return Some(Fault::ReservedMember {
                place: MemberPlace::InBatch { row },
            });
        }
        if let Some(row) = self.crowded {
            return Some(Fault::TooManyMembers {
                place: MemberPlace::InBatch { row },
            });
        }
        None
    }
}

// The first row whose ship mode is `ALL`, with that of the next row.
fn first_reserved(first: Option<u32>, row: u32, mode: &[u8]) -> Option<u32>
    ensures { (modes : List (List ℕ)) → row ≡ length modes + 1 → first ≡ row_number_at (reserved_place modes)
        → result ≡ row_number_at (reserved_place (modes ++ mode.now ∷ [])) }
{
    if first.is_some() {
        return first;
    }
    if mode == ALL {
        return Some(row);
    }
    None
}
