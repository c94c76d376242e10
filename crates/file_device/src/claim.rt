// An open file becomes a device.
ghost use Rattle.std.specs.Prelude.{◌≡◌, ◌≢◌, ◌⊎◌, ◌∷◌, true, OnOk, IfErr};
ghost use Rattle.std.specs.Bool.{OnTrue, OnFalse};
ghost use Rattle.cube_model.specs.declared.fault.Fault.{Fault};
ghost use Rattle.file_device.specs.OpenError.{fault_of};
ghost use Rattle.file_device.specs.Claim.{blank, ChangeNothing, IsClaimedBy, MeasuredOther, ReadOther};
ghost use Rattle.file_device.specs.Host.{events_of};
ghost use Rattle.sector_device.specs.declared.event.Event.{Event};

use crate::length::{SECTOR, is_to_be_made};
use crate::{Host, OpenError, RawFile};
use std::fs::OpenFile;
use std::os::unix::fs::FileExt;

/// What a file of the right length may hold that is to become a device.
#[derive(Clone, Copy, PartialEq, Eq)]
pub enum Existing {
    /// Nothing: its first two sectors are all zero.
    Blank,
    /// Anything.
    Any,
}

impl<F: FileExt + OpenFile + Drop> Host<F> {
    /// Gives an empty file so many sectors of zeros, and makes its length durable, or takes a file of just that length.
    ///
    /// `Length` for fewer than 64 sectors and for another length, `NotBlank` where it holds what it may not hold;
    /// before either nothing of the file is changed. `System` where a call fails.
    pub fn claim(&mut self, sectors: u32, existing: Existing) -> Result<(), OpenError>
        ensures ok { OnOk result (IsClaimedBy existing sectors (events_of self.old) (events_of self.new)) }
        ensures unchanged { IfErr result (λ e. (e ≡ OpenError.Length) ⊎ (e ≡ OpenError.NotBlank) →
            ChangeNothing (events_of self.old) → ChangeNothing (events_of self.new)) }
        ensures length { IfErr result (λ e. e ≡ OpenError.Length → MeasuredOther sectors (events_of self.new)) }
        ensures not_blank { IfErr result (λ e. e ≡ OpenError.NotBlank → (existing ≡ Existing.Blank)
            × ReadOther (events_of self.new)) }
        ensures err { IfErr result
            (λ e. (fault_of e ≡ Fault.Device) ⊎ ((e ≡ OpenError.Length) ⊎ (e ≡ OpenError.NotBlank))) }
    {
        let length = match self.length() {
            Ok(length) => length,
            Err(error) => return Err(OpenError::System(error)),
        };
        let Ok(is_empty) = is_to_be_made(length, sectors) else {
            return Err(OpenError::Length);
        };
        if is_empty {
            return self.lengthen_durably(u64::from(sectors) * SECTOR);
        }
        match existing {
            Existing::Blank => self.find_blank(),
            Existing::Any => Ok(()),
        }
    }

    // Gives the file its length, and makes it durable.
    fn lengthen_durably(&mut self, length: u64) -> Result<(), OpenError>
        ensures ok { OnOk result
            (events_of self.new ≡ Event.Synced true ∷ (Event.Lengthened length true ∷ events_of self.old)) }
        ensures err { IfErr result (λ e. fault_of e ≡ Fault.Device) }
    {
        if let Err(error) = self.lengthen(length) {
            return Err(OpenError::System(error));
        }
        match self.sync() {
            Ok(()) => Ok(()),
            Err(error) => Err(OpenError::System(error)),
        }
    }

    // Reads the first two sectors, and finds both all zero.
    fn find_blank(&mut self) -> Result<(), OpenError>
        ensures ok { OnOk result (events_of self.new ≡ Event.Read 1 blank ∷ (Event.Read 0 blank ∷ events_of self.old)) }
        ensures unchanged { ChangeNothing (events_of self.old) → ChangeNothing (events_of self.new) }
        ensures not_blank { IfErr result (λ e. e ≡ OpenError.NotBlank → ReadOther (events_of self.new)) }
        ensures err { IfErr result (λ e. (fault_of e ≡ Fault.Device) ⊎ (e ≡ OpenError.NotBlank)) }
    {
        self.find_zeros(0)?;
        self.find_zeros(1)
    }

    // Reads a sector, and finds it all zero.
    fn find_zeros(&mut self, i: u32) -> Result<(), OpenError>
        ensures ok { OnOk result (events_of self.new ≡ Event.Read i blank ∷ events_of self.old) }
        ensures unchanged { ChangeNothing (events_of self.old) → ChangeNothing (events_of self.new) }
        ensures not_blank { IfErr result (λ e. e ≡ OpenError.NotBlank → (i ≡ 0) ⊎ (i ≡ 1)
            → ReadOther (events_of self.new)) }
        ensures err { IfErr result (λ e. (fault_of e ≡ Fault.Device) ⊎ (e ≡ OpenError.NotBlank)) }
    {
        let mut sector = [0; 512];
        if let Err(error) = self.read_sector(i, &mut sector) {
            return Err(OpenError::System(error));
        }
        if are_same(&sector, &[0; 512]) {
            Ok(())
        } else {
            Err(OpenError::NotBlank)
        }
    }
}

// Whether two sectors have the same bytes.
fn are_same(one: &[u8; 512], other: &[u8; 512]) -> bool
    ensures same { OnTrue result (one.now ≡ other.now) }
    ensures differ { OnFalse result (one.now ≢ other.now) }
{
    *one == *other
}
