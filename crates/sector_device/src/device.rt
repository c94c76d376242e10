// What generic code knows of a device. What is said of its contents holds where it keeps its word.
ghost use Rattle.std.specs.Prelude.{◌≡◌, ◌+◌, ◌/◌, ◌%◌, ◌^◌, ◌≤◌, ◌<◌, List, ℕ, length, OnOk, OnErr};
ghost use Rattle.sector_device.specs.Device.{DeviceState, Image, IsImage, IsSettled, CandidatesStay, WritesSector};
ghost use Rattle.sector_device.specs.Device.{WritesWithin};
ghost use Rattle.sector_device.specs.Device.{HasRun, IsInRun, Syncs, CountsFailure};

use crate::run::{put_sector, sector_at};

/// The device failed in this call.
#[derive(Clone, Copy, Debug, PartialEq, Eq)]
pub struct DeviceError;

/// A device of sectors of 512 bytes. A sector's number is below the count.
///
/// On every device the count stays, an error raises the failures by one, except at the greatest `u64`, and a
/// success keeps them. What is said of contents holds where the device keeps its word.
pub trait Sectors {
    /// Reads, candidates and moments.
    ghost state: { Self → DeviceState };

    /// It has obeyed the rules of a device so far, and does so in the call.
    ghost keeps_word: { Self → Type 0 };

    /// It is no real thing, so that it keeps its word in each call.
    ghost always_keeps: { Type 0 };

    /// How often it has failed.
    ghost failed: { Self → ℕ };

    /// How many sectors it has.
    fn count(&self) -> u32
        ensures { result ≡ (state self.now).size };

    /// How often it has failed. It stays at the greatest `u64`.
    fn failures(&self) -> u64
        ensures { result ≡ failed self.now };

    /// Reads a sector. After an error the buffer may hold anything.
    fn read(&mut self, i: u32, to: &mut [u8; 512]) -> Result<(), DeviceError>
        requires { i < (state self.old).size }
        ensures size { (state self.new).size ≡ (state self.old).size }
        ensures failures { CountsFailure result (failed self.old) (failed self.new) }
        ensures word { keeps_word self.new → keeps_word self.old }
        ensures goes_on { always_keeps → keeps_word self.old → keeps_word self.new }
        ensures bytes { OnOk result (keeps_word self.new → to.new ≡ (state self.old).reads i) }
        ensures stays { keeps_word self.new → CandidatesStay (state self.old) (state self.new) };

    /// Writes a sector. After an error the bytes may have been written or not.
    fn write(&mut self, i: u32, from: &[u8; 512]) -> Result<(), DeviceError>
        requires { i < (state self.old).size }
        ensures size { (state self.new).size ≡ (state self.old).size }
        ensures failures { CountsFailure result (failed self.old) (failed self.new) }
        ensures word { keeps_word self.new → keeps_word self.old }
        ensures goes_on { always_keeps → keeps_word self.old → keeps_word self.new }
        ensures written { OnOk result (keeps_word self.new → (state self.new).reads i ≡ from.now) }
        ensures writes { keeps_word self.new → WritesSector i from.now (state self.old) (state self.new) };

    /// Reads neighbouring sectors, from a first one on, to bytes end to end. After an error these may hold anything.
    fn read_run(&mut self, first: u32, to: &mut [u8]) -> Result<(), DeviceError>
        requires whole { length to.old % 512 ≡ 0 }
        requires in_range { first + length to.old / 512 ≤ (state self.old).size }
        requires few { first + length to.old / 512 ≤ 2 ^ 32 }
        ensures size { (state self.new).size ≡ (state self.old).size }
        ensures failures { CountsFailure result (failed self.old) (failed self.new) }
        ensures word { keeps_word self.new → keeps_word self.old }
        ensures goes_on { always_keeps → keeps_word self.old → keeps_word self.new }
        ensures bytes { OnOk result (keeps_word self.new → HasRun (state self.old).reads first to.new) }
        ensures stays { keeps_word self.new → CandidatesStay (state self.old) (state self.new) }
    {
        let mut sector = [0; 512];
        for k in 0..to.len() / 512 {
            self.read(first + k as u32, &mut sector)?;
            put_sector(to, k, &sector);
        }
        Ok(())
    }

    /// Writes neighbouring sectors, from a first one on, whose bytes are given end to end. After an error each may have
    /// been written or not.
    fn write_run(&mut self, first: u32, from: &[u8]) -> Result<(), DeviceError>
        requires whole { length from.now % 512 ≡ 0 }
        requires in_range { first + length from.now / 512 ≤ (state self.old).size }
        requires few { first + length from.now / 512 ≤ 2 ^ 32 }
        ensures size { (state self.new).size ≡ (state self.old).size }
        ensures failures { CountsFailure result (failed self.old) (failed self.new) }
        ensures word { keeps_word self.new → keeps_word self.old }
        ensures goes_on { always_keeps → keeps_word self.old → keeps_word self.new }
        ensures written { OnOk result (keeps_word self.new → HasRun (state self.new).reads first from.now) }
        ensures within { keeps_word self.new
            → WritesWithin (IsInRun first (length from.now / 512)) (state self.old) (state self.new) }
    {
        for k in 0..from.len() / 512 {
            self.write(first + k as u32, sector_at(from, k))?;
        }
        Ok(())
    }

    /// Makes what was written lasting. After an error nothing has changed.
    fn sync(&mut self) -> Result<(), DeviceError>
        ensures size { (state self.new).size ≡ (state self.old).size }
        ensures failures { CountsFailure result (failed self.old) (failed self.new) }
        ensures word { keeps_word self.new → keeps_word self.old }
        ensures goes_on { always_keeps → keeps_word self.old → keeps_word self.new }
        ensures settled { OnOk result (keeps_word self.new → IsSettled (state self.new)) }
        ensures syncs { keeps_word self.new → Syncs (state self.old) (state self.new) }
        ensures unchanged { OnErr result (keeps_word self.new → CandidatesStay (state self.old) (state self.new)) };

    /// What a read gives is a candidate.
    ghost read_may_stay: { (d : Self) (i : ℕ) → keeps_word d → (state d).may_hold i ((state d).reads i) };

    /// A sector has 512 bytes.
    ghost whole: { (d : Self) (i : ℕ) (b : List ℕ) → keeps_word d → i < (state d).size → (state d).may_hold i b
        → length b ≡ 512 };

    /// This moment is one of those since an earlier one.
    ghost counts_now: { (d : Self) (t : ℕ) (image : Image) → keeps_word d → t ≤ (state d).moment
        → IsImage (state d) image → (state d).left_since t image };

    /// Since this moment there is no other.
    ghost only_now: { (d : Self) (image : Image) → keeps_word d → (state d).left_since (state d).moment image
        → IsImage (state d) image };
}
