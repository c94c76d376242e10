// A device over the bytes of an image. Nothing changes it, so each of its moments is as the first.
ghost use Rattle.std.specs.Prelude.{◌≡◌, ◌*◌, ◌/◌, ◌%◌, ◌^◌, ◌<◌, ℕ, [], length, take, drop, IsOk, IsErr, IsSome};
ghost use Rattle.std.specs.Prelude.{IfSome, OnOk, OnErr};
ghost use Rattle.sector_device.specs.Device.{CountsFailure, IsSettled, CandidatesStay, Syncs, WritesSector};
ghost use Rattle.sector_device.specs.Memory.{AreWhole};

use sector_device::{DeviceError, Sectors};

/// A device over the bytes of an image, which it borrows. It keeps its word always.
///
/// It is read alone: each write fails, and changes nothing.
#[derive(Drop)]
pub struct ImageDisk<'a> {
    sectors: &'a [[u8; 512]],
    count: u32,
    failures: u64,
    ghost counted: { length sectors.now ≡ count },
    ghost whole: { AreWhole sectors.now [] },
}

impl<'a> ImageDisk<'a> {
    ghost use Rattle.journal_device.specs.ImageDisk.{state_of, failures_of, shown_sectors};
    ghost use Rattle.sector_device.specs.EventRuns.{sectors_in};

    /// A device over the bytes of a whole number of sectors, of fewer than 2^32 sectors. None over other bytes.
    pub fn over(image: &'a [u8]) -> Option<ImageDisk<'a>>
        ensures sectors { IfSome result (λ d. shown_sectors d ≡ sectors_in image.now) }
        ensures size { IfSome result (λ d. (state_of d).size * 512 ≡ length image.now) }
        ensures reads { IfSome result (λ d. (i : ℕ) → i < (state_of d).size
            → (state_of d).reads i ≡ take 512 (drop (i * 512) image.now)) }
        ensures settled { IfSome result (λ d. IsSettled (state_of d)) }
        ensures fresh { IfSome result (λ d. failures_of d ≡ 0) }
        ensures some { length image.now % 512 ≡ 0 → length image.now / 512 < 2 ^ 32 → IsSome result }
    {
        let (sectors, rest) = image.as_chunks::<512>();
        if !rest.is_empty() {
            return None;
        }
        let Ok(count) = u32::try_from(sectors.len()) else {
            return None;
        };
        Some(ImageDisk {
            sectors,
            count,
            failures: 0,
        })
    }
}

impl<'a> Sectors for ImageDisk<'a> {
    ghost use Rattle.journal_device.specs.ImageDisk.{state_of, failures_of, KeepsWord};
    ghost use Rattle.sector_device.proofs.MemoryLaws.{read_may_stay, counts_now, only_now};

    ghost state = { state_of };

    ghost keeps_word = { KeepsWord };

    ghost always_keeps = { Unit {0} };

    ghost failed = { λ d. d.failures };

    ghost read_may_stay = { λ d i word. read_may_stay d.sectors.now [] i };

    ghost whole = { λ d i b word. d.whole i b };

    ghost counts_now = { λ d t image word le now. counts_now d.sectors.now [] t image now };

    ghost only_now = { λ d image word left. only_now d.sectors.now [] image left };

    fn count(&self) -> u32 {
        self.count
    }

    fn failures(&self) -> u64 {
        self.failures
    }

    fn read(&mut self, i: u32, to: &mut [u8; 512]) -> Result<(), DeviceError>
        requires { i < (state_of self.old).size }
        ensures ok { IsOk result }
        ensures same { self.new ≡ self.old }
        ensures size { (state_of self.new).size ≡ (state_of self.old).size }
        ensures failures { CountsFailure result (failures_of self.old) (failures_of self.new) }
        ensures bytes { OnOk result (KeepsWord self.new → to.new ≡ (state_of self.old).reads i) }
        ensures stays { CandidatesStay (state_of self.old) (state_of self.new) }
    {
        *to = self.sectors[i as usize];
        Ok(())
    }

    fn write(&mut self, _i: u32, _from: &[u8; 512]) -> Result<(), DeviceError>
        requires { _i < (state_of self.old).size }
        ensures refused { IsErr result }
        ensures size { (state_of self.new).size ≡ (state_of self.old).size }
        ensures failures { CountsFailure result (failures_of self.old) (failures_of self.new) }
        ensures written { OnOk result (KeepsWord self.new → (state_of self.new).reads _i ≡ _from.now) }
        ensures writes { WritesSector _i _from.now (state_of self.old) (state_of self.new) }
        ensures stays { CandidatesStay (state_of self.old) (state_of self.new) }
    {
        self.failures = self.failures.saturating_add(1);
        Err(DeviceError)
    }

    fn sync(&mut self) -> Result<(), DeviceError>
        ensures ok { IsOk result }
        ensures same { self.new ≡ self.old }
        ensures size { (state_of self.new).size ≡ (state_of self.old).size }
        ensures failures { CountsFailure result (failures_of self.old) (failures_of self.new) }
        ensures settled { OnOk result (KeepsWord self.new → IsSettled (state_of self.new)) }
        ensures syncs { Syncs (state_of self.old) (state_of self.new) }
        ensures unchanged { OnErr result (KeepsWord self.new → CandidatesStay (state_of self.old) (state_of self.new)) }
    {
        Ok(())
    }
}
