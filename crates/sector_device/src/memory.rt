// A disk in memory. It keeps what each write and sync took away, so that each earlier moment is known.
ghost use Rattle.std.specs.Prelude.{◌≡◌, ◌+◌, ◌-◌, ◌^◌, ◌<◌, ℕ, [], ◌∷◌, length, drop, min, replicate, reverse, IsOk};
ghost use Rattle.std.specs.Prelude.{IfOk, IsOkUnless};
ghost use Rattle.std.specs.Prelude.{OnOk, OnErr};
ghost use Rattle.sector_device.specs.Device.{IsImage, IsSettled, CandidatesStay, WritesSector, Syncs, CountsFailure};
ghost use Rattle.sector_device.specs.Memory.{AreWhole};
ghost use Rattle.sector_device.specs.Picks.{named};

use crate::change::Change;
use crate::crash::take_picks;
use crate::{DeviceError, Sectors};
use cube_model::Fault;
use std::alloc::{AllocError, Global};

/// A disk in memory, which keeps its word always. It fails only when out of memory.
pub struct MemDisk {
    sectors: Vec<[u8; 512]>,
    log: Vec<Change>,
    // A number for each sector, so that `crash` takes no memory.
    room: Vec<usize>,
    count: u32,
    reads: u64,
    failures: u64,
    ghost counted: { length sectors.items ≡ count },
    ghost roomy: { length room.items ≡ count },
    ghost whole: { AreWhole sectors.items (reverse log.items) },
}

// Written out, so that a proof has one call to follow where one is let go.
impl Drop for MemDisk {
    fn drop(self) {
        let MemDisk {
            sectors: _,
            log: _,
            room: _,
            count: _,
            reads: _,
            failures: _,
        } = self;
    }
}

impl MemDisk {
    ghost use Rattle.sector_device.specs.MemDisk.{state_of, oldest_first, reads_of, failures_of};

    /// A disk of so many sectors, all zero. It takes 520 bytes for each.
    pub fn new(alloc: Global, count: u32) -> Result<MemDisk, Fault>
        ensures size { IfOk result (λ m. (state_of m).size ≡ count) }
        ensures zeros { IfOk result (λ m. (i : ℕ) → i < count → (state_of m).reads i ≡ replicate 512 0) }
        ensures settled { IfOk result (λ m. IsSettled (state_of m)) }
        ensures fresh { IfOk result (λ m. (reads_of m ≡ 0) × (failures_of m ≡ 0)) }
        ensures memory { IsOkUnless result Fault.Memory }
    {
        let sectors = zeros(alloc, count)?;
        let room = Vec::from_elem(alloc, 0, count as usize)?;
        Ok(MemDisk {
            sectors,
            log: Vec::new(alloc),
            room,
            count,
            reads: 0,
            failures: 0,
        })
    }

    /// What is in the disk after a crash: the j-th sector with several candidates takes the one of this
    /// pick, modulo their number, the oldest first; a missing pick is 0. It takes no memory.
    pub fn crash(self, picks: &[u32]) -> MemDisk
        ensures size { (state_of result).size ≡ (state_of self).size }
        ensures image { IsImage (state_of self) (state_of result).reads }
        ensures named { (i : ℕ) → i < (state_of self).size
            → (state_of result).reads i ≡ named (oldest_first self) picks.now i }
        ensures settled { IsSettled (state_of result) }
        ensures counts { (reads_of result ≡ reads_of self) × (failures_of result ≡ failures_of self) }
    {
        let MemDisk {
            mut sectors,
            mut log,
            mut room,
            count,
            reads,
            failures,
        } = self;
        take_picks(&mut sectors, &log, &mut room, picks);
        log.clear();
        MemDisk {
            sectors,
            log,
            room,
            count,
            reads,
            failures,
        }
    }

    /// How often a sector was read. It stays at the greatest `u64`.
    pub fn reads(&self) -> u64
        ensures { result ≡ reads_of self.now }
    {
        self.reads
    }
}

// So many sectors of zeros.
fn zeros(alloc: Global, count: u32) -> Result<Vec<[u8; 512]>, AllocError>
    ensures { IfOk result (λ v. v.items ≡ replicate count (replicate 512 0)) }
{
    let mut sectors = Vec::with_capacity(alloc, count as usize)?;
    for _ in 0..count {
        sectors.push([0; 512])?;
    }
    Ok(sectors)
}

// Notes a change, or counts running out of memory as a failure and notes nothing.
fn noted(log: &mut Vec<Change>, change: Change, failures: &mut u64) -> Result<(), DeviceError>
    ensures ok { OnOk result (reverse log.new.items ≡ change ∷ reverse log.old.items) }
    ensures err { OnErr result (log.new.items ≡ log.old.items) }
    ensures failures { CountsFailure result failures.old failures.new }
{
    match log.push(change) {
        Ok(()) => Ok(()),
        Err(_) => {
            *failures = failures.saturating_add(1);
            Err(DeviceError)
        }
    }
}

impl Sectors for MemDisk {
    ghost use Rattle.sector_device.specs.MemDisk.{state_of, oldest_first, reads_of, failures_of, AddsCandidate};
    ghost use Rattle.sector_device.specs.MemDisk.{IsUnchanged};
    ghost use Rattle.std.proofs.Common.{arith, subst};
    ghost use Rattle.std.proofs.lemmas.List.Elements.{Contains-get_or};
    ghost use Rattle.sector_device.specs.Memory.{before_last, candidates, MayHold};

    ghost state = { state_of };

    ghost keeps_word = { λ m. Unit {0} };

    ghost always_keeps = { Unit {0} };

    ghost failed = { λ m. m.failures };

    ghost read_may_stay = { λ m i word. Contains-get_or (candidates m.sectors.items (reverse m.log.items) i) 0 []
        (omega arith) };

    ghost whole = { λ m i b word. m.whole i b };

    ghost counts_now = { λ m t image word le now. record { ago = 0; within = omega arith; may = now } };

    ghost only_now = { λ m image word left i. let none : left.ago ≡ 0 = omega (arith, left.within) in
        subst (λ n. MayHold (before_last n m.sectors.items (reverse m.log.items)) (drop n (reverse m.log.items)) i
        (image i)) none (left.may i) };

    fn count(&self) -> u32 {
        self.count
    }

    fn failures(&self) -> u64 {
        self.failures
    }

    fn read(&mut self, i: u32, to: &mut [u8; 512]) -> Result<(), DeviceError>
        requires { i < (state_of self.old).size }
        ensures ok { IsOk result }
        ensures size { (state_of self.new).size ≡ (state_of self.old).size }
        ensures failures { CountsFailure result (failures_of self.old) (failures_of self.new) }
        ensures bytes { to.new ≡ (state_of self.old).reads i }
        ensures stays { CandidatesStay (state_of self.old) (state_of self.new) }
        ensures reads { reads_of self.new ≡ min (reads_of self.old + 1) (2 ^ 64 - 1) }
    {
        *to = self.sectors[i as usize];
        self.reads = self.reads.saturating_add(1);
        Ok(())
    }

    fn write(&mut self, i: u32, from: &[u8; 512]) -> Result<(), DeviceError>
        requires { i < (state_of self.old).size }
        ensures size { (state_of self.new).size ≡ (state_of self.old).size }
        ensures failures { CountsFailure result (failures_of self.old) (failures_of self.new) }
        ensures written { OnOk result ((state_of self.new).reads i ≡ from.now) }
        ensures writes { WritesSector i from.now (state_of self.old) (state_of self.new) }
        ensures adds { OnOk result (AddsCandidate i from.now self.old self.new) }
        ensures reads { reads_of self.new ≡ reads_of self.old }
        ensures unchanged { OnErr result (IsUnchanged self.old self.new) }
    {
        let old = self.sectors[i as usize];
        noted(&mut self.log, Change::Replaced(i, old), &mut self.failures)?;
        self.sectors[i as usize] = *from;
        Ok(())
    }

    fn sync(&mut self) -> Result<(), DeviceError>
        ensures size { (state_of self.new).size ≡ (state_of self.old).size }
        ensures failures { CountsFailure result (failures_of self.old) (failures_of self.new) }
        ensures settled { OnOk result (IsSettled (state_of self.new)) }
        ensures syncs { Syncs (state_of self.old) (state_of self.new) }
        ensures candidates { OnOk result ((i : ℕ) → oldest_first self.new i ≡ (state_of self.old).reads i ∷ []) }
        ensures reads { reads_of self.new ≡ reads_of self.old }
        ensures unchanged { OnErr result (IsUnchanged self.old self.new) }
    {
        noted(&mut self.log, Change::Synced, &mut self.failures)?;
        Ok(())
    }
}
