// A device with a cache of some of its sectors.
ghost use Rattle.std.specs.Prelude.{◌≡◌, ◌+◌, ◌-◌, ◌/◌, ◌%◌, ◌^◌, ◌<◌, ◌≤◌, ℕ, List, length, min, Some, None, IsSome};
ghost use Rattle.std.specs.Prelude.{OnOk, OnErr, IfOk, IfErr};
ghost use Rattle.sector_device.specs.Device.{CountsFailure, HasRun, IsInRun, CandidatesStay, WritesSector};
ghost use Rattle.sector_device.specs.Device.{WritesWithin};
ghost use Rattle.sector_cache.specs.Kept.{IsCoherent};

use crate::kept::{Kept, copy_kept, forget, forget_run, keep};
use cube_model::Fault;
use lru::LruCache;
use sector_device::{DeviceError, Sectors};
use std::alloc::Global;
use std::num::NonZeroUsize;

/// A device with a cache of the sectors used last. It shows what its inner device shows, at each moment.
///
/// A sector that is read or written alone is kept, and a write goes through to the device. Where there is no memory
/// for a sector, it is not kept. Neighbouring sectors that are read or written at once pass by the cache.
#[derive(Drop)]
pub struct Cached<D: Sectors> {
    inner: D,
    kept: Kept,
    ghost agrees: { D.keeps_word inner → IsCoherent (D.state inner).reads kept.entries },
}

impl<D: Sectors> Cached<D> {
    ghost use Rattle.sector_cache.specs.Cached.{inner_of, kept_in, capacity_of};

    /// A cache with room for so many sectors, with none yet, or the device back where memory is refused
    /// (`Memory`). At least one sector.
    pub fn new(alloc: Global, inner: D, sectors: u32) -> Result<Cached<D>, (Fault, D)>
        requires { 0 < sectors }
        ensures device { IfOk result (λ c. inner_of c ≡ inner) }
        ensures empty { IfOk result (λ c. (i : ℕ) → kept_in c i ≡ None) }
        ensures room { IfOk result (λ c. capacity_of c ≡ sectors) }
        ensures err { IfErr result (λ e. (e.0 ≡ Fault.Memory) × (e.1 ≡ inner)) }
    {
        let Some(room) = NonZeroUsize::new(sectors as usize) else {
            unreachable!()
        };
        match LruCache::sparse(alloc, room) {
            Ok(kept) => Ok(Cached { inner, kept }),
            Err(_) => Err((Fault::Memory, inner)),
        }
    }

    /// The inner device.
    pub fn device(&self) -> &D
        ensures { result.now ≡ inner_of self.now }
    {
        &self.inner
    }

    /// Gives the inner device back.
    pub fn close(self) -> D
        ensures { result ≡ inner_of self }
    {
        let Cached { inner, .. } = self;
        inner
    }
}

impl<D: Sectors> Sectors for Cached<D> {
    ghost use Rattle.sector_cache.specs.Cached.{inner_of, state_of, KeepsWord, failures_of, kept_in, IsServed};

    ghost state = { λ c. D.Sectors.state c.inner };

    ghost keeps_word = { λ c. D.Sectors.keeps_word c.inner };

    ghost always_keeps = { D.Sectors.always_keeps };

    ghost failed = { λ c. D.Sectors.failed c.inner };

    ghost read_may_stay = { λ c. D.Sectors.read_may_stay c.inner };

    ghost whole = { λ c. D.Sectors.whole c.inner };

    ghost counts_now = { λ c. D.Sectors.counts_now c.inner };

    ghost only_now = { λ c. D.Sectors.only_now c.inner };

    fn count(&self) -> u32 {
        self.inner.count()
    }

    fn failures(&self) -> u64 {
        self.inner.failures()
    }

    fn read(&mut self, i: u32, to: &mut [u8; 512]) -> Result<(), DeviceError>
        requires { i < (state_of self.old).size }
        ensures size { (state_of self.new).size ≡ (state_of self.old).size }
        ensures failures { CountsFailure result (failures_of self.old) (failures_of self.new) }
        ensures word { KeepsWord self.new → KeepsWord self.old }
        ensures goes_on { D.Sectors.always_keeps → KeepsWord self.old → KeepsWord self.new }
        ensures bytes { OnOk result (KeepsWord self.new → to.new ≡ (state_of self.old).reads i) }
        ensures stays { KeepsWord self.new → CandidatesStay (state_of self.old) (state_of self.new) }

        ensures served { (bytes : List ℕ) → kept_in self.old i ≡ Some bytes
            → IsServed bytes result to.new self.old self.new }
    {
        if copy_kept(&mut self.kept, i, to) {
            return Ok(());
        }
        self.inner.read(i, to)?;
        keep(&mut self.kept, i, to);
        Ok(())
    }

    fn write(&mut self, i: u32, from: &[u8; 512]) -> Result<(), DeviceError>
        requires { i < (state_of self.old).size }
        ensures size { (state_of self.new).size ≡ (state_of self.old).size }
        ensures failures { CountsFailure result (failures_of self.old) (failures_of self.new) }
        ensures word { KeepsWord self.new → KeepsWord self.old }
        ensures goes_on { D.Sectors.always_keeps → KeepsWord self.old → KeepsWord self.new }
        ensures written { OnOk result (KeepsWord self.new → (state_of self.new).reads i ≡ from.now) }
        ensures writes { KeepsWord self.new → WritesSector i from.now (state_of self.old) (state_of self.new) }

        ensures updated { OnOk result (IsSome (kept_in self.old i) → kept_in self.new i ≡ Some from.now) }
        ensures dropped { OnErr result (kept_in self.new i ≡ None) }
    {
        if self.inner.write(i, from).is_err() {
            forget(&mut self.kept, i);
            return Err(DeviceError);
        }
        keep(&mut self.kept, i, from);
        Ok(())
    }

    fn read_run(&mut self, first: u32, to: &mut [u8]) -> Result<(), DeviceError>
        requires whole { length to.old % 512 ≡ 0 }
        requires in_range { first + length to.old / 512 ≤ (state_of self.old).size }
        requires few { first + length to.old / 512 ≤ 2 ^ 32 }
        ensures size { (state_of self.new).size ≡ (state_of self.old).size }
        ensures failures { CountsFailure result (failures_of self.old) (failures_of self.new) }
        ensures word { KeepsWord self.new → KeepsWord self.old }
        ensures goes_on { D.Sectors.always_keeps → KeepsWord self.old → KeepsWord self.new }
        ensures bytes { OnOk result (KeepsWord self.new → HasRun (state_of self.old).reads first to.new) }
        ensures stays { KeepsWord self.new → CandidatesStay (state_of self.old) (state_of self.new) }

        ensures unkept { (i : ℕ) → kept_in self.new i ≡ kept_in self.old i }
    {
        self.inner.read_run(first, to)
    }

    fn write_run(&mut self, first: u32, from: &[u8]) -> Result<(), DeviceError>
        requires whole { length from.now % 512 ≡ 0 }
        requires in_range { first + length from.now / 512 ≤ (state_of self.old).size }
        requires few { first + length from.now / 512 ≤ 2 ^ 32 }
        ensures size { (state_of self.new).size ≡ (state_of self.old).size }
        ensures failures { CountsFailure result (failures_of self.old) (failures_of self.new) }
        ensures word { KeepsWord self.new → KeepsWord self.old }
        ensures goes_on { D.Sectors.always_keeps → KeepsWord self.old → KeepsWord self.new }
        ensures written { OnOk result (KeepsWord self.new → HasRun (state_of self.new).reads first from.now) }
        ensures within { KeepsWord self.new
            → WritesWithin (IsInRun first (length from.now / 512)) (state_of self.old) (state_of self.new) }

        ensures dropped { (i : ℕ) → IsInRun first (length from.now / 512) i → kept_in self.new i ≡ None }
    {
        let outcome = self.inner.write_run(first, from);
        forget_run(&mut self.kept, first, from.len() / 512);
        outcome
    }

    fn sync(&mut self) -> Result<(), DeviceError> {
        self.inner.sync()
    }
}
