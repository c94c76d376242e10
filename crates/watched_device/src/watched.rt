// A device, and what sees its calls.
ghost use Rattle.std.specs.Prelude.{◌≡◌, ◌+◌, ◌/◌, ◌%◌, ◌^◌, ◌<◌, ◌≤◌, length, OnOk};
ghost use Rattle.sector_device.specs.Device.{CountsFailure, HasRun, IsInRun, CandidatesStay, WritesSector};
ghost use Rattle.sector_device.specs.Device.{WritesWithin};

use crate::Observer;
use sector_device::{DeviceError, Sectors};

/// A device of which an observer sees how many sectors each call reads or writes, once it has succeeded.
///
/// It shows what its inner device shows, at each moment, and fails where that does. Of a call that fails the observer
/// sees nothing.
#[derive(Drop)]
pub struct Watched<D: Sectors, O: Observer> {
    inner: D,
    observer: O,
}

impl<D: Sectors, O: Observer> Watched<D, O> {
    ghost use Rattle.watched_device.specs.Watched.{inner_of, observer_of};

    /// A device, and what sees its calls from now on.
    pub fn new(inner: D, observer: O) -> Watched<D, O>
        ensures device { inner_of result ≡ inner }
        ensures observer { observer_of result ≡ observer }
    {
        Watched { inner, observer }
    }

    /// The inner device.
    pub fn device(&self) -> &D
        ensures { result.now ≡ inner_of self.now }
    {
        &self.inner
    }
}

impl<D: Sectors, O: Observer> Sectors for Watched<D, O> {
    ghost use Rattle.watched_device.specs.Watched.{IsNoted, KeepsWord, failures_of, observer_of, state_of};

    ghost state = { λ w. D.Sectors.state w.inner };

    ghost keeps_word = { λ w. D.Sectors.keeps_word w.inner };

    ghost always_keeps = { D.Sectors.always_keeps };

    ghost failed = { λ w. D.Sectors.failed w.inner };

    ghost read_may_stay = { λ w. D.Sectors.read_may_stay w.inner };

    ghost whole = { λ w. D.Sectors.whole w.inner };

    ghost counts_now = { λ w. D.Sectors.counts_now w.inner };

    ghost only_now = { λ w. D.Sectors.only_now w.inner };

    fn count(&self) -> u32 {
        self.inner.count()
    }

    fn failures(&self) -> u64 {
        self.inner.failures()
    }

    fn read(&mut self, i: u32, to: &mut [u8; 512]) -> Result<(), DeviceError>
        requires { i < (state_of D.Sectors self.old).size }
        ensures size { (state_of D.Sectors self.new).size ≡ (state_of D.Sectors self.old).size }
        ensures failures { CountsFailure result (failures_of D.Sectors self.old) (failures_of D.Sectors self.new) }
        ensures word { KeepsWord D.Sectors self.new → KeepsWord D.Sectors self.old }
        ensures goes_on { D.Sectors.always_keeps → KeepsWord D.Sectors self.old → KeepsWord D.Sectors self.new }
        ensures bytes { OnOk result (KeepsWord D.Sectors self.new → to.new ≡ (state_of D.Sectors self.old).reads i) }
        ensures stays { KeepsWord D.Sectors self.new
            → CandidatesStay (state_of D.Sectors self.old) (state_of D.Sectors self.new) }

        ensures noted { IsNoted O.Observer.reads 1 result (observer_of self.old) (observer_of self.new) }
    {
        self.inner.read(i, to)?;
        self.observer.note_read(1);
        Ok(())
    }

    fn write(&mut self, i: u32, from: &[u8; 512]) -> Result<(), DeviceError>
        requires { i < (state_of D.Sectors self.old).size }
        ensures size { (state_of D.Sectors self.new).size ≡ (state_of D.Sectors self.old).size }
        ensures failures { CountsFailure result (failures_of D.Sectors self.old) (failures_of D.Sectors self.new) }
        ensures word { KeepsWord D.Sectors self.new → KeepsWord D.Sectors self.old }
        ensures goes_on { D.Sectors.always_keeps → KeepsWord D.Sectors self.old → KeepsWord D.Sectors self.new }
        ensures written { OnOk result
            (KeepsWord D.Sectors self.new → (state_of D.Sectors self.new).reads i ≡ from.now) }
        ensures writes { KeepsWord D.Sectors self.new
            → WritesSector i from.now (state_of D.Sectors self.old) (state_of D.Sectors self.new) }

        ensures noted { IsNoted O.Observer.writes 1 result (observer_of self.old) (observer_of self.new) }
    {
        self.inner.write(i, from)?;
        self.observer.note_written(1);
        Ok(())
    }

    fn read_run(&mut self, first: u32, to: &mut [u8]) -> Result<(), DeviceError>
        requires whole { length to.old % 512 ≡ 0 }
        requires in_range { first + length to.old / 512 ≤ (state_of D.Sectors self.old).size }
        requires few { first + length to.old / 512 ≤ 2 ^ 32 }
        ensures size { (state_of D.Sectors self.new).size ≡ (state_of D.Sectors self.old).size }
        ensures failures { CountsFailure result (failures_of D.Sectors self.old) (failures_of D.Sectors self.new) }
        ensures word { KeepsWord D.Sectors self.new → KeepsWord D.Sectors self.old }
        ensures goes_on { D.Sectors.always_keeps → KeepsWord D.Sectors self.old → KeepsWord D.Sectors self.new }
        ensures bytes { OnOk result
            (KeepsWord D.Sectors self.new → HasRun (state_of D.Sectors self.old).reads first to.new) }
        ensures stays { KeepsWord D.Sectors self.new
            → CandidatesStay (state_of D.Sectors self.old) (state_of D.Sectors self.new) }

        ensures noted { IsNoted O.Observer.reads (length to.old / 512) result (observer_of self.old)
            (observer_of self.new) }
    {
        let sectors = to.len() / 512;
        self.inner.read_run(first, to)?;
        self.observer.note_read(sectors);
        Ok(())
    }

    fn write_run(&mut self, first: u32, from: &[u8]) -> Result<(), DeviceError>
        requires whole { length from.now % 512 ≡ 0 }
        requires in_range { first + length from.now / 512 ≤ (state_of D.Sectors self.old).size }
        requires few { first + length from.now / 512 ≤ 2 ^ 32 }
        ensures size { (state_of D.Sectors self.new).size ≡ (state_of D.Sectors self.old).size }
        ensures failures { CountsFailure result (failures_of D.Sectors self.old) (failures_of D.Sectors self.new) }
        ensures word { KeepsWord D.Sectors self.new → KeepsWord D.Sectors self.old }
        ensures goes_on { D.Sectors.always_keeps → KeepsWord D.Sectors self.old → KeepsWord D.Sectors self.new }
        ensures written { OnOk result
            (KeepsWord D.Sectors self.new → HasRun (state_of D.Sectors self.new).reads first from.now) }
        ensures within { KeepsWord D.Sectors self.new
            → WritesWithin (IsInRun first (length from.now / 512)) (state_of D.Sectors self.old)
            (state_of D.Sectors self.new) }

        ensures noted { IsNoted O.Observer.writes (length from.now / 512) result (observer_of self.old)
            (observer_of self.new) }
    {
        self.inner.write_run(first, from)?;
        self.observer.note_written(from.len() / 512);
        Ok(())
    }

    fn sync(&mut self) -> Result<(), DeviceError> {
        self.inner.sync()
    }
}
