// A device over an open file.
ghost use Rattle.std.specs.Prelude.{◌≡◌, ◌+◌, ◌/◌, ◌%◌, ◌<◌, ◌≤◌, ◌-◌, ◌^◌, length, true, false, min, is_ok, IsTrue};
ghost use Rattle.std.specs.Prelude.{IsErr, OnOk, OnErr};
ghost use Rattle.sector_device.specs.Device.{HasRun, IsInRun, IsSettled, CandidatesStay, WritesSector, WritesWithin};
ghost use Rattle.sector_device.specs.Device.{Syncs};
ghost use Rattle.sector_device.specs.Device.{CountsFailure};

use crate::{RawFile, Start};
use sector_device::{DeviceError, Sectors};
use std::io;
use std::marker::PhantomData;

/// A file of whole sectors. It keeps its word as long as each read in the record of its calls gave what was written
/// there last. After a failed write or sync it fails each call until it is opened anew.
///
/// Each read, write or sync makes one call of the file, also one of neighbouring sectors, and takes no memory.
///
/// A device that was opened to read fails each write, and each call after one.
#[derive(Drop)]
pub struct FileDisk<F: RawFile, S: Start> {
    file: F,
    start: PhantomData<S>,
    count: u32,
    failures: u64,
    is_broken: bool,
    is_read_only: bool,
}

impl<F: RawFile, S: Start> FileDisk<F, S> {
    ghost use Rattle.file_device.specs.FileDisk.{file_of, sector_count_of, failures_of, has_broken, is_read_only};

    /// A device over an open file of so many sectors.
    pub fn over(file: F, count: u32) -> FileDisk<F, S>
        ensures file { file_of result ≡ file }
        ensures count { sector_count_of result ≡ count }
        ensures failures { failures_of result ≡ 0 }
        ensures whole { has_broken result ≡ false }
        ensures writable { is_read_only result ≡ false }
    {
        FileDisk {
            file,
            start: PhantomData,
            count,
            failures: 0,
            is_broken: false,
            is_read_only: false,
        }
    }

    /// Such a device that is read alone: a write fails, and makes no call of the file.
    pub fn over_to_read(file: F, count: u32) -> FileDisk<F, S>
        ensures file { file_of result ≡ file }
        ensures count { sector_count_of result ≡ count }
        ensures failures { failures_of result ≡ 0 }
        ensures whole { has_broken result ≡ false }
        ensures read_only { is_read_only result ≡ true }
    {
        FileDisk {
            is_read_only: true,
            ..FileDisk::over(file, count)
        }
    }

    /// The open file.
    pub fn file(&self) -> &F
        ensures { result.now ≡ file_of self.now }
    {
        &self.file
    }
}

fn counted<T: Drop>(outcome: io::Result<T>, failures: &mut u64) -> Result<(), DeviceError>
    ensures variant { is_ok result ≡ is_ok outcome }
    ensures failures { CountsFailure result failures.old failures.new }
{
    if outcome.is_err() {
        *failures = failures.saturating_add(1);
        return Err(DeviceError);
    }
    Ok(())
}

fn refused(failures: &mut u64) -> DeviceError
    ensures { failures.new ≡ min (failures.old + 1) (2 ^ 64 - 1) }
{
    *failures = failures.saturating_add(1);
    DeviceError
}

impl<F: RawFile, S: Start> Sectors for FileDisk<F, S> {
    ghost use Rattle.file_device.specs.FileDisk.{recorded_calls, failures_of, has_broken, is_read_only, state_of};
    ghost use Rattle.file_device.specs.FileDisk.{KeepsWord};
    ghost use Rattle.file_device.specs.FileDisk.{BreaksDisk};
    ghost use Rattle.sector_device.proofs.HistoryLaws.{file_read_may_stay, file_whole, file_counts_now, file_only_now};

    ghost state = { λ f. state_of F.RawFile S.Start f };

    ghost keeps_word = { λ f. KeepsWord F.RawFile S.Start f };

    ghost always_keeps = { ⊥ };

    ghost failed = { λ f. f.failures };

    ghost read_may_stay = { λ f i word. file_read_may_stay S.Start.reads S.Start.may_hold S.Start.stays
        (recorded_calls F.RawFile S.Start f) i };

    ghost whole = { λ f i b word lt. file_whole S.Start.reads S.Start.may_hold S.Start.stays S.Start.whole
        (recorded_calls F.RawFile S.Start f) i b word };

    ghost counts_now = { λ f t image word le. file_counts_now S.Start.reads S.Start.may_hold
        (recorded_calls F.RawFile S.Start f) t
        image };

    ghost only_now = { λ f image word. file_only_now S.Start.reads S.Start.may_hold (recorded_calls F.RawFile S.Start f)
        image };

    fn count(&self) -> u32 {
        self.count
    }

    fn failures(&self) -> u64 {
        self.failures
    }

    fn read(&mut self, i: u32, to: &mut [u8; 512]) -> Result<(), DeviceError>
        requires { i < (state_of F.RawFile S.Start self.old).size }
        ensures size { (state_of F.RawFile S.Start self.new).size ≡ (state_of F.RawFile S.Start self.old).size }
        ensures failures { CountsFailure result (failures_of self.old) (failures_of self.new) }
        ensures word { KeepsWord F.RawFile S.Start self.new → KeepsWord F.RawFile S.Start self.old }
        ensures bytes { OnOk result (KeepsWord F.RawFile S.Start self.new
            → to.new ≡ (state_of F.RawFile S.Start self.old).reads i) }
        ensures stays { KeepsWord F.RawFile S.Start self.new
            → CandidatesStay (state_of F.RawFile S.Start self.old) (state_of F.RawFile S.Start self.new) }

        ensures refuses { IsTrue (has_broken self.old) → IsErr result }
        ensures broken { has_broken self.new ≡ has_broken self.old }
        ensures read_only { is_read_only self.new ≡ is_read_only self.old }
    {
        if self.is_broken {
            return Err(refused(&mut self.failures));
        }
        let outcome = self.file.read_sector(i, to);
        counted(outcome, &mut self.failures)
    }

    fn write(&mut self, i: u32, from: &[u8; 512]) -> Result<(), DeviceError>
        requires { i < (state_of F.RawFile S.Start self.old).size }
        ensures size { (state_of F.RawFile S.Start self.new).size ≡ (state_of F.RawFile S.Start self.old).size }
        ensures failures { CountsFailure result (failures_of self.old) (failures_of self.new) }
        ensures word { KeepsWord F.RawFile S.Start self.new → KeepsWord F.RawFile S.Start self.old }
        ensures written { OnOk result (KeepsWord F.RawFile S.Start self.new
            → (state_of F.RawFile S.Start self.new).reads i ≡ from.now) }
        ensures writes { KeepsWord F.RawFile S.Start self.new
            → WritesSector i from.now (state_of F.RawFile S.Start self.old) (state_of F.RawFile S.Start self.new) }

        ensures breaks { BreaksDisk result self.old self.new }
        ensures read_only { is_read_only self.new ≡ is_read_only self.old }
        ensures no_call { IsTrue (is_read_only self.old)
            → IsErr result × (recorded_calls F.RawFile S.Start self.new ≡ recorded_calls F.RawFile S.Start self.old) }
    {
        if self.is_broken || self.is_read_only {
            self.is_broken = true;
            return Err(refused(&mut self.failures));
        }
        let outcome = self.file.write_sector(i, from);
        self.is_broken = outcome.is_err();
        counted(outcome, &mut self.failures)
    }

    fn read_run(&mut self, first: u32, to: &mut [u8]) -> Result<(), DeviceError>
        requires whole { length to.old % 512 ≡ 0 }
        requires in_range { first + length to.old / 512 ≤ (state_of F.RawFile S.Start self.old).size }
        requires few { first + length to.old / 512 ≤ 2 ^ 32 }
        ensures size { (state_of F.RawFile S.Start self.new).size ≡ (state_of F.RawFile S.Start self.old).size }
        ensures failures { CountsFailure result (failures_of self.old) (failures_of self.new) }
        ensures word { KeepsWord F.RawFile S.Start self.new → KeepsWord F.RawFile S.Start self.old }
        ensures bytes { OnOk result (KeepsWord F.RawFile S.Start self.new
            → HasRun (state_of F.RawFile S.Start self.old).reads first to.new) }
        ensures stays { KeepsWord F.RawFile S.Start self.new
            → CandidatesStay (state_of F.RawFile S.Start self.old) (state_of F.RawFile S.Start self.new) }

        ensures refuses { IsTrue (has_broken self.old) → IsErr result }
        ensures broken { has_broken self.new ≡ has_broken self.old }
        ensures read_only { is_read_only self.new ≡ is_read_only self.old }
    {
        if self.is_broken {
            return Err(refused(&mut self.failures));
        }
        let outcome = self.file.read_run(first, to);
        counted(outcome, &mut self.failures)
    }

    fn write_run(&mut self, first: u32, from: &[u8]) -> Result<(), DeviceError>
        requires whole { length from.now % 512 ≡ 0 }
        requires in_range { first + length from.now / 512 ≤ (state_of F.RawFile S.Start self.old).size }
        requires few { first + length from.now / 512 ≤ 2 ^ 32 }
        ensures size { (state_of F.RawFile S.Start self.new).size ≡ (state_of F.RawFile S.Start self.old).size }
        ensures failures { CountsFailure result (failures_of self.old) (failures_of self.new) }
        ensures word { KeepsWord F.RawFile S.Start self.new → KeepsWord F.RawFile S.Start self.old }
        ensures written { OnOk result (KeepsWord F.RawFile S.Start self.new
            → HasRun (state_of F.RawFile S.Start self.new).reads first from.now) }
        ensures within { KeepsWord F.RawFile S.Start self.new
            → WritesWithin (IsInRun first (length from.now / 512)) (state_of F.RawFile S.Start self.old)
            (state_of F.RawFile S.Start self.new) }

        ensures breaks { BreaksDisk result self.old self.new }
        ensures read_only { is_read_only self.new ≡ is_read_only self.old }
        ensures no_call { IsTrue (is_read_only self.old)
            → IsErr result × (recorded_calls F.RawFile S.Start self.new ≡ recorded_calls F.RawFile S.Start self.old) }
    {
        if self.is_read_only || self.is_broken {
            self.is_broken = true;
            return Err(refused(&mut self.failures));
        }
        let outcome = self.file.write_run(first, from);
        self.is_broken = outcome.is_err();
        counted(outcome, &mut self.failures)
    }

    fn sync(&mut self) -> Result<(), DeviceError>
        ensures size { (state_of F.RawFile S.Start self.new).size ≡ (state_of F.RawFile S.Start self.old).size }
        ensures failures { CountsFailure result (failures_of self.old) (failures_of self.new) }
        ensures word { KeepsWord F.RawFile S.Start self.new → KeepsWord F.RawFile S.Start self.old }
        ensures settled { OnOk result (KeepsWord F.RawFile S.Start self.new
            → IsSettled (state_of F.RawFile S.Start self.new)) }
        ensures syncs { KeepsWord F.RawFile S.Start self.new
            → Syncs (state_of F.RawFile S.Start self.old) (state_of F.RawFile S.Start self.new) }
        ensures unchanged { OnErr result (KeepsWord F.RawFile S.Start self.new
            → CandidatesStay (state_of F.RawFile S.Start self.old) (state_of F.RawFile S.Start self.new)) }

        ensures breaks { BreaksDisk result self.old self.new }
        ensures read_only { is_read_only self.new ≡ is_read_only self.old }
    {
        if self.is_broken {
            return Err(refused(&mut self.failures));
        }
        let outcome = self.file.sync();
        self.is_broken = outcome.is_err();
        counted(outcome, &mut self.failures)
    }
}
