// A device over the bytes of a file, whose changes are kept in memory and recorded.
ghost use Rattle.std.specs.Prelude.{◌≡◌, ◌++◌, ◌∷◌, ◌%◌, ◌/◌, ◌^◌, ◌<◌, ℕ, [], IsOk, IsSome, IfSome, OnOk, OnErr};
ghost use Rattle.std.specs.Prelude.{length, is_ok, nat_eq, if◌then◌else◌, Some, refl, All};
ghost use Rattle.sector_device.specs.Device.{CountsFailure, IsSettled, CandidatesStay, Syncs, WritesSector};
ghost use Rattle.sector_device.specs.Memory.{content};
ghost use Rattle.journal_device.specs.ImageDisk.{shown_sectors};
ghost use Rattle.sector_device.specs.EventRuns.{sectors_in};
ghost use Rattle.journal_device.specs.After.{state_after, CallsAreWhole};
ghost use Rattle.journal_device.specs.Calls.{IsWithin};
ghost use Rattle.journal_device.specs.Latest.{ShowsLatest, last_at};
ghost use Rattle.journal_device.specs.declared.call.Call.{Call};

use crate::call::Call;
use crate::image_disk::ImageDisk;
use crate::latest::{Latest, copy_last, keep_last};
use crate::origin::Origin;
use sector_device::{DeviceError, Sectors};
use std::alloc::{AllocError, Global};
use std::collections::HashMap;
use std::marker::PhantomData;

/// A device over the bytes of a file, which it borrows. It keeps its word always, and fails only when out of memory.
///
/// What is written is kept in memory, 520 bytes for each write and as many for each sector that is written. The bytes
/// that it borrows stay as they are: whoever has the file is to make the same calls on it, in order.
#[derive(Drop)]
pub struct JournalDisk<'a, O: Origin> {
    under: ImageDisk<'a>,
    origin: PhantomData<O>,
    latest: Latest,
    calls: Vec<Call>,
    failures: u64,
    ghost over: { shown_sectors under ≡ sectors_in O.image },
    ghost agrees: { ShowsLatest (content (sectors_in O.image)) (state_after O.image calls.items).reads latest.entries },
    ghost whole: { CallsAreWhole O.image calls.items },
    ghost within: { All (IsWithin (length (sectors_in O.image))) calls.items },
}

impl<'a, O: Origin> JournalDisk<'a, O> {
    ghost use Rattle.journal_device.specs.JournalDisk.{calls_of, failures_of};

    /// A device over the bytes of a whole number of sectors, of fewer than 2^32 sectors. None over other bytes.
    pub fn over(alloc: Global, image: &'a [u8]) -> Option<JournalDisk<'a, O>>
        requires origin { image.now ≡ O.image }
        ensures none_yet { IfSome result (λ d. calls_of d ≡ []) }
        ensures fresh { IfSome result (λ d. failures_of d ≡ 0) }
        ensures some { length image.now % 512 ≡ 0 → length image.now / 512 < 2 ^ 32 → IsSome result }
    {
        let under = ImageDisk::over(image)?;
        Some(JournalDisk {
            under,
            origin: PhantomData,
            latest: HashMap::new(alloc),
            calls: Vec::new(alloc),
            failures: 0,
        })
    }

    /// The calls that were made on it, in order.
    pub fn into_calls(self) -> Vec<Call>
        ensures calls { result.items ≡ calls_of self.entry }
        ensures within { All (IsWithin (length (sectors_in O.image))) result.items }
    {
        let JournalDisk { calls, .. } = self;
        calls
    }
}

// Records a write. Where there is no memory nothing has changed.
fn record_write(
    calls: &mut Vec<Call>,
    latest: &mut Latest,
    i: u32,
    bytes: &[u8; 512],
) -> Result<(), AllocError>
    ensures ok { OnOk result (calls.new.items ≡ calls.old.items ++ Call.Write i bytes.now ∷ []) }
    ensures kept { OnOk result
        ((k : ℕ) → last_at latest.new.entries k ≡ if nat_eq i k then Some bytes.now else last_at latest.old.entries k) }
    ensures err { OnErr result ((calls.new.items ≡ calls.old.items) × (latest.new.entries ≡ latest.old.entries)) }
{
    if calls.push(Call::Write(i, *bytes)).is_err() {
        return Err(AllocError);
    }
    if keep_last(latest, i, bytes).is_err() {
        calls.pop();
        return Err(AllocError);
    }
    Ok(())
}

// Records a sync. Where there is no memory nothing has changed.
fn record_sync(calls: &mut Vec<Call>) -> Result<(), AllocError>
    ensures ok { OnOk result (calls.new.items ≡ calls.old.items ++ Call.Sync ∷ []) }
    ensures err { OnErr result (calls.new.items ≡ calls.old.items) }
{
    match calls.push(Call::Sync) {
        Ok(()) => Ok(()),
        Err(_) => Err(AllocError),
    }
}

// Counts running out of memory as a failure.
fn counted(outcome: Result<(), AllocError>, failures: &mut u64) -> Result<(), DeviceError>
    ensures variant { is_ok result ≡ is_ok outcome }
    ensures failures { CountsFailure result failures.old failures.new }
{
    if outcome.is_err() {
        *failures = failures.saturating_add(1);
        return Err(DeviceError);
    }
    Ok(())
}

impl<'a, O: Origin> Sectors for JournalDisk<'a, O> {
    ghost use Rattle.journal_device.specs.JournalDisk.{state_of, calls_of, failures_of, KeepsWord};
    ghost use Rattle.sector_device.proofs.HistoryLaws.{file_read_may_stay, file_counts_now, file_only_now};
    ghost use Rattle.journal_device.specs.Calls.{record_of};

    ghost state = { state_of };

    ghost keeps_word = { KeepsWord };

    ghost always_keeps = { Unit {0} };

    ghost failed = { λ d. d.failures };

    ghost read_may_stay = { λ d i word. file_read_may_stay (content (sectors_in O.image))
        (λ i b. b ≡ content (sectors_in O.image) i) (λ i. refl) (record_of (calls_of d)) i };

    ghost whole = { λ d i b word lt may. d.whole i b lt may };

    ghost counts_now = { λ d t image word le now. file_counts_now (content (sectors_in O.image))
        (λ i b. b ≡ content (sectors_in O.image) i) (record_of (calls_of d)) t image now };

    ghost only_now = { λ d image word left. file_only_now (content (sectors_in O.image))
        (λ i b. b ≡ content (sectors_in O.image) i) (record_of (calls_of d)) image left };

    fn count(&self) -> u32 {
        self.under.count()
    }

    fn failures(&self) -> u64 {
        self.failures
    }

    fn read(&mut self, i: u32, to: &mut [u8; 512]) -> Result<(), DeviceError>
        requires { i < (state_of self.old).size }
        ensures ok { IsOk result }
        ensures size { (state_of self.new).size ≡ (state_of self.old).size }
        ensures failures { CountsFailure result (failures_of self.old) (failures_of self.new) }
        ensures bytes { OnOk result (KeepsWord self.new → to.new ≡ (state_of self.old).reads i) }
        ensures stays { CandidatesStay (state_of self.old) (state_of self.new) }

        ensures calls { calls_of self.new ≡ calls_of self.old }
    {
        if copy_last(&self.latest, i, to) {
            return Ok(());
        }
        self.under.read(i, to)
    }

    fn write(&mut self, i: u32, from: &[u8; 512]) -> Result<(), DeviceError>
        requires { i < (state_of self.old).size }
        ensures size { (state_of self.new).size ≡ (state_of self.old).size }
        ensures failures { CountsFailure result (failures_of self.old) (failures_of self.new) }
        ensures written { OnOk result (KeepsWord self.new → (state_of self.new).reads i ≡ from.now) }
        ensures writes { WritesSector i from.now (state_of self.old) (state_of self.new) }

        ensures recorded { OnOk result (calls_of self.new ≡ calls_of self.old ++ Call.Write i from.now ∷ []) }
        ensures unrecorded { OnErr result (calls_of self.new ≡ calls_of self.old) }
    {
        let outcome = record_write(&mut self.calls, &mut self.latest, i, from);
        counted(outcome, &mut self.failures)
    }

    fn sync(&mut self) -> Result<(), DeviceError>
        ensures size { (state_of self.new).size ≡ (state_of self.old).size }
        ensures failures { CountsFailure result (failures_of self.old) (failures_of self.new) }
        ensures settled { OnOk result (KeepsWord self.new → IsSettled (state_of self.new)) }
        ensures syncs { Syncs (state_of self.old) (state_of self.new) }
        ensures unchanged { OnErr result (KeepsWord self.new → CandidatesStay (state_of self.old) (state_of self.new)) }

        ensures recorded { OnOk result (calls_of self.new ≡ calls_of self.old ++ Call.Sync ∷ []) }
        ensures unrecorded { OnErr result (calls_of self.new ≡ calls_of self.old) }
    {
        let outcome = record_sync(&mut self.calls);
        counted(outcome, &mut self.failures)
    }
}
