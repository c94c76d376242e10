// A device of which chosen calls fail.
ghost use Rattle.std.specs.Prelude.{◌≡◌, ◌+◌, ◌-◌, ◌^◌, ◌<◌, ◌&&◌, ◌||◌, min, not, ℕ, false, nat_eq, nat_lt, IsTrue};
ghost use Rattle.std.specs.Prelude.{IsErr, OnOk, OnErr};
ghost use Rattle.sector_device.specs.FailurePlan.{fails_at};
ghost use Rattle.sector_device.specs.Device.{CountsFailure, IsSettled, CandidatesStay, WritesSector, Syncs};

use crate::{DeviceError, Sectors};

/// Which calls fail.
#[derive(Clone, Copy)]
pub struct FailurePlan {
    at: u64,
    all: bool,
    reaches: bool,
}

/// A device of which chosen calls fail. It keeps its word where its inner device does.
#[derive(Drop)]
pub struct Fuse<D: Sectors> {
    inner: D,
    plan: FailurePlan,
    calls: u64,
    failures: u64,
}

impl<D: Sectors> Fuse<D> {
    ghost use Rattle.sector_device.specs.Fuse.{inner_of, plan_of, call_count_of, failures_of};

    /// Its n-th call fails, from 1 and none at 0, and with `all` each one from then on. A write that fails
    /// reaches the inner device where `reaches` says so. Reads, writes and syncs count.
    pub fn new(inner: D, n: u64, all: bool, reaches: bool) -> Fuse<D>
        ensures device { inner_of result ≡ inner }
        ensures plan { plan_of result ≡ record { at = n; all = all; reaches = reaches } }
        ensures calls { call_count_of result ≡ 0 }
        ensures failures { failures_of result ≡ 0 }
    {
        let plan = FailurePlan {
            at: n,
            all,
            reaches,
        };
        Fuse {
            inner,
            plan,
            calls: 0,
            failures: 0,
        }
    }

    /// The inner device.
    pub fn device(&self) -> &D
        ensures { result.now ≡ inner_of self.now }
    {
        &self.inner
    }

    /// Gives the inner device back.
    pub fn close(self) -> D
        ensures { result ≡ inner_of self }
    {
        let Fuse { inner, .. } = self;
        inner
    }
}

// Counts a call, and says whether it fails.
fn burn(calls: &mut u64, plan: FailurePlan) -> bool
    ensures calls { calls.new ≡ min (calls.old + 1) (2 ^ 64 - 1) }
    ensures fails { result ≡ fails_at plan calls.new }
{
    *calls = calls.saturating_add(1);
    plan.at != 0 && (*calls == plan.at || plan.all && plan.at < *calls)
}

fn counted(outcome: Result<(), DeviceError>, failures: &mut u64) -> Result<(), DeviceError>
    ensures same { result ≡ outcome }
    ensures failures { CountsFailure result failures.old failures.new }
{
    if outcome.is_err() {
        *failures = failures.saturating_add(1);
    }
    outcome
}

impl<D: Sectors> Sectors for Fuse<D> {
    ghost use Rattle.sector_device.specs.Fuse.{inner_of, state_of, KeepsWord, inner_failures, failures_of, plan_of};
    ghost use Rattle.sector_device.specs.Fuse.{blows, AsksInner, Burns};

    ghost state = { λ f. D.Sectors.state f.inner };

    ghost keeps_word = { λ f. D.Sectors.keeps_word f.inner };

    ghost always_keeps = { D.Sectors.always_keeps };

    ghost failed = { λ f. f.failures };

    ghost read_may_stay = { λ f. D.Sectors.read_may_stay f.inner };

    ghost whole = { λ f. D.Sectors.whole f.inner };

    ghost counts_now = { λ f. D.Sectors.counts_now f.inner };

    ghost only_now = { λ f. D.Sectors.only_now f.inner };

    fn count(&self) -> u32 {
        self.inner.count()
    }

    fn failures(&self) -> u64 {
        self.failures
    }

    fn read(&mut self, i: u32, to: &mut [u8; 512]) -> Result<(), DeviceError>
        requires { i < (state_of D.Sectors self.old).size }
        ensures size { (state_of D.Sectors self.new).size ≡ (state_of D.Sectors self.old).size }
        ensures failures { CountsFailure result (failures_of self.old) (failures_of self.new) }
        ensures word { KeepsWord D.Sectors self.new → KeepsWord D.Sectors self.old }
        ensures goes_on { D.Sectors.always_keeps → KeepsWord D.Sectors self.old → KeepsWord D.Sectors self.new }
        ensures bytes { OnOk result (KeepsWord D.Sectors self.new → to.new ≡ (state_of D.Sectors self.old).reads i) }
        ensures stays { KeepsWord D.Sectors self.new
            → CandidatesStay (state_of D.Sectors self.old) (state_of D.Sectors self.new) }

        ensures burns { Burns result self.old self.new }
        ensures passes { blows self.old ≡ false
            → CountsFailure result (inner_failures D.Sectors self.old) (inner_failures D.Sectors self.new) }
        ensures spared { IsTrue (blows self.old) → inner_of self.new ≡ inner_of self.old }
    {
        if burn(&mut self.calls, self.plan) {
            return counted(Err(DeviceError), &mut self.failures);
        }
        counted(self.inner.read(i, to), &mut self.failures)
    }

    fn write(&mut self, i: u32, from: &[u8; 512]) -> Result<(), DeviceError>
        requires { i < (state_of D.Sectors self.old).size }
        ensures size { (state_of D.Sectors self.new).size ≡ (state_of D.Sectors self.old).size }
        ensures failures { CountsFailure result (failures_of self.old) (failures_of self.new) }
        ensures word { KeepsWord D.Sectors self.new → KeepsWord D.Sectors self.old }
        ensures goes_on { D.Sectors.always_keeps → KeepsWord D.Sectors self.old → KeepsWord D.Sectors self.new }
        ensures written { OnOk result
            (KeepsWord D.Sectors self.new → (state_of D.Sectors self.new).reads i ≡ from.now) }
        ensures writes { KeepsWord D.Sectors self.new
            → WritesSector i from.now (state_of D.Sectors self.old) (state_of D.Sectors self.new) }

        ensures burns { Burns result self.old self.new }
        ensures passes { blows self.old ≡ false
            → CountsFailure result (inner_failures D.Sectors self.old) (inner_failures D.Sectors self.new) }
        ensures spared { IsTrue (blows self.old) → (plan_of self.old).reaches ≡ false
            → inner_of self.new ≡ inner_of self.old }
        ensures reached { IsTrue (blows self.old) → IsTrue (plan_of self.old).reaches
            → AsksInner D.Sectors i from.now self.old self.new }
    {
        if burn(&mut self.calls, self.plan) {
            if self.plan.reaches {
                let _ = self.inner.write(i, from);
            }
            return counted(Err(DeviceError), &mut self.failures);
        }
        counted(self.inner.write(i, from), &mut self.failures)
    }

    fn sync(&mut self) -> Result<(), DeviceError>
        ensures size { (state_of D.Sectors self.new).size ≡ (state_of D.Sectors self.old).size }
        ensures failures { CountsFailure result (failures_of self.old) (failures_of self.new) }
        ensures word { KeepsWord D.Sectors self.new → KeepsWord D.Sectors self.old }
        ensures goes_on { D.Sectors.always_keeps → KeepsWord D.Sectors self.old → KeepsWord D.Sectors self.new }
        ensures settled { OnOk result (KeepsWord D.Sectors self.new → IsSettled (state_of D.Sectors self.new)) }
        ensures syncs { KeepsWord D.Sectors self.new
            → Syncs (state_of D.Sectors self.old) (state_of D.Sectors self.new) }
        ensures unchanged { OnErr result
            (KeepsWord D.Sectors self.new
            → CandidatesStay (state_of D.Sectors self.old) (state_of D.Sectors self.new)) }

        ensures burns { Burns result self.old self.new }
        ensures passes { blows self.old ≡ false
            → CountsFailure result (inner_failures D.Sectors self.old) (inner_failures D.Sectors self.new) }
        ensures spared { IsTrue (blows self.old) → inner_of self.new ≡ inner_of self.old }
    {
        if burn(&mut self.calls, self.plan) {
            return counted(Err(DeviceError), &mut self.failures);
        }
        counted(self.inner.sync(), &mut self.failures)
    }
}
