//! A whole life on devices that give other bytes than were written, and of which calls fail in turn.
ghost use Rattle.std.specs.Prelude.{[]};
ghost use Rattle.sector_device.specs.Device.{CountsFailure};

use cube_model::Fault;
use sample_sessions::{add, report, sample_dims, submit};
use sample_star::{FACTS, Fact, ONE_CUSTOMER, STRANGER, THIRD_FACT};
use sector_device::{DeviceError, MemDisk, Sectors};
use ssb_reports::QNumber;
use std::alloc::Global;
use std::test::Fail;
use warehouse::{Session, create, open};

/// A memory disk of 64 sectors for so many calls. Then each read gives a sector with another byte in it, at another
/// place each time, and each call of a number that some number divides fails, if that is not 0.
#[derive(Drop)]
struct Lying {
    inner: MemDisk,
    kept_calls: u64,
    fails_every: u64,
    calls: u64,
    failures: u64,
}

impl Lying {
    /// What comes of a call.
    fn answer(&mut self) -> Result<(), DeviceError>
        ensures { CountsFailure result self.old.failures self.new.failures }
    {
        self.calls = self.calls.wrapping_add(1);
        if self.calls <= self.kept_calls
            || self.fails_every == 0
            || self.calls % self.fails_every != 0
        {
            return Ok(());
        }
        self.failures = self.failures.saturating_add(1);
        Err(DeviceError)
    }
}

impl Sectors for Lying {
    ghost state = { λ d. record {
      size = 64;
      reads = λ i. [];
      may_hold = λ i b. ⊥;
      moment = 0;
      left_since = λ t image. ⊥;
    } };

    ghost keeps_word = { λ d. ⊥ };

    ghost always_keeps = { ⊥ };

    ghost failed = { λ d. d.failures };

    ghost read_may_stay = { λ d i word. absurd word };

    ghost whole = { λ d i b word. absurd word };

    ghost counts_now = { λ d t image word. absurd word };

    ghost only_now = { λ d image word. absurd word };

    fn count(&self) -> u32 {
        64
    }

    fn failures(&self) -> u64 {
        self.failures
    }

    fn read(&mut self, i: u32, to: &mut [u8; 512]) -> Result<(), DeviceError> {
        if i < self.inner.count() {
            let _ = self.inner.read(i, to);
        }
        if self.calls >= self.kept_calls {
            let place = (self.calls.wrapping_mul(37) % 512) as usize;
            to[place] ^= 1u8 << (self.calls % 8) as u32;
        }
        self.answer()
    }

    fn write(&mut self, i: u32, from: &[u8; 512]) -> Result<(), DeviceError> {
        if i < self.inner.count() {
            let _ = self.inner.write(i, from);
        }
        self.answer()
    }

    fn sync(&mut self) -> Result<(), DeviceError> {
        let _ = self.inner.sync();
        self.answer()
    }
}

/// A call of a session.
#[derive(Clone, Copy)]
enum Call {
    Submit(u32, &'static [Fact<'static>]),
    Choose,
    Upkeep,
    Add,
    Audit,
    Status,
    Report(u32, QNumber),
}

/// Three batches, a choice, two upkeeps, the addition of a customer, and the thirteen reports.
static LIFE: [Call; 23] = [
    Call::Submit(1, &FACTS),
    Call::Choose,
    Call::Upkeep,
    Call::Submit(2, &[THIRD_FACT]),
    Call::Upkeep,
    Call::Add,
    Call::Submit(3, &[STRANGER]),
    Call::Status,
    Call::Report(3, QNumber::Q11),
    Call::Report(3, QNumber::Q12),
    Call::Report(3, QNumber::Q13),
    Call::Report(3, QNumber::Q21),
    Call::Report(3, QNumber::Q22),
    Call::Report(3, QNumber::Q23),
    Call::Report(3, QNumber::Q31),
    Call::Report(3, QNumber::Q32),
    Call::Report(3, QNumber::Q33),
    Call::Report(3, QNumber::Q34),
    Call::Report(3, QNumber::Q41),
    Call::Report(3, QNumber::Q42),
    Call::Report(3, QNumber::Q43),
    Call::Audit,
    Call::Status,
];

/// How a call is refused, if it is.
fn refusal<D: Sectors>(alloc: Global, session: &mut Session<D>, call: Call) -> Option<Fault> {
    match call {
        Call::Submit(number, facts) => submit(alloc, session, number, facts).err(),
        Call::Choose => session.choose(alloc, 3).err(),
        Call::Upkeep => session.upkeep(alloc).err(),
        Call::Add => add(alloc, session, 1, &ONE_CUSTOMER).err(),
        Call::Audit => session.audit(alloc).err(),
        Call::Status => session.status().err(),
        Call::Report(batches, number) => report(alloc, session, batches, number).err(),
    }
}

/// Whether a call answers `Failed` exactly where the device failed before, and `Device` exactly where it failed in the
/// call.
fn is_allowed<D: Sectors>(alloc: Global, session: &mut Session<D>, call: Call) -> bool {
    let before = session.device().failures();
    let was_broken = session.is_broken();
    let refused = refusal(alloc, session, call);
    let failed = session.device().failures() != before;
    (refused == Some(Fault::Failed)) == was_broken
        && (refused == Some(Fault::Device)) == failed
        && session.is_broken() == (was_broken || failed)
}

/// Whether each call of a life is allowed.
fn is_life_allowed<D: Sectors>(alloc: Global, session: &mut Session<D>) -> bool {
    let mut allowed = true;
    for call in LIFE {
        allowed = allowed && is_allowed(alloc, session, call);
    }
    allowed
}

/// The device after a life, and whether each of its calls was allowed.
fn lived<D: Sectors + Drop>(alloc: Global, made: Result<Session<D>, (Fault, D)>) -> (bool, D) {
    match made {
        Ok(mut session) => {
            let allowed = is_life_allowed(alloc, &mut session);
            (allowed, session.close())
        }
        Err((_, device)) => (true, device),
    }
}

/// Whether each call of a creation, a life, an opening and a second life is allowed on a device that gives other bytes
/// after so many calls, and fails at each of some number.
fn is_right(alloc: Global, kept_calls: u64, fails_every: u64) -> Result<bool, Fault> {
    let dims = sample_dims(alloc)?;
    let device = Lying {
        inner: MemDisk::new(alloc, 64)?,
        kept_calls,
        fails_every,
        calls: 0,
        failures: 0,
    };
    let (first, device) = lived(alloc, create(alloc, device, dims));
    let (second, _) = lived(alloc, open(alloc, device));
    Ok(first && second)
}

/// More calls than a life and what comes after it make.
const CALLS: u64 = 240;

#[test]
fn each_call_returns_on_a_device_that_lies(rt: HostRuntime) -> Result<(), Fail> {
    for kept_calls in 0..CALLS {
        for fails_every in [0, 2, 7, 50] {
            assert!(rt;
                is_right(rt.alloc(), kept_calls, fails_every)?,
                "{kept_calls} {fails_every}"
            );
        }
    }
    Ok(())
}
