//! The test from its beginning to its end.
ghost use Rattle.std.specs.Prelude.{◌≡◌, ◌⊎◌, ℕ, true, IfOk, IfErr, IsOkUnless};
ghost use Rattle.std.specs.Io.KnownBytes.{Appends};
ghost use Rattle.cube_model.specs.declared.fault.Fault.TheVariants.{Memory, Output};
ghost use Rattle.trials.specs.Printed.{crashes_line};

use crate::crash::{Crash, WAYS};
use crate::outcome::{Outcome, write_outcome};
use crate::sample::Sample;
use crate::wrong::Wrong;
use cube_model::Fault;
use rand_pcg::Pcg32;
use std::alloc::Global;
use std::io::Write;
use std::rt::Clock;
use std::time::Duration;

/// The random crashes are the same in each test.
const SEED: u64 = 42;

/// The sequence of the generator.
const STREAM: u64 = 54;

/// Crashes a warehouse on a disk in memory at each call of the disk in turn, in four ways, and then at random calls
/// until so many seconds have passed. After each crash it opens what the disk has kept: there have to be the batches
/// that were acknowledged, or these and the one that was being added; `check` has to find nothing; and the thirteen
/// queries have to answer as one pass over the rows of these batches does. It writes one line, which it flushes, and
/// answers whether nothing was wrong: `ok: 456 stops opened`, or the first crash after which something was wrong, and
/// what.
///
/// With 0 seconds, or where there is no clock, it makes no random crash, and the line is always the same.
pub fn test_crashes<R: Clock, W: Write>(
    rt: &R,
    alloc: Global,
    seconds: u32,
    out: &mut W,
) -> Result<bool, Fault>
    // Yes is written with the number of crashes.
    ensures yes { IfOk result
        (λ sound. sound ≡ true
        → (crashes : ℕ) × Appends (W.contents out.old) (W.contents out.new) (crashes_line crashes)) }
    ensures only { IfErr result (λ fault. (fault ≡ Memory) ⊎ (fault ≡ Output)) }
{
    let outcome = crashed(rt, alloc, seconds)?;
    write_outcome(out, &outcome)
}

// Makes all crashes.
fn crashed<R: Clock>(rt: &R, alloc: Global, seconds: u32) -> Result<Outcome, Fault>
    ensures { IsOkUnless result Memory }
{
    let time = Time {
        began: rt.monotonic().ok(),
        seconds,
    };
    let mut outcome = Outcome::new();
    match Sample::new(alloc) {
        Ok(sample) => {
            crash_in_turn(alloc, &sample, &mut outcome)?;
            crash_at_random(rt, alloc, &sample, time, &mut outcome)?;
        }
        Err(Fault::Memory) => return Err(Fault::Memory),
        Err(fault) => outcome.wrong = Some((Crash::in_turn(0), Wrong::Refused(fault))),
    }
    Ok(outcome)
}

// Crashes the life at each of its calls, until it comes to its end or something is wrong.
fn crash_in_turn(alloc: Global, sample: &Sample, outcome: &mut Outcome) -> Result<(), Fault>
    ensures { IsOkUnless result Memory }
{
    for place in 0..u64::MAX {
        if outcome.is_whole || outcome.wrong.is_some() {
            break;
        }
        outcome.take(alloc, Crash::in_turn(place), sample)?;
    }
    Ok(())
}

// Crashes the life at random calls after each of them had its turn, until the time is over or something is wrong.
fn crash_at_random<R: Clock>(
    rt: &R,
    alloc: Global,
    sample: &Sample,
    time: Time,
    outcome: &mut Outcome,
) -> Result<(), Fault>
    ensures { IsOkUnless result Memory }
{
    let calls = outcome.crashes / WAYS;
    let mut draw = Pcg32::new(SEED, STREAM);
    for _ in 0..u64::MAX {
        if outcome.wrong.is_some() || time.is_over(rt) {
            break;
        }
        outcome.take(alloc, Crash::drawn(&mut draw, calls), sample)?;
    }
    Ok(())
}

// When a test began, and how long it may take.
#[derive(Clone, Copy)]
struct Time {
    began: Option<Duration>,
    seconds: u32,
}

impl Time {
    // Whether the seconds have passed. Without a clock they have.
    fn is_over<R: Clock>(self, rt: &R) -> bool {
        match (self.began, rt.monotonic()) {
            (Some(began), Ok(now)) => {
                now.saturating_sub(began) >= Duration::from_secs(u64::from(self.seconds))
            }
            _ => true,
        }
    }
}
