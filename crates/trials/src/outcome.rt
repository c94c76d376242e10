//! What became of the crashes of a test.
ghost use Rattle.std.specs.Prelude.{◌≡◌, true, IfOk, IfErr, IsOkUnless};
ghost use Rattle.std.specs.Io.KnownBytes.{Appends};
ghost use Rattle.cube_model.specs.declared.fault.Fault.TheVariants.{Memory, Output};
ghost use Rattle.ssb_reports.specs.Writing.{Writes};
ghost use Rattle.trials.specs.Printed.{crashes_line};

use crate::crash::Crash;
use crate::life::{Life, Reached, life_until};
use crate::opened::first_wrong;
use crate::sample::Sample;
use crate::wrong::Wrong;
use cube_model::Fault;
use sector_device::MemDisk;
use ssb_reports::{flush, write_bytes, write_number};
use std::alloc::Global;
use std::io::Write;

/// What became of the crashes so far.
#[derive(Clone, Copy)]
pub(crate) struct Outcome {
    /// How many were opened.
    pub(crate) crashes: u64,
    /// Whether a life came to its end before its crash.
    pub(crate) is_whole: bool,
    /// The first crash after which something was wrong, and what.
    pub(crate) wrong: Option<(Crash, Wrong)>,
}

impl Outcome {
    /// No crash yet.
    pub(crate) fn new() -> Outcome {
        Outcome {
            crashes: 0,
            is_whole: false,
            wrong: None,
        }
    }

    /// Crashes a life, and opens what the disk has kept.
    pub(crate) fn take(&mut self, alloc: Global, crash: Crash, sample: &Sample) -> Result<(), Fault>
        ensures { IsOkUnless result Memory }
    {
        match left_by(alloc, crash, sample) {
            Ok(Left::Whole) => self.is_whole = true,
            Ok(Left::Right) => self.crashes = self.crashes.saturating_add(1),
            Ok(Left::Wrong(wrong)) => self.wrong = Some((crash, wrong)),
            Err(Fault::Memory) => return Err(Fault::Memory),
            Err(fault) => self.wrong = Some((crash, Wrong::Refused(fault))),
        }
        Ok(())
    }
}

// What a crash has left.
#[derive(Clone, Copy)]
enum Left {
    /// The life came to its end before.
    Whole,
    /// All that has to be there, and nothing else.
    Right,
    /// Something else.
    Wrong(Wrong),
}

fn left_by(alloc: Global, crash: Crash, sample: &Sample) -> Result<Left, Fault> {
    let Life {
        fault,
        reached,
        disk,
    } = life_until(alloc, sample, crash.call)?;
    match fault {
        None => Ok(Left::Whole),
        Some(Fault::Device) => left_on(alloc, disk.crash(&crash.picks), reached, sample),
        Some(fault) => Err(fault),
    }
}

// What is left on a disk after a life that came so far.
fn left_on(alloc: Global, disk: MemDisk, reached: Reached, sample: &Sample) -> Result<Left, Fault> {
    match first_wrong(alloc, disk, reached, sample)? {
        None => Ok(Left::Right),
        Some(wrong) => Ok(Left::Wrong(wrong)),
    }
}

/// Writes what became of the crashes, flushes it, and answers whether nothing was wrong.
pub(crate) fn write_outcome<W: Write>(out: &mut W, outcome: &Outcome) -> Result<bool, Fault>
    ensures yes { IfOk result
        (λ sound. sound ≡ true → Appends (W.contents out.old) (W.contents out.new) (crashes_line outcome.now.crashes)) }
    ensures only { IfErr result (λ fault. fault ≡ Output) }
{
    match &outcome.wrong {
        None => {
            write_sound(out, outcome.crashes)?;
            Ok(true)
        }
        Some((crash, wrong)) => {
            write_wrong(out, crash, wrong)?;
            Ok(false)
        }
    }
}

// Writes that nothing was wrong after so many crashes, and flushes it.
fn write_sound<W: Write>(out: &mut W, crashes: u64) -> Result<(), Fault>
    ensures { Writes (W.contents out.old) (W.contents out.new) result (crashes_line crashes) }
{
    write_sound_line(out, crashes)?;
    flush(out)
}

fn write_sound_line<W: Write>(out: &mut W, crashes: u64) -> Result<(), Fault>
    ensures { Writes (W.contents out.old) (W.contents out.new) result (crashes_line crashes) }
{
    write_bytes(out, b"ok: ")?;
    write_number(out, crashes)?;
    write_bytes(out, b" stops opened\n")
}

// Writes what was wrong after a crash, and flushes it.
fn write_wrong<W: Write>(out: &mut W, crash: &Crash, wrong: &Wrong) -> Result<(), Fault>
    ensures { IfErr result (λ fault. fault ≡ Output) }
{
    match writeln!(out, "{crash}: {wrong}") {
        Ok(()) => flush(out),
        Err(_) => Err(Fault::Output),
    }
}
