//! Checking all that is stored of a warehouse.
ghost use Rattle.std.specs.Prelude.{◌≡◌, ◌≤◌, true, false, Err, IfOk, IsTrue, length};
ghost use Rattle.ssb_reports.specs.Writing.{Writes};
ghost use Rattle.warehouse_objects.specs.Warehouse.{Warehouse};
ghost use Rattle.warehouse_objects.specs.Represents.{Represents};
ghost use Rattle.warehouse_check.specs.Checked.{IsChecked};
ghost use Rattle.warehouse.specs.Session.{ForItsWarehouse, KeptBefore, content_of, device_of};
ghost use Rattle.warehouse_jobs.specs.Checking.{Checks, count_stored, sound_line, sound_text};
ghost use Rattle.warehouse_jobs.specs.Failing.{FailsAtOnce};

use crate::printing::write_parts;
use cube_model::Fault;
use itoa::Buffer;
use sector_device::Sectors;
use ssb_reports::flush;
use std::alloc::Global;
use std::io::Write;
use warehouse::{Finding, Session, Status, StoredCuboid};

/// Checks all that is stored of a warehouse, and answers whether nothing is wrong. It writes one line and flushes it:
/// `ok: batches 1, rows 3, cuboids 3`, or the first thing that is wrong, such as `batch 3: rows 5, the root says 6`.
///
/// It can fail when out of memory, because the device or the writer does, and with `Failed` where the device failed in
/// an earlier call.
pub fn check<D: Sectors, W: Write>(
    alloc: Global,
    session: &mut Session<D>,
    out: &mut W,
) -> Result<bool, Fault>
    // Of a warehouse the answer is yes.
    ensures checks { ForItsWarehouse D.Sectors session.old session.new
        (λ w. Checks D.Sectors w session.old session.new (W.contents out.old) (W.contents out.new) result) }

    // Yes says that the content has its objects and batches, whatever it is, and no that it represents no warehouse.
    ensures yes { IfOk result (λ sound. IsTrue sound → D.keeps_word (device_of session.new)
        → IsChecked (content_of D.Sectors session.old)) }
    ensures no { IfOk result (λ sound. sound ≡ false → D.keeps_word (device_of session.new) → (w : Warehouse)
        → Represents (content_of D.Sectors session.old) w → ⊥) }

    // Where the device failed in an earlier call, nothing is done.
    ensures failed { FailsAtOnce D.Sectors session.old session.new (W.contents out.old) (W.contents out.new) result }
    ensures word { KeptBefore D.Sectors session.old session.new }
{
    match session.check(alloc)? {
        None => {
            let status = session.status()?;
            write_sound(out, &status)?;
            Ok(true)
        }
        Some(found) => {
            write_finding(out, found)?;
            Ok(false)
        }
    }
}

// Writes that nothing is wrong, and flushes it.
fn write_sound<W: Write>(out: &mut W, status: &Status) -> Result<(), Fault>
    ensures { Writes (W.contents out.old) (W.contents out.new) result (sound_text status.now) }
{
    let cuboids = stored_in(&status.cuboids);
    write_sound_line(out, status.batches, status.rows, cuboids)?;
    flush(out)
}

fn write_sound_line<W: Write>(
    out: &mut W,
    batches: u32,
    rows: u64,
    cuboids: usize,
) -> Result<(), Fault>
    ensures { Writes (W.contents out.old) (W.contents out.new) result (sound_line batches rows cuboids) }
{
    let (mut batch_count, mut row_count) = (Buffer::new(), Buffer::new());
    let mut cuboid_count = Buffer::new();
    let parts: [&[u8]; 7] = [
        b"ok: batches ",
        batch_count.format(batches).as_bytes(),
        b", rows ",
        row_count.format(rows).as_bytes(),
        b", cuboids ",
        cuboid_count.format(cuboids).as_bytes(),
        b"\n",
    ];
    write_parts(out, &parts)
}

// How many places are not empty.
fn stored_in(places: &[Option<StoredCuboid>]) -> usize
    ensures count { result ≡ count_stored places.now }
    ensures few { result ≤ length places.now }
{
    match places {
        [] => 0,
        [None, rest @ ..] => stored_in(rest),
        [Some(_), rest @ ..] => stored_in(rest) + 1,
    }
}

// Writes what is wrong, and flushes it.
fn write_finding<W: Write>(out: &mut W, found: Finding) -> Result<(), Fault> {
    match writeln!(out, "{found}") {
        Ok(()) => flush(out),
        Err(_) => Err(Fault::Output),
    }
}
