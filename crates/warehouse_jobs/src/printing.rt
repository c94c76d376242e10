//! The lines of jobs.
ghost use Rattle.std.specs.Prelude.{◌≡◌, ℕ};
ghost use Rattle.std.specs.List.{flat_map};
ghost use Rattle.lattice.specs.Names.{fifth_part, view_text};
ghost use Rattle.ssb_reports.specs.Writing.{Writes};
ghost use Rattle.warehouse_jobs.specs.declared.taken.Taken.TheVariants.{Added, Skipped};
ghost use Rattle.warehouse_jobs.specs.Printed.{addition_text, audit_text, batch_line, choice_text, chosen_line};
ghost use Rattle.warehouse_jobs.specs.Printed.{count_line, counts_text, cuboid_line, named_line, place_text};
ghost use Rattle.warehouse_jobs.specs.Printed.{second_layout_text, status_text, upkeep_text};

use crate::taken::Taken;
use cube_model::{Axis, Fault};
use itoa::Buffer;
use lattice::View;
use ssb_reports::{flush, write_bytes, write_number};
use std::io::Write;
use warehouse::{Chosen, Status, StoredCuboid};

/// Writes the line of a batch of so many rows, and flushes it.
pub(crate) fn write_batch<W: Write>(
    out: &mut W,
    number: u32,
    rows: usize,
    taken: Taken,
) -> Result<(), Fault>
    ensures { Writes (W.contents out.old) (W.contents out.new) result (batch_line number rows taken) }
{
    write_batch_line(out, number, rows, taken)?;
    flush(out)
}

/// Writes how many batches there are, and flushes it.
pub(crate) fn write_count<W: Write>(out: &mut W, count: u32) -> Result<(), Fault>
    ensures { Writes (W.contents out.old) (W.contents out.new) result (count_line count) }
{
    write_named(out, b"batches ", u64::from(count))?;
    flush(out)
}

/// Writes the numbers of a warehouse, a line each, and flushes them.
pub(crate) fn write_status<W: Write>(out: &mut W, status: &Status) -> Result<(), Fault>
    ensures { Writes (W.contents out.old) (W.contents out.new) result (status_text status.now) }
{
    write_status_lines(out, status)?;
    flush(out)
}

fn write_batch_line<W: Write>(
    out: &mut W,
    number: u32,
    rows: usize,
    taken: Taken,
) -> Result<(), Fault>
    ensures { Writes (W.contents out.old) (W.contents out.new) result (batch_line number rows taken) }
{
    write_bytes(out, b"batch ")?;
    write_number(out, number)?;
    match taken {
        Taken::Added => write_named(out, b" rows ", rows as u64),
        Taken::Skipped => write_bytes(out, b" skipped\n"),
    }
}

/// Writes what became of an addition of so many rows, and how many additions there are, and flushes it.
pub(crate) fn write_addition<W: Write>(
    out: &mut W,
    number: u32,
    rows: u128,
    taken: Taken,
    additions: u32,
) -> Result<(), Fault>
    ensures { Writes (W.contents out.old) (W.contents out.new) result (addition_text number rows taken additions) }
{
    write_addition_lines(out, number, rows, taken, additions)?;
    flush(out)
}

fn write_addition_lines<W: Write>(
    out: &mut W,
    number: u32,
    rows: u128,
    taken: Taken,
    additions: u32,
) -> Result<(), Fault>
    ensures { Writes (W.contents out.old) (W.contents out.new) result (addition_text number rows taken additions) }
{
    match taken {
        Taken::Added => write_added(out, number, rows, additions),
        Taken::Skipped => write_skipped(out, number, additions),
    }
}

fn write_added<W: Write>(out: &mut W, number: u32, rows: u128, additions: u32) -> Result<(), Fault>
    ensures { Writes (W.contents out.old) (W.contents out.new) result (addition_text number rows Added additions) }
{
    let (mut addition, mut row_count, mut count) = (Buffer::new(), Buffer::new(), Buffer::new());
    let parts: [&[u8]; 8] = [
        b"addition ",
        addition.format(number).as_bytes(),
        b" rows ",
        row_count.format(rows).as_bytes(),
        b"\n",
        b"additions ",
        count.format(additions).as_bytes(),
        b"\n",
    ];
    write_parts(out, &parts)
}

fn write_skipped<W: Write>(out: &mut W, number: u32, additions: u32) -> Result<(), Fault>
    ensures { (rows : ℕ)
        → Writes (W.contents out.old) (W.contents out.new) result (addition_text number rows Skipped additions) }
{
    let (mut addition, mut count) = (Buffer::new(), Buffer::new());
    let parts: [&[u8]; 6] = [
        b"addition ",
        addition.format(number).as_bytes(),
        b" skipped\n",
        b"additions ",
        count.format(additions).as_bytes(),
        b"\n",
    ];
    write_parts(out, &parts)
}

fn write_status_lines<W: Write>(out: &mut W, status: &Status) -> Result<(), Fault>
    ensures { Writes (W.contents out.old) (W.contents out.new) result (status_text status.now) }
{
    write_counts(out, status.batches, status.additions)?;
    write_named(out, b"rows ", status.rows)?;
    write_named(out, b"target ", u64::from(status.target))?;
    write_named(out, b"generation ", status.generation)?;
    write_places(out, &status.cuboids)
}

// Writes how many batches there are, and how many additions, where there are some.
fn write_counts<W: Write>(out: &mut W, batches: u32, additions: u32) -> Result<(), Fault>
    ensures { Writes (W.contents out.old) (W.contents out.new) result (counts_text batches additions) }
{
    if additions == 0 {
        return write_named(out, b"batches ", u64::from(batches));
    }
    let (mut batch_count, mut addition_count) = (Buffer::new(), Buffer::new());
    let parts: [&[u8]; 6] = [
        b"batches ",
        batch_count.format(batches).as_bytes(),
        b"\n",
        b"additions ",
        addition_count.format(additions).as_bytes(),
        b"\n",
    ];
    write_parts(out, &parts)
}

// Writes a line for each stored cuboid.
fn write_places<W: Write>(out: &mut W, places: &[Option<StoredCuboid>]) -> Result<(), Fault>
    ensures { Writes (W.contents out.old) (W.contents out.new) result (flat_map place_text places.now) }
{
    for place in places {
        write_place(out, place)?;
    }
    Ok(())
}

// Writes the line of a stored cuboid, where there is one.
fn write_place<W: Write>(out: &mut W, place: &Option<StoredCuboid>) -> Result<(), Fault>
    ensures { Writes (W.contents out.old) (W.contents out.new) result (place_text place.now) }
{
    match place {
        Some(cuboid) => write_cuboid(out, cuboid),
        None => Ok(()),
    }
}

// Writes the line of a stored cuboid.
fn write_cuboid<W: Write>(out: &mut W, cuboid: &StoredCuboid) -> Result<(), Fault>
    ensures { Writes (W.contents out.old) (W.contents out.new) result (cuboid_line cuboid.now) }
{
    let (mut view, mut mark, mut runs) = (Buffer::new(), Buffer::new(), Buffer::new());
    let mut cells = Buffer::new();
    let parts: [&[u8]; 9] = [
        b"cuboid ",
        view.format(cuboid.view).as_bytes(),
        b" mark ",
        mark.format(cuboid.mark).as_bytes(),
        b" runs ",
        runs.format(cuboid.runs).as_bytes(),
        b" cells ",
        cells.format(cuboid.cells).as_bytes(),
        b"\n",
    ];
    write_parts(out, &parts)
}

/// Writes the lines of a choice of views, in the order of choice, and flushes them.
pub(crate) fn write_choice<W: Write>(
    out: &mut W,
    ship_modes: bool,
    chosen: &[Chosen],
) -> Result<(), Fault>
    ensures { Writes (W.contents out.old) (W.contents out.new) result (choice_text ship_modes chosen.now) }
{
    write_chosen_lines(out, ship_modes, chosen)?;
    flush(out)
}

fn write_chosen_lines<W: Write>(
    out: &mut W,
    ship_modes: bool,
    chosen: &[Chosen],
) -> Result<(), Fault>
    ensures { Writes (W.contents out.old) (W.contents out.new) result (choice_text ship_modes chosen.now) }
{
    for one in chosen {
        write_chosen(out, ship_modes, one)?;
    }
    Ok(())
}

// Writes the line of a view that was chosen.
fn write_chosen<W: Write>(out: &mut W, ship_modes: bool, one: &Chosen) -> Result<(), Fault>
    ensures { Writes (W.contents out.old) (W.contents out.new) result (chosen_line ship_modes one.now) }
{
    write_view(out, ship_modes, one.view)?;
    write_named(out, b" benefit ", one.benefit)
}

/// Writes a view of the lattice with or without ship mode as an axis.
pub(crate) fn write_view<W: Write>(out: &mut W, ship_modes: bool, view: View) -> Result<(), Fault>
    ensures { Writes (W.contents out.old) (W.contents out.new) result (view_text ship_modes view) }
{
    let mut index = Buffer::new();
    let parts: [&[u8]; 11] = [
        b"view ",
        index.format(view.index()).as_bytes(),
        b" ",
        view.customer.name(Axis::Customer).as_bytes(),
        b"|",
        view.supplier.name(Axis::Supplier).as_bytes(),
        b"|",
        view.part.name(Axis::Part).as_bytes(),
        b"|",
        view.date.name(Axis::Date).as_bytes(),
        fifth_part(ship_modes, view).as_bytes(),
    ];
    write_parts(out, &parts)
}

// The fifth part of a view, with its bar, in the lattice that has it.
fn fifth_part(ship_modes: bool, view: View) -> &'static str
    ensures { result.now ≡ fifth_part ship_modes view }
{
    match (ship_modes, view.ship_mode) {
        (true, true) => "|shipmode",
        (true, false) => "|ALL",
        (false, _) => "",
    }
}

/// Writes that upkeep is done, and flushes it.
pub(crate) fn write_upkeep<W: Write>(out: &mut W) -> Result<(), Fault>
    ensures { Writes (W.contents out.old) (W.contents out.new) result upkeep_text }
{
    write_bytes(out, b"upkeep done\n")?;
    flush(out)
}

/// Writes that a warehouse is in the second layout, and flushes it.
pub(crate) fn write_second_layout<W: Write>(out: &mut W) -> Result<(), Fault>
    ensures { Writes (W.contents out.old) (W.contents out.new) result second_layout_text }
{
    write_bytes(out, b"layout 2\n")?;
    flush(out)
}

/// Writes what an audit answers, and flushes it.
pub(crate) fn write_audit<W: Write>(out: &mut W, yes: bool) -> Result<(), Fault>
    ensures { Writes (W.contents out.old) (W.contents out.new) result (audit_text yes) }
{
    write_audit_line(out, yes)?;
    flush(out)
}

fn write_audit_line<W: Write>(out: &mut W, yes: bool) -> Result<(), Fault>
    ensures { Writes (W.contents out.old) (W.contents out.new) result (audit_text yes) }
{
    match yes {
        true => write_bytes(out, b"audit yes\n"),
        false => write_bytes(out, b"audit no\n"),
    }
}

/// Writes parts one after another.
pub(crate) fn write_parts<W: Write>(out: &mut W, parts: &[&[u8]]) -> Result<(), Fault>
    ensures { Writes (W.contents out.old) (W.contents out.new) result (flat_map (λ part. part.now) parts.now) }
{
    for part in parts {
        write_bytes(out, part)?;
    }
    Ok(())
}

// Writes a line of a name and a number.
fn write_named<W: Write>(out: &mut W, name: &[u8], number: u64) -> Result<(), Fault>
    ensures { Writes (W.contents out.old) (W.contents out.new) result (named_line name.now number) }
{
    write_bytes(out, name)?;
    write_number(out, number)?;
    write_bytes(out, b"\n")
}
