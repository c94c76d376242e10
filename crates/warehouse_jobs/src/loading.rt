//! Loading the fact rows of a file.
ghost use Rattle.std.specs.Prelude.{◌≡◌, ◌≤◌, ◌++◌, [], List, Option, None, length, IfOk, IfErr, IfSome, OnOk, ℕ};
ghost use Rattle.std.specs.Prelude.{IsOkUnless};
ghost use Rattle.std.specs.Io.KnownBytes.{Keeps};
ghost use Rattle.cube_model.specs.declared.rows.LineOrder.{LineOrder};
ghost use Rattle.cube_model.specs.Limits.{most_batch_rows};
ghost use Rattle.batch_loader.specs.Reading.{RefusesBatch, TakesBatch};
ghost use Rattle.batch_loader.specs.Tables.{lineorder_row};
ghost use Rattle.dimension_tables.specs.Tables.{KeepsLine};
ghost use Rattle.ssb_eval.specs.Tables.{IsInNoRow};
ghost use Rattle.ssb_reports.specs.Writing.{Writes};
ghost use Rattle.warehouse_objects.specs.Warehouse.{Warehouse};
ghost use Rattle.warehouse.specs.Growing.{CanGrow, Grows, IsOfSession};
ghost use Rattle.warehouse.specs.Session.{ForItsWarehouse, IsAt, KeptBefore, device_of};
ghost use Rattle.warehouse_jobs.specs.Loading.{DoesBatch, Loads, LoadIsRefused, DeviceTakesBatch};
ghost use Rattle.warehouse_jobs.specs.Steps.{Steps};
ghost use Rattle.warehouse_jobs.specs.Printed.{count_line};

use crate::job::{BatchNumber, BatchRows};
use crate::printing::{write_batch, write_count};
use crate::taken::Taken;
use batch_loader::{Lines, read_batch_into};
use cube_model::limits::MOST_BATCHES;
use cube_model::{Fault, Items, LineOrder};
use sector_device::Sectors;
use ssb_eval::{UnknownKey, keep_unknown};
use std::alloc::Global;
use std::io::{Read, Write};
use std::marker::Model;
use warehouse::{GrowingBatch, Session};

// How many rows are read, looked at and written as columns together.
const PIECE_ROWS: usize = 1_024;

// A load does no more batches than a warehouse may have, and its next step ends it.
const MOST_STEPS: u32 = MOST_BATCHES as u32 + 1;

/// The fact rows of a load, line by line. After a refusal it has what was refused.
pub struct LoadText<R: Read + Drop> {
    lines: Lines<R>,
    kept: Kept,
}

// Written out, so that a proof has one call to follow where one is let go.
impl<R: Read + Drop> Drop for LoadText<R> {
    fn drop(self) {
        let LoadText { lines: _, kept: _ } = self;
    }
}

// What is kept of the batch that was read last.
#[derive(Clone, Copy)]
struct Kept {
    rows: u32,
    unknown: Option<UnknownKey>,
}

impl<R: Read + Drop> Model for LoadText<R> {
    ghost use Rattle.warehouse_jobs.specs.Loading.{LoadLines};

    ghost Value = { LoadLines };

    ghost view = { λ text. record {
      lines = text.lines;
      rows = text.kept.rows;
      unknown = text.kept.unknown;
    } };
}

impl<R: Read + Drop> LoadText<R> {
    /// The text that a reader gives. It can only fail when out of memory.
    pub fn new(alloc: Global, lineorder: R) -> Result<LoadText<R>, Fault>
        ensures left { IfOk result (λ text. Keeps (R.remaining lineorder) text.lines.left) }
        ensures number { IfOk result (λ text. text.lines.number ≡ 0) }
        ensures fault { IfOk result (λ text. text.lines.fault ≡ None) }
        ensures unknown { IfOk result (λ text. text.unknown ≡ None) }
        ensures err { IsOkUnless result Fault.Memory }
    {
        let lines = Lines::new(alloc, lineorder)?;
        let kept = Kept {
            rows: 0,
            unknown: None,
        };
        Ok(LoadText { lines, kept })
    }

    /// The line that was read last. Where the text is refused, it is the line that is, except where that is too long or
    /// a read failed.
    pub fn line(&self) -> &[u8]
        ensures { result.now ≡ self.now.lines.line }
    {
        self.lines.line()
    }

    /// How many rows the batch has that was read last.
    pub fn rows(&self) -> u32
        ensures { result ≡ self.now.rows }
    {
        self.kept.rows
    }

    /// The key for which a batch is refused.
    pub fn unknown(&self) -> Option<UnknownKey>
        ensures { result ≡ self.now.unknown }
    {
        self.kept.unknown
    }
}

/// Adds the batches of a text, and writes a line for each, and how many there are then, as `perform` says it of a load.
pub fn load<D: Sectors, R: Read + Drop, W: Write>(
    alloc: Global,
    session: &mut Session<D>,
    first: BatchNumber,
    rows: BatchRows,
    lineorder: &mut LoadText<R>,
    out: &mut W,
) -> Result<(), Fault>
    // Of a text of which no line was taken yet.
    ensures loads { (w : Warehouse) (text : Option (List ℕ)) → IsAt D.Sectors session.old w
        → D.keeps_word (device_of session.new)
        → Keeps text lineorder.old.lines.left → lineorder.old.lines.number ≡ 0 → lineorder.old.lines.fault ≡ None
        → Loads D.Sectors w first rows text session.old session.new (W.contents out.old) (W.contents out.new) result }
    ensures word { KeptBefore D.Sectors session.old session.new }

    // After a refusal the text has the line that is refused, or a key that is in no row of its dimension.
    ensures line { lineorder.old.lines.fault ≡ None → KeepsLine lineorder_row lineorder.new.lines }
    ensures unknown { ForItsWarehouse D.Sectors session.old session.new (λ w. lineorder.old.lines.number ≡ 0
        → lineorder.old.unknown ≡ None → IfSome lineorder.new.unknown (IsInNoRow w.rows)) }
{
    if let Some(fault) = lineorder.lines.fault() {
        return Err(fault);
    }
    let LoadText { lines, kept } = lineorder;
    load_lines(alloc, session, first.get(), rows.get(), lines, kept, out)
}

/// Adds the batches of what a reader gives.
pub(crate) fn load_from<D: Sectors, R: Read + Drop, W: Write>(
    alloc: Global,
    session: &mut Session<D>,
    first: BatchNumber,
    rows: BatchRows,
    lineorder: R,
    out: &mut W,
) -> Result<(), Fault>
    ensures loads { ForItsWarehouse D.Sectors session.old session.new
        (λ w. Loads D.Sectors w first rows (R.remaining lineorder) session.old session.new (W.contents out.old)
        (W.contents out.new) result) }
    ensures word { KeptBefore D.Sectors session.old session.new }
{
    let mut text = LoadText::new(alloc, lineorder)?;
    load(alloc, session, first, rows, &mut text, out)
}

// Adds the batches of some lines, so many lines a batch, the first one with a number.
fn load_lines<D: Sectors, R: Read, W: Write>(
    alloc: Global,
    session: &mut Session<D>,
    first: u32,
    size: usize,
    lines: &mut Lines<R>,
    kept: &mut Kept,
    out: &mut W,
) -> Result<(), Fault>
    requires positive { 1 ≤ first }
    requires some { 1 ≤ size }
    requires few { size ≤ most_batch_rows }
    requires fault { lines.old.fault ≡ None }
    ensures loads { (w : Warehouse) (text : Option (List ℕ)) → IsAt D.Sectors session.old w → Keeps text lines.old.left
        → lines.old.number ≡ 0
        → D.keeps_word (device_of session.new)
        → Loads D.Sectors w first size text session.old session.new (W.contents out.old) (W.contents out.new) result }
    ensures word { KeptBefore D.Sectors session.old session.new }
    ensures line { KeepsLine lineorder_row lines.new }
    ensures unknown { ForItsWarehouse D.Sectors session.old session.new
        (λ w. lines.old.number ≡ 0 → kept.old.unknown ≡ None → IfSome kept.new.unknown (IsInNoRow w.rows)) }
{
    for done in 0..MOST_STEPS {
        let number = first.saturating_add(done);
        match load_next(alloc, session, number, size, lines, kept, out) {
            Ok(true) => {}
            Ok(false) => return end(session, out),
            Err(fault) => return Err(fault),
        }
    }
    Err(Fault::TooManyBatches) // no load has so many steps
}

// Does the next batch of a text, with a number, and says whether there was one.
fn load_next<D: Sectors, R: Read, W: Write>(
    alloc: Global,
    session: &mut Session<D>,
    number: u32,
    size: usize,
    lines: &mut Lines<R>,
    kept: &mut Kept,
    out: &mut W,
) -> Result<bool, Fault>
    requires few { size ≤ most_batch_rows }
    requires fault { lines.old.fault ≡ None }
    ensures steps { ForItsWarehouse D.Sectors session.old session.new
        (λ w. Steps D.Sectors size w number lines.old lines.new session.old session.new (W.contents out.old)
        (W.contents out.new) result) }
    ensures fault { OnOk result (lines.new.fault ≡ None) }
    ensures line { KeepsLine lineorder_row lines.new }
    ensures unknown { ForItsWarehouse D.Sectors session.old session.new (λ w. IfSome kept.old.unknown (IsInNoRow w.rows)
        → IfSome kept.new.unknown (IsInNoRow w.rows)) }
    ensures word { KeptBefore D.Sectors session.old session.new }
{
    let batch = next_batch(alloc, session, lines, size, &mut kept.unknown)?;
    kept.rows = batch.row_count();
    if kept.rows == 0 {
        return Ok(false);
    }
    load_batch(alloc, session, number, &batch, out)?;
    Ok(true)
}

// Reads the next batch of a text, so many rows, and fewer only at its end.
fn next_batch<D: Sectors, R: Read>(
    alloc: Global,
    session: &Session<D>,
    lines: &mut Lines<R>,
    size: usize,
    unknown: &mut Option<UnknownKey>,
) -> Result<GrowingBatch, Fault>
    requires few { size ≤ most_batch_rows }
    requires fault { lines.old.fault ≡ None }
    ensures ok { IfOk result (λ batch. (rows : List LineOrder) × TakesBatch lineorder_row size lines.old lines.new rows
        × Grows session.now rows batch) }
    ensures refused { IfErr result (RefusesBatch lineorder_row size lines.old) }
    ensures line { KeepsLine lineorder_row lines.new }
    ensures unknown { ForItsWarehouse D.Sectors session.now session.now (λ w. IfSome unknown.old (IsInNoRow w.rows)
        → IfSome unknown.new (IsInNoRow w.rows)) }
{
    let mut batch = session.begin_batch(alloc, size)?;
    fill(alloc, session, lines, size, &mut batch, unknown)?;
    Ok(batch)
}

// Puts the rows of the next lines into a batch of none, so many, and fewer only at the end of the text. Each piece of
// them is looked at and written as columns while it lies near the processor still.
fn fill<D: Sectors, R: Read>(
    alloc: Global,
    session: &Session<D>,
    lines: &mut Lines<R>,
    size: usize,
    batch: &mut GrowingBatch,
    unknown: &mut Option<UnknownKey>,
) -> Result<(), Fault>
    requires few { size ≤ most_batch_rows }
    requires fault { lines.old.fault ≡ None }
    requires none { Grows session.now [] batch.old }
    ensures ok { OnOk result ((rows : List LineOrder) × TakesBatch lineorder_row size lines.old lines.new rows
        × Grows session.now rows batch.new) }
    ensures refused { IfErr result (RefusesBatch lineorder_row size lines.old) }
    ensures line { KeepsLine lineorder_row lines.new }
    ensures unknown { ForItsWarehouse D.Sectors session.now session.now (λ w. IfSome unknown.old (IsInNoRow w.rows)
        → IfSome unknown.new (IsInNoRow w.rows)) }
{
    let mut rows = Items::new(alloc);
    for piece in 0..size.div_ceil(PIECE_ROWS) {
        let most = PIECE_ROWS.min(size - piece * PIECE_ROWS);
        rows = next_piece(alloc, session, lines, most, rows, batch, unknown)?;
        if rows.len() < most {
            return Ok(());
        }
    }
    Ok(())
}

// Reads so many further rows, fewer only at the end of the text, into the room of earlier ones, and adds them to a
// batch.
fn next_piece<D: Sectors, R: Read>(
    alloc: Global,
    session: &Session<D>,
    lines: &mut Lines<R>,
    most: usize,
    done: Items<LineOrder>,
    batch: &mut GrowingBatch,
    unknown: &mut Option<UnknownKey>,
) -> Result<Items<LineOrder>, Fault>
    requires few { CanGrow session.now most batch.old }
    requires fault { lines.old.fault ≡ None }
    ensures taken { IfOk result (TakesBatch lineorder_row most lines.old lines.new) }
    ensures grown { IfOk result (λ rows. (before : List LineOrder) → Grows session.now before batch.old
        → Grows session.now (before ++ rows) batch.new) }
    ensures refused { IfErr result (RefusesBatch lineorder_row most lines.old) }
    ensures line { KeepsLine lineorder_row lines.new }
    ensures unknown { ForItsWarehouse D.Sectors session.now session.now (λ w. IfSome unknown.old (IsInNoRow w.rows)
        → IfSome unknown.new (IsInNoRow w.rows)) }
{
    let rows = read_batch_into(alloc, lines, most, done)?;
    session.add_rows(alloc, batch, rows.as_slice())?;
    let last = lines.number();
    keep_unknown(
        session.dims(),
        batch.cause(),
        rows.as_slice(),
        last,
        unknown,
    );
    Ok(rows)
}

// Writes how many batches the warehouse has.
fn end<D: Sectors, W: Write>(session: &Session<D>, out: &mut W) -> Result<(), Fault>
    ensures { ForItsWarehouse D.Sectors session.now session.now
        (λ w. Writes (W.contents out.old) (W.contents out.new) result (count_line (length w.batches))) }
{
    write_count(out, session.status()?.batches)
}

// Does the batch of a number, and then writes its line.
fn load_batch<D: Sectors, W: Write>(
    alloc: Global,
    session: &mut Session<D>,
    number: u32,
    batch: &GrowingBatch,
    out: &mut W,
) -> Result<(), Fault>
    requires batch { IsOfSession session.old batch.now }
    ensures does { (w : Warehouse) (rows : List LineOrder) → IsAt D.Sectors session.old w
        → Grows session.old rows batch.now → D.keeps_word (device_of session.new)
        → DoesBatch D.Sectors w number rows session.old session.new (W.contents out.old) (W.contents out.new) result }
    ensures word { KeptBefore D.Sectors session.old session.new }
{
    let taken = take_in(alloc, session, number, batch)?;
    write_batch(out, number, batch.row_count() as usize, taken)
}

// Adds the batch of a number. Where a batch of that number is there already, it is passed over if it is this one, row
// by row.
fn take_in<D: Sectors>(
    alloc: Global,
    session: &mut Session<D>,
    number: u32,
    batch: &GrowingBatch,
) -> Result<Taken, Fault>
    requires batch { IsOfSession session.old batch.now }
    ensures taken { IfOk result (λ taken. (w : Warehouse) (rows : List LineOrder) → IsAt D.Sectors session.old w
        → Grows session.old rows batch.now → D.keeps_word (device_of session.new)
        → DeviceTakesBatch D.Sectors w number rows session.old session.new taken) }
    ensures refused { IfErr result (λ fault. (w : Warehouse) (rows : List LineOrder) → IsAt D.Sectors session.old w
        → Grows session.old rows batch.now → D.keeps_word (device_of session.new)
        → LoadIsRefused D.Sectors w number rows session.old session.new fault) }
    ensures word { KeptBefore D.Sectors session.old session.new }
{
    if number > session.status()?.batches {
        session.submit_batch(alloc, number, batch)?;
        return Ok(Taken::Added);
    }
    if !session.has_batch(alloc, number, batch)? {
        return Err(Fault::Repeated);
    }
    Ok(Taken::Skipped)
}
