//! Spelling a batch.
ghost use Rattle.std.specs.Prelude.{◌≡◌, ◌≤◌, ◌+◌, ◌++◌, [], List, length, IfOk, IsOkUnless, OnOk};
ghost use Rattle.cube_model.specs.declared.rows.LineOrder.{LineOrder};
ghost use Rattle.column_segment.specs.Encoding.{HaveFewTexts, HaveTexts};
ghost use Rattle.column_segment.specs.Segment.{IsBatch, segment_header, segment_of};

use crate::coding::Texts;
use crate::gathering::{Figures, Keys, PIECE};
use cube_model::{Fault, LineOrder};
use dictionary::Dictionary;
use std::alloc::Global;
use wire::{push_bytes, push_u32};

// The first bytes of each segment.
pub(crate) const NAME: &[u8] = b"SEG1";

// How much room a row is given: it takes 71 bytes, and more where its texts are seen for the first time. Room that is
// not used costs nothing.
const ROW_BYTES: usize = 96;

// The header, and the numbers of texts.
const OTHER_BYTES: usize = 28;

/// The bytes of a batch. It has at most 65,536 rows, and no text above 255 bytes.
///
/// It can only fail when out of memory.
pub fn encode(alloc: Global, number: u32, rows: &[LineOrder]) -> Result<Vec<u8>, Fault>
    requires batch { IsBatch rows.now }
    ensures ok { IfOk result (λ bytes. bytes.items ≡ segment_of number rows.now) }
    ensures memory { IsOkUnless result Fault.Memory }
{
    let mut columns = BatchColumns::new(alloc, rows.len())?;
    columns.push(alloc, rows)?;
    columns.encode(alloc, number)
}

fn push_header(out: &mut Vec<u8>, number: u32, rows: u32) -> Result<(), Fault>
    ensures ok { OnOk result (out.new.items ≡ out.old.items ++ segment_header number rows) }
    ensures memory { IsOkUnless result Fault.Memory }
{
    push_bytes(out, NAME)?;
    push_u32(out, number)?;
    push_u32(out, rows)
}

/// The columns of a batch while its rows are added. Contracts say of which rows they are the columns.
///
/// Rows that are added a few hundred at a time are read while they lie near the processor still.
pub struct BatchColumns {
    keys: Keys,
    figures: Figures,
    texts: Texts,
}

// Written out, so that a proof has one call to follow where the columns are let go.
impl Drop for BatchColumns {
    fn drop(self) {
        let BatchColumns {
            keys: _,
            figures: _,
            texts: _,
        } = self;
    }
}

impl BatchColumns {
    ghost use Rattle.column_segment.specs.Coding.{AreModesOf};
    ghost use Rattle.column_segment.specs.Encoding.{AreColumnsOfBatch, HaveFew, HaveRows};

    /// Those of no row, with room for so many rows.
    pub fn new(alloc: Global, rows: usize) -> Result<BatchColumns, Fault>
        ensures ok { IfOk result (HaveRows []) }
        ensures memory { IsOkUnless result Fault.Memory }
    {
        Ok(BatchColumns {
            keys: Keys::new(alloc, rows)?,
            figures: Figures::new(alloc, rows)?,
            texts: Texts::new(alloc, rows)?,
        })
    }

    /// Adds rows after those before, with which they are at most 65,536. It can only fail when out of memory.
    pub fn push(&mut self, alloc: Global, rows: &[LineOrder]) -> Result<(), Fault>
        requires few { HaveFew (length rows.now) self.old }
        ensures ok { OnOk result ((before : List LineOrder) → HaveRows before self.old
            → HaveRows (before ++ rows.now) self.new) }
        ensures memory { IsOkUnless result Fault.Memory }
    {
        for piece in 0..rows.len().div_ceil(PIECE) {
            let from = piece * PIECE;
            let to = rows.len().min(from + PIECE);
            self.push_piece(alloc, &rows[from..to])?;
        }
        Ok(())
    }

    // Adds the rows of a piece. Numbers and texts are written in loops of their own: a processor does not keep all
    // columns at hand.
    fn push_piece(&mut self, alloc: Global, rows: &[LineOrder]) -> Result<(), Fault>
        requires piece { length rows.now ≤ PIECE }
        requires few { HaveFew (length rows.now) self.old }
        ensures ok { OnOk result ((before : List LineOrder) → HaveRows before self.old
            → HaveRows (before ++ rows.now) self.new) }
        ensures memory { IsOkUnless result Fault.Memory }
    {
        self.keys.push(rows)?;
        self.figures.push(rows)?;
        push_texts(&mut self.texts, alloc, rows)
    }

    /// The ship modes of the rows that were added: each once in the order of first use, and for each row the code of
    /// its ship mode, which is a place among them, in two bytes, the lowest first.
    pub fn ship_modes(&self) -> (&Dictionary, &[[u8; 2]])
        ensures { (rows : List LineOrder) → HaveRows rows self.now
            → AreModesOf rows result.0.now.texts result.1.now }
    {
        self.texts.ship_modes()
    }

    /// The bytes of the batch. It can only fail when out of memory.
    pub fn encode(&self, alloc: Global, number: u32) -> Result<Vec<u8>, Fault>
        requires batch { AreColumnsOfBatch self.now }
        ensures ok { IfOk result (λ bytes. (rows : List LineOrder) → HaveRows rows self.now
            → bytes.items ≡ segment_of number rows) }
        ensures memory { IsOkUnless result Fault.Memory }
    {
        let mut out = Vec::with_capacity(alloc, OTHER_BYTES + ROW_BYTES * self.keys.len())?;
        self.push_to(&mut out, number)?;
        Ok(out)
    }

    // Adds the batch to bytes.
    fn push_to(&self, out: &mut Vec<u8>, number: u32) -> Result<(), Fault>
        requires batch { AreColumnsOfBatch self.now }
        ensures ok { OnOk result ((rows : List LineOrder) → HaveRows rows self.now
            → out.new.items ≡ out.old.items ++ segment_of number rows) }
        ensures memory { IsOkUnless result Fault.Memory }
    {
        push_header(out, number, self.keys.len() as u32)?;
        self.keys.push_to(out)?;
        self.figures.push_to(out)?;
        self.texts.push_to(out)
    }
}

// Adds the texts of rows.
fn push_texts(texts: &mut Texts, alloc: Global, rows: &[LineOrder]) -> Result<(), Fault>
    requires few { HaveFewTexts (length rows.now) texts.old }
    ensures ok { OnOk result ((before : List LineOrder) → HaveTexts before texts.old
        → HaveTexts (before ++ rows.now) texts.new) }
    ensures memory { IsOkUnless result Fault.Memory }
{
    for place in 0..rows.len() {
        texts.push(alloc, &rows[place])?;
    }
    Ok(())
}
