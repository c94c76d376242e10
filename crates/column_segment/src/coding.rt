//! The columns of texts of a batch while its rows are added: the texts that were seen, and the code of each row's.
#![tactic(auto, unfolding(wire::specs::Spelling::spelling))]

ghost use Rattle.std.specs.Prelude.{◌≡◌, ◌<◌, ◌∷◌, ◌++◌, [], ℕ, List, Some, IfOk, IsOkUnless};
ghost use Rattle.std.specs.Prelude.{OnOk};
ghost use Rattle.std.specs.List.{flat_map};
ghost use Rattle.cube_model.specs.declared.rows.LineOrder.{LineOrder};
ghost use Rattle.wire.specs.Spelling.{spelling};
ghost use Rattle.dictionary.specs.Columns.{column_spelling};
ghost use Rattle.dictionary.specs.Dictionary.{Adds};
ghost use Rattle.dictionary.specs.Spelling.{AreShort};
ghost use Rattle.column_segment.specs.Coding.{AreCoded, AreCodesOf};
ghost use Rattle.column_segment.specs.Columns.{text_columns};
ghost use Rattle.column_segment.specs.Segment.{text_column};

use crate::columns::TextColumn;
use crate::gathering::push_column;
use cube_model::limits::MOST_BATCH_ROWS;
use cube_model::{Fault, LineOrder};
use dictionary::Dictionary;
use std::alloc::Global;

/// A column of texts.
pub(crate) struct Coding {
    texts: Dictionary,
    codes: Vec<[u8; 2]>,
}

// Written out, so that a proof has one call to follow where a column is let go.
impl Drop for Coding {
    fn drop(self) {
        let Coding { texts: _, codes: _ } = self;
    }
}

impl Coding {
    ghost use Rattle.column_segment.specs.Encoding.{CodingHasRoom, IsCoding};

    // That of no row, with room for the codes of so many.
    fn new(alloc: Global, rows: usize) -> Result<Coding, Fault>
        ensures ok { IfOk result (IsCoding []) }
        ensures memory { IsOkUnless result Fault.Memory }
    {
        Ok(Coding {
            texts: Dictionary::new(alloc, MOST_BATCH_ROWS as u32),
            codes: Vec::with_capacity(alloc, rows)?,
        })
    }

    // Adds a row's text, which may have a code. There is room for one text more.
    #[inline(always)]
    fn push(&mut self, alloc: Global, text: &[u8]) -> Result<(), Fault>
        requires room { CodingHasRoom self.old }
        ensures ok { OnOk result ((column : List (List ℕ)) → IsCoding column self.old
            → IsCoding (column ++ text.now ∷ []) self.new) }
        ensures memory { IsOkUnless result Fault.Memory }
    {
        match self.texts.add(alloc, text)? {
            Some(code) => put_code(&mut self.codes, code as u16),
            None => unreachable!(),
        }
    }

    // Adds the column to bytes: its dictionary, then a code a row.
    fn push_to(&self, out: &mut Vec<u8>) -> Result<(), Fault>
        requires short { AreShort self.now.texts.texts }
        ensures ok { OnOk result ((column : List (List ℕ)) → IsCoding column self.now
            → out.new.items ≡ out.old.items ++ column_spelling column) }
        ensures memory { IsOkUnless result Fault.Memory }
    {
        self.texts.push_to(out)?;
        push_column(out, &self.codes)
    }
}

/// The texts of rows.
#[derive(Drop)]
pub(crate) struct Texts {
    orderpriority: Coding,
    shippriority: Coding,
    commitdate: Coding,
    shipmode: Coding,
}

impl Texts {
    ghost use Rattle.column_segment.specs.Coding.{AreModesOf};
    ghost use Rattle.column_segment.specs.Encoding.{AreOfBatch, CodingsHaveRoom, HaveTexts};

    // Those of no row, with room for the codes of so many.
    pub(crate) fn new(alloc: Global, rows: usize) -> Result<Texts, Fault>
        ensures ok { IfOk result (HaveTexts []) }
        ensures memory { IsOkUnless result Fault.Memory }
    {
        Ok(Texts {
            orderpriority: Coding::new(alloc, rows)?,
            shippriority: Coding::new(alloc, rows)?,
            commitdate: Coding::new(alloc, rows)?,
            shipmode: Coding::new(alloc, rows)?,
        })
    }

    // Adds those of a row.
    #[inline(always)]
    pub(crate) fn push(&mut self, alloc: Global, row: &LineOrder) -> Result<(), Fault>
        requires room { CodingsHaveRoom self.old }
        ensures ok { OnOk result ((rows : List LineOrder) → HaveTexts rows self.old
            → HaveTexts (rows ++ row.now ∷ []) self.new) }
        ensures memory { IsOkUnless result Fault.Memory }
    {
        self.orderpriority
            .push(alloc, TextColumn::OrderPriority.of(row))?;
        self.shippriority
            .push(alloc, TextColumn::ShipPriority.of(row))?;
        self.commitdate.push(alloc, TextColumn::CommitDate.of(row))?;
        self.shipmode.push(alloc, TextColumn::ShipMode.of(row))
    }

    // The ship modes, each once, and the code of each row's.
    pub(crate) fn ship_modes(&self) -> (&Dictionary, &[[u8; 2]])
        ensures { (rows : List LineOrder) → HaveTexts rows self.now
            → AreModesOf rows result.0.now.texts result.1.now }
    {
        coded_column(&self.shipmode.texts, &self.shipmode.codes)
    }

    // Adds the columns to bytes.
    pub(crate) fn push_to(&self, out: &mut Vec<u8>) -> Result<(), Fault>
        requires batch { AreOfBatch self.now }
        ensures ok { OnOk result ((rows : List LineOrder) → HaveTexts rows self.now
            → out.new.items ≡ out.old.items ++ flat_map (text_column rows) text_columns) }
        ensures memory { IsOkUnless result Fault.Memory }
    {
        self.orderpriority.push_to(out)?;
        self.shippriority.push_to(out)?;
        self.commitdate.push_to(out)?;
        self.shipmode.push_to(out)
    }
}

// A column of texts: its dictionary, and the code of each row's.
fn coded_column<'a>(texts: &'a Dictionary, codes: &'a [[u8; 2]]) -> (&'a Dictionary, &'a [[u8; 2]])
    ensures { (column : List (List ℕ)) → AreCoded column texts.now (flat_map (λ code. code) codes.now)
        → AreCodesOf column result.0.now.texts result.1.now }
{
    (texts, codes)
}

// Adds a code.
#[inline(always)]
fn put_code(to: &mut Vec<[u8; 2]>, code: u16) -> Result<(), Fault>
    ensures ok { OnOk result (to.new.items ≡ to.old.items ++ spelling 2 code ∷ []) }
    ensures memory { IsOkUnless result Fault.Memory }
{
    to.push(u16::to_le_bytes(code))?;
    Ok(())
}
