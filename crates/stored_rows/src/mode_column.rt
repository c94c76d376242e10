//! The ship modes of the rows of a batch, decoded from its last column of texts.
ghost use Rattle.std.specs.Prelude.{◌≡◌, ◌⊎◌, ◌≤◌, List, length, IfErr, IfOk};
ghost use Rattle.cube_model.specs.declared.fault.Fault.TheVariants.{BadLayout, Memory};
ghost use Rattle.cube_model.specs.declared.rows.LineOrder.{LineOrder};
ghost use Rattle.cube_model.specs.Limits.{most_batch_rows};
ghost use Rattle.cube_model.specs.ShipModes.{modes_in};
ghost use Rattle.batch_admission.specs.ShipModes.{AreCodesAmong, texts_by};
ghost use Rattle.column_segment.specs.Reading.{BeginsWithNoColumn};
ghost use Rattle.dictionary.specs.Spelling.{AreShort};
ghost use Rattle.stored_rows.specs.TextColumns.{SpellLast, TakesColumn};

use cube_model::Fault;
use cube_model::limits::MOST_BATCH_ROWS;
use dictionary::{Dictionary, are_codes};
use std::alloc::Global;
use std::marker::Model;
use wire::Cursor;

/// The ship mode of each row of a batch, in order: the different ones, and the code of each row's, in two bytes, the
/// lowest first.
///
/// Contracts see the list of the rows' ship modes.
pub(crate) struct ModeColumn {
    texts: Dictionary,
    codes: Vec<[u8; 2]>,
}

// Written out, so that a proof has one call to follow where one is let go.
impl Drop for ModeColumn {
    fn drop(self) {
        let ModeColumn { texts: _, codes: _ } = self;
    }
}

impl Model for ModeColumn {
    ghost use Rattle.std.specs.Prelude.{ℕ, List};
    ghost use Rattle.batch_admission.specs.ShipModes.{texts_by};
    ghost use Rattle.stored_rows.specs.TextColumns.{IsCoded};

    ghost Value = { List (List ℕ) };

    ghost view = { λ column. texts_by column.texts.texts column.codes.items };

    ghost invariant = { λ column. IsCoded column.texts.texts column.codes.items };
}

impl ModeColumn {
    /// The ship modes of the batch of so many rows that has this last column of texts.
    ///
    /// `BadLayout` where it is that of no such batch. It can also fail when out of memory.
    pub(crate) fn decode(alloc: Global, bytes: &[u8], rows: usize) -> Result<ModeColumn, Fault>
        requires few { rows ≤ most_batch_rows }
        ensures ok { IfOk result (λ column. (others : List LineOrder)
            → SpellLast rows bytes.now others → column ≡ modes_in others) }
        ensures count { IfOk result (λ column. length column ≡ rows) }
        ensures refused { IfErr result (λ fault. (fault ≡ Memory) ⊎ ((fault ≡ BadLayout)
            × ((others : List LineOrder) → ¬ SpellLast rows bytes.now others))) }
    {
        let mut cursor = Cursor::new(bytes);
        let (texts, part) = take_column(alloc, &mut cursor, rows)?;
        let codes = part.as_chunks::<2>().0;
        if !cursor.is_empty() || !are_codes(codes, texts.len() as u32) {
            return Err(Fault::BadLayout);
        }
        let codes = Vec::from_slice(alloc, codes)?;
        Ok(ModeColumn { texts, codes })
    }

    /// The different ship modes, and the code of each row's, which is a place among them.
    pub(crate) fn coded(&self) -> (&Dictionary, &[[u8; 2]])
        ensures below { AreCodesAmong result.0.now.texts result.1.now }
        ensures texts { texts_by result.0.now.texts result.1.now ≡ self.now }
        ensures few { length result.1.now ≤ most_batch_rows }
        ensures short { AreShort self.now }
    {
        (&self.texts, &self.codes)
    }
}

// Takes a column of texts from the front of bytes: its dictionary, and the bytes of the codes of so many rows.
fn take_column<'a>(
    alloc: Global,
    cursor: &mut Cursor<'a>,
    rows: usize,
) -> Result<(Dictionary, &'a [u8]), Fault>
    requires few { rows ≤ most_batch_rows }
    ensures ok { IfOk result (λ taken. TakesColumn rows cursor.old cursor.new taken.0.texts taken.1.now) }
    ensures refused { IfErr result (λ fault. (fault ≡ Memory) ⊎ ((fault ≡ BadLayout)
        × BeginsWithNoColumn rows cursor.old)) }
{
    let texts = Dictionary::read(alloc, cursor, MOST_BATCH_ROWS as u32)?;
    let codes = cursor.bytes(2 * rows)?;
    Ok((texts, codes))
}
