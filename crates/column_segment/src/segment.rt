//! A batch as the bytes that it was read from, which are kept and looked at as columns.
ghost use Rattle.std.specs.Prelude.{◌≡◌, ◌↔◌, ◌⊎◌, ◌++◌, ◌<◌, ◌≤◌, ℕ, List, All, length, map, take, drop, IsTrue};
ghost use Rattle.std.specs.Prelude.{IfErr};
ghost use Rattle.std.specs.Prelude.{IfOk, IsOkUnless, OnOk};
ghost use Rattle.cube_model.specs.declared.fault.Fault.{Fault};
ghost use Rattle.cube_model.specs.declared.rows.LineOrder.{LineOrder};
ghost use Rattle.cube_model.specs.Limits.{most_batch_rows};
ghost use Rattle.std.specs.Int.{from_le_bytes, w16};
ghost use Rattle.dictionary.specs.Columns.{text_of_code};
ghost use Rattle.column_segment.specs.Columns.{text_of};
ghost use Rattle.column_segment.specs.Segment.{FitColumns, IsBatch, IsSegment};

use crate::columns::TextColumn;
use crate::fact_columns::FactColumns;
use crate::layout::{Layout, code_chunks};
use crate::reading::read_layout;
use crate::rows::push_each;
use cube_model::{Fault, LineOrder};
use dictionary::Dictionary;
use std::alloc::Global;
use std::marker::Model;

/// A batch whose bytes were checked: its number, and its rows in order.
pub struct Segment {
    bytes: Vec<u8>,
    layout: Layout,
}

// Written out, so that a proof has one call to follow where a batch is let go.
impl Drop for Segment {
    fn drop(self) {
        let Segment {
            bytes: _,
            layout: _,
        } = self;
    }
}

impl Model for Segment {
    ghost use Rattle.column_segment.specs.Batch.{Batch};

    ghost Value = { Batch };

    ghost use Rattle.column_segment.specs.Decoded.{IsDecoded, decoded_rows};

    ghost view = { λ s. record { number = s.layout.number; rows = decoded_rows s.bytes.items s.layout } };

    ghost invariant = { λ s. IsDecoded s.bytes.items s.layout };
}

/// The batch that has these bytes.
///
/// `BadLayout` exactly where the bytes are those of no batch. It can also fail when out of memory.
pub fn decode(alloc: Global, bytes: Vec<u8>) -> Result<Segment, Fault>
    ensures ok { IfOk result (λ segment. IsSegment bytes.items segment.number segment.rows) }
    ensures refused { IfErr result (λ fault. (fault ≡ Fault.Memory) ⊎ ((fault ≡ Fault.BadLayout)
        × ((number : ℕ) (rows : List LineOrder) → ¬ IsSegment bytes.items number rows))) }
{
    let layout = read_layout(alloc, &bytes)?;
    Ok(Segment { bytes, layout })
}

impl Segment {
    /// The number of the batch.
    pub fn number(&self) -> u32
        ensures { result ≡ self.now.number }
    {
        self.layout.number
    }

    /// How many rows there are. They are a batch: at most 65,536 of them, with short texts and numbers in their ranges.
    pub fn len(&self) -> usize
        ensures count { result ≡ length self.now.rows }
        ensures batch { IsBatch self.now.rows }
        ensures fits { FitColumns self.now.rows }
    {
        self.layout.rows
    }

    /// Whether there is no row.
    pub fn is_empty(&self) -> bool
        ensures { IsTrue result ↔ (length self.now.rows ≡ 0) }
    {
        self.len() == 0
    }

    /// Adds rows to others, from a place on: so many, or as many as there are.
    ///
    /// It can only fail when out of memory. The rows that were added before are then left there.
    pub fn push_rows(
        &self,
        alloc: Global,
        from: usize,
        most: usize,
        to: &mut Vec<LineOrder>,
    ) -> Result<(), Fault>
        ensures ok { OnOk result (to.new.items ≡ to.old.items ++ take most (drop from self.now.rows)) }
        ensures memory { IsOkUnless result Fault.Memory }
    {
        let left = self.layout.rows.saturating_sub(from);
        push_each(alloc, &self.bytes, &self.layout, from, most.min(left), to)
    }

    /// The columns of numbers.
    pub fn columns(&self) -> FactColumns<'_>
        ensures rows { result ≡ self.now.rows }
        ensures few { length self.now.rows ≤ most_batch_rows }
    {
        FactColumns::of(&self.bytes, &self.layout)
    }

    /// A column of texts: the texts that are in it, and for each row the code of its text, which is a place among them,
    /// in two bytes, the lowest first.
    pub fn coded(&self, column: TextColumn) -> (&Dictionary, &[[u8; 2]])
        ensures below { All (λ code. code < length result.0.now.texts) (map (from_le_bytes w16) result.1.now) }
        ensures texts { map (text_of_code result.0.now.texts) (map (from_le_bytes w16) result.1.now)
            ≡ map (text_of column) self.now.rows }
        ensures few { length result.0.now.texts ≤ most_batch_rows }
    {
        let coded = self.layout.texts.column(column);
        (
            &coded.texts,
            code_chunks(&self.bytes, self.layout.rows, coded.at),
        )
    }
}
