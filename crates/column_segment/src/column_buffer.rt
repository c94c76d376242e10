//! A buffer into which columns of one batch after another are read.
ghost use Rattle.std.specs.Prelude.{◌≡◌, [], ℕ, List, length, IfOk, IsErrOf, IsSomeAnd, OnOk};
ghost use Rattle.std.specs.List.{AllByRecursion};
ghost use Rattle.cube_model.specs.Causes.{EndsDecoding};
ghost use Rattle.cube_model.specs.declared.fault.Fault.{Fault};
ghost use Rattle.cube_model.specs.declared.rows.LineOrder.{LineOrder};
ghost use Rattle.wire.specs.Runs.{ReadsSourceOr};
ghost use Rattle.column_segment.specs.Projected.{AgreeOn, FitsColumnIn, HasColumns, HoldsNoneOf};
ghost use Rattle.column_segment.specs.Segment.{IsSegment};

use crate::columns::FactColumn;
use crate::fact_columns::FactColumns;
use crate::layout::{HEADER_BYTES, Layout, NUMBER_BYTES};
use crate::projecting::read_columns;
use cube_model::Fault;
use cube_model::limits::MOST_BATCH_ROWS;
use std::alloc::{AllocError, Global};
use std::marker::Model;
use wire::Source;

/// Columns of numbers of the batch that was read last, 63 bytes a row. Contracts see rows with these numbers,
/// whose texts are none.
///
/// A column that was not read has any numbers. The memory is used again for the next batch.
pub struct ColumnBuffer {
    bytes: Vec<u8>,
    layout: Layout,
}

// Written out, so that a proof has one call to follow where a buffer is let go.
impl Drop for ColumnBuffer {
    fn drop(self) {
        let ColumnBuffer {
            bytes: _,
            layout: _,
        } = self;
    }
}

impl Model for ColumnBuffer {
    ghost use Rattle.std.specs.Prelude.{List};
    ghost use Rattle.cube_model.specs.declared.rows.LineOrder.{LineOrder};
    ghost use Rattle.column_segment.specs.Decoded.{HoldsColumns, decoded_rows};

    ghost Value = { List LineOrder };

    ghost view = { λ b. decoded_rows b.bytes.items b.layout };

    ghost invariant = { λ b. HoldsColumns b.bytes.items b.layout.rows };
}

impl ColumnBuffer {
    /// A buffer with no row.
    pub fn new(alloc: Global) -> Result<ColumnBuffer, AllocError>
        ensures { IfOk result (λ buffer. buffer ≡ []) }
    {
        let bytes = vec![in alloc; 0; HEADER_BYTES]?;
        let layout = Layout::without_texts(alloc);
        Ok(ColumnBuffer { bytes, layout })
    }

    /// Reads columns of the batch of a number and of so many rows, which a source has at an id. Of a batch of few rows
    /// all columns of numbers are read at once, of any other the header and these columns alone, and a column not asked
    /// for is not checked.
    ///
    /// `BadLayout` where the header is another, where the text ends before the columns of numbers do, or where an
    /// amount that was read is none. It can also fail when out of memory, or with what the source answers. After an
    /// error the buffer has any rows.
    pub fn read<S: Source>(
        &mut self,
        source: &mut S,
        id: u32,
        number: u32,
        rows: u32,
        columns: &[FactColumn],
    ) -> Result<(), Fault>
        ensures count { OnOk result (length self.new ≡ rows) }

        // Whatever batch the text is that of, it has this number, and what was read of it.
        ensures ok { OnOk result (S.keeps_word source.new → IsSomeAnd (S.texts source.old id) (λ text.
            (other : ℕ) (others : List LineOrder) → IsSegment text other others
            → (other ≡ number) × AgreeOn columns.now self.new others)) }
        ensures checked { OnOk result
            (S.keeps_word source.new → IsSomeAnd (S.texts source.old id) (λ text. HasColumns text number rows
            × AllByRecursion (FitsColumnIn text rows) columns.now)) }
        ensures refused { IsErrOf result Fault.BadLayout → S.keeps_word source.new
            → HoldsNoneOf (S.texts source.old id) number rows }
        ensures run { ReadsSourceOr S.Source EndsDecoding source.old source.new result }
    {
        let rows = rows as usize;
        if rows > MOST_BATCH_ROWS {
            return Err(Fault::BadLayout);
        }
        self.bytes.resize(HEADER_BYTES + NUMBER_BYTES * rows, 0)?;
        self.layout.rows = rows;
        read_columns(source, id, number, self.bytes.as_mut_slice(), rows, columns)?;
        Ok(())
    }

    /// The columns, those that were not read too.
    pub fn columns(&self) -> FactColumns<'_>
        ensures { result ≡ self.now }
    {
        FactColumns::of(self.bytes.as_slice(), &self.layout)
    }
}
