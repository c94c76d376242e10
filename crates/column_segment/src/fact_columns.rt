//! The columns of numbers of a batch, as they are in its bytes.
ghost use Rattle.std.specs.Prelude.{◌≡◌, ◌≤◌, ◌<◌, List, length, map, IfOk, IsOkUnless};
ghost use Rattle.cube_model.specs.declared.fault.Fault.{Fault};
ghost use Rattle.cube_model.specs.declared.rows.LineOrder.{LineOrder};
ghost use Rattle.cube_model.specs.Aggregates.{total};
ghost use Rattle.cube_model.specs.Limits.{most_batch_rows};
ghost use Rattle.cube_model.specs.Measures.{measure_of};
ghost use Rattle.std.specs.Int.{from_le_bytes, w32};
ghost use Rattle.column_kernels.specs.Extremes.{extremes_of};
ghost use Rattle.column_kernels.specs.Masks.{lies_in, selected_by};
ghost use Rattle.column_kernels.specs.Sums.{numbers_of};
ghost use Rattle.column_segment.specs.Columns.{fact_value};
ghost use Rattle.column_segment.specs.Decoded.{HoldsColumns, decoded_rows};
ghost use Rattle.column_segment.specs.Projected.{HaveSmallFigures};

use crate::columns::Column;
use crate::extremes::selected_extremes;
use crate::layout::{Layout, byte_part, chunks};
use crate::sums::selected_sum;
use column_kernels::Mask;
use cube_model::{Fault, Measure};
use std::alloc::Global;
use std::marker::Model;

/// The columns of numbers of a batch, of which no row is made. Contracts see the list of the rows.
#[derive(Drop)]
pub struct FactColumns<'a> {
    bytes: &'a [u8],
    layout: &'a Layout,
}

impl<'a> Model for FactColumns<'a> {
    ghost use Rattle.std.specs.Prelude.{List};
    ghost use Rattle.cube_model.specs.declared.rows.LineOrder.{LineOrder};
    ghost use Rattle.column_segment.specs.Decoded.{HoldsColumns, decoded_rows};

    ghost Value = { List LineOrder };

    ghost view = { λ c. decoded_rows c.bytes.now c.layout.now };

    ghost invariant = { λ c. HoldsColumns c.bytes.now c.layout.now.rows };
}

impl<'a> FactColumns<'a> {
    // Those of bytes that are laid out in a way.
    pub(crate) fn of(bytes: &'a [u8], layout: &'a Layout) -> FactColumns<'a>
        requires { HoldsColumns bytes.now layout.now.rows }
        ensures { result ≡ decoded_rows bytes.now layout.now }
    {
        FactColumns { bytes, layout }
    }

    /// How many rows there are: at most 65,536.
    pub fn len(&self) -> usize
        ensures count { result ≡ length self.now }
        ensures few { length self.now ≤ most_batch_rows }
    {
        self.layout.rows
    }

    /// A column of amounts, eight bytes a row, the lowest byte first.
    pub fn amounts(&self, column: Column<8>) -> &'a [[u8; 8]]
        ensures { numbers_of result.now ≡ map (fact_value column.name) self.now }
    {
        chunks(self.bytes, self.layout.rows, column)
    }

    /// A column of numbers, four bytes a row, the lowest byte first.
    pub fn numbers(&self, column: Column<4>) -> &'a [[u8; 4]]
        ensures { map (from_le_bytes w32) result.now ≡ map (fact_value column.name) self.now }
    {
        chunks(self.bytes, self.layout.rows, column)
    }

    /// A column of small numbers, a byte a row.
    pub fn figures(&self, column: Column<1>) -> &'a [u8]
        ensures { result.now ≡ map (fact_value column.name) self.now }
    {
        byte_part(self.bytes, self.layout.rows, column)
    }

    /// The rows whose quantity and discount lie in their ranges, ends included. `Memory` where there is none.
    pub fn mask(&self, alloc: Global, quantity: (u8, u8), discount: (u8, u8)) -> Result<Mask, Fault>
        ensures ok { IfOk result
            (λ mask. mask ≡ map (λ row. lies_in quantity discount row.quantity row.discount) self.now) }
        ensures memory { IsOkUnless result Fault.Memory }
        ensures figures { HaveSmallFigures self.now }
    {
        let quantities = byte_part(self.bytes, self.layout.rows, Column::QUANTITY);
        let discounts = byte_part(self.bytes, self.layout.rows, Column::DISCOUNT);
        Mask::of_ranges(alloc, quantities, discounts, quantity, discount)
    }

    /// The sum of a measure over the rows that a mask of as many rows selects.
    pub fn selected_sum(&self, measure: Measure, mask: &Mask) -> i128
        requires rows { length mask.now ≡ length self.now }
        ensures { result ≡ total (map (measure_of measure) (selected_by mask.now self.now)) }
    {
        selected_sum(self.bytes, self.layout, measure, mask)
    }

    /// The least and the greatest of a measure over the rows that a mask of as many rows selects, if there are any.
    pub fn selected_extremes(&self, measure: Measure, mask: &Mask) -> Option<(i128, i128)>
        requires rows { length mask.now ≡ length self.now }
        ensures { result ≡ extremes_of (map (measure_of measure) (selected_by mask.now self.now)) }
    {
        selected_extremes(self.bytes, self.layout, measure, mask)
    }
}
