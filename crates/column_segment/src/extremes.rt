//! The least and the greatest of measures over selected rows.
ghost use Rattle.std.specs.Prelude.{◌≡◌, ◌*◌, ◌-ℤ◌, pos, length, map};
ghost use Rattle.cube_model.specs.Measures.{measure_of};
ghost use Rattle.column_kernels.specs.Extremes.{extremes_of};
ghost use Rattle.column_kernels.specs.Masks.{selected_by};
ghost use Rattle.column_segment.specs.Columns.{fact_value};
ghost use Rattle.column_segment.specs.Decoded.{HoldsColumns, decoded_rows};

use crate::columns::Column;
use crate::layout::{Layout, byte_part, chunks};
use column_kernels::Mask;
use cube_model::Measure;

// The least and the greatest of a measure over the selected rows, if there are any.
pub(crate) fn selected_extremes(
    bytes: &[u8],
    layout: &Layout,
    measure: Measure,
    mask: &Mask,
) -> Option<(i128, i128)>
    requires columns { HoldsColumns bytes.now layout.now.rows }
    requires rows { length mask.now ≡ layout.now.rows }
    ensures { result
        ≡ extremes_of (map (measure_of measure) (selected_by mask.now (decoded_rows bytes.now layout.now))) }
{
    match measure {
        Measure::Quantity => extremes_of_bytes(bytes, layout, Column::QUANTITY, mask),
        Measure::ExtendedPrice => {
            extremes_of_amounts(bytes, layout, Column::EXTENDED_PRICE, mask)
        }
        Measure::Revenue => extremes_of_amounts(bytes, layout, Column::REVENUE, mask),
        Measure::SupplyCost => extremes_of_amounts(bytes, layout, Column::SUPPLY_COST, mask),
        Measure::Discounted => extremes_of_discounted(bytes, layout, mask),
        Measure::Profit => extremes_of_profit(bytes, layout, mask),
    }
}

// The same of a column of small numbers.
fn extremes_of_bytes(
    bytes: &[u8],
    layout: &Layout,
    column: Column<1>,
    mask: &Mask,
) -> Option<(i128, i128)>
    requires columns { HoldsColumns bytes.now layout.now.rows }
    requires rows { length mask.now ≡ layout.now.rows }
    ensures { result
        ≡ extremes_of
        (map (λ row. pos (fact_value column.name row)) (selected_by mask.now (decoded_rows bytes.now layout.now))) }
{
    mask.extremes_of_bytes(byte_part(bytes, layout.rows, column))
}

// The same of a column of amounts.
fn extremes_of_amounts(
    bytes: &[u8],
    layout: &Layout,
    column: Column<8>,
    mask: &Mask,
) -> Option<(i128, i128)>
    requires columns { HoldsColumns bytes.now layout.now.rows }
    requires rows { length mask.now ≡ layout.now.rows }
    ensures { result
        ≡ extremes_of
        (map (λ row. pos (fact_value column.name row)) (selected_by mask.now (decoded_rows bytes.now layout.now))) }
{
    mask.extremes_of_numbers(chunks(bytes, layout.rows, column))
}

// The same of the extended prices, each times its discount.
fn extremes_of_discounted(bytes: &[u8], layout: &Layout, mask: &Mask) -> Option<(i128, i128)>
    requires columns { HoldsColumns bytes.now layout.now.rows }
    requires rows { length mask.now ≡ layout.now.rows }
    ensures { result
        ≡ extremes_of
        (map (λ row. pos (row.extendedprice * row.discount))
        (selected_by mask.now (decoded_rows bytes.now layout.now))) }
{
    let prices = chunks(bytes, layout.rows, Column::EXTENDED_PRICE);
    let discounts = byte_part(bytes, layout.rows, Column::DISCOUNT);
    mask.extremes_of_products(prices, discounts)
}

// The same of the revenues, each less its supply cost.
fn extremes_of_profit(bytes: &[u8], layout: &Layout, mask: &Mask) -> Option<(i128, i128)>
    requires columns { HoldsColumns bytes.now layout.now.rows }
    requires rows { length mask.now ≡ layout.now.rows }
    ensures { result
        ≡ extremes_of
        (map (λ row. pos row.revenue -ℤ pos row.supplycost)
        (selected_by mask.now (decoded_rows bytes.now layout.now))) }
{
    let revenues = chunks(bytes, layout.rows, Column::REVENUE);
    let costs = chunks(bytes, layout.rows, Column::SUPPLY_COST);
    mask.extremes_of_differences(revenues, costs)
}
