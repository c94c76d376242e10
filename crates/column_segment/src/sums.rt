//! Sums of measures over selected rows.
ghost use Rattle.std.specs.Prelude.{◌≡◌, ◌<◌, ◌^◌, ◌*◌, ◌-ℤ◌, pos, length, map};
ghost use Rattle.cube_model.specs.Aggregates.{total};
ghost use Rattle.cube_model.specs.Measures.{measure_of};
ghost use Rattle.column_kernels.specs.Masks.{selected_by};
ghost use Rattle.column_segment.specs.Columns.{fact_value};
ghost use Rattle.column_segment.specs.Decoded.{HoldsColumns, decoded_rows};

use crate::columns::Column;
use crate::layout::{Layout, byte_part, chunks};
use column_kernels::Mask;
use cube_model::Measure;

// The sum of a measure over the selected rows.
pub(crate) fn selected_sum(bytes: &[u8], layout: &Layout, measure: Measure, mask: &Mask) -> i128
    requires columns { HoldsColumns bytes.now layout.now.rows }
    requires rows { length mask.now ≡ layout.now.rows }
    ensures { result ≡ total (map (measure_of measure) (selected_by mask.now (decoded_rows bytes.now layout.now))) }
{
    match measure {
        Measure::Quantity => sum_of_bytes(bytes, layout, Column::QUANTITY, mask),
        Measure::ExtendedPrice => sum_of_amounts(bytes, layout, Column::EXTENDED_PRICE, mask),
        Measure::Revenue => sum_of_amounts(bytes, layout, Column::REVENUE, mask),
        Measure::SupplyCost => sum_of_amounts(bytes, layout, Column::SUPPLY_COST, mask),
        Measure::Discounted => sum_of_discounted(bytes, layout, mask),
        Measure::Profit => sum_of_profit(bytes, layout, mask),
    }
}

// The sum of a column of small numbers.
fn sum_of_bytes(bytes: &[u8], layout: &Layout, column: Column<1>, mask: &Mask) -> i128
    requires columns { HoldsColumns bytes.now layout.now.rows }
    requires rows { length mask.now ≡ layout.now.rows }
    ensures { result
        ≡ total (map (λ row. pos (fact_value column.name row))
        (selected_by mask.now (decoded_rows bytes.now layout.now))) }
{
    whole(mask.sum_of_bytes(byte_part(bytes, layout.rows, column)))
}

// The sum of a column of amounts.
fn sum_of_amounts(bytes: &[u8], layout: &Layout, column: Column<8>, mask: &Mask) -> i128
    requires columns { HoldsColumns bytes.now layout.now.rows }
    requires rows { length mask.now ≡ layout.now.rows }
    ensures { result
        ≡ total (map (λ row. pos (fact_value column.name row))
        (selected_by mask.now (decoded_rows bytes.now layout.now))) }
{
    whole(mask.sum_of_numbers(chunks(bytes, layout.rows, column)))
}

// The sum of the extended prices, each times its discount.
fn sum_of_discounted(bytes: &[u8], layout: &Layout, mask: &Mask) -> i128
    requires columns { HoldsColumns bytes.now layout.now.rows }
    requires rows { length mask.now ≡ layout.now.rows }
    ensures { result
        ≡ total (map (λ row. pos (row.extendedprice * row.discount))
        (selected_by mask.now (decoded_rows bytes.now layout.now))) }
{
    let prices = chunks(bytes, layout.rows, Column::EXTENDED_PRICE);
    let discounts = byte_part(bytes, layout.rows, Column::DISCOUNT);
    whole(mask.sum_of_products(prices, discounts))
}

// The sum of the revenues, each less its supply cost.
fn sum_of_profit(bytes: &[u8], layout: &Layout, mask: &Mask) -> i128
    requires columns { HoldsColumns bytes.now layout.now.rows }
    requires rows { length mask.now ≡ layout.now.rows }
    ensures { result
        ≡ total (map (λ row. pos row.revenue -ℤ pos row.supplycost)
        (selected_by mask.now (decoded_rows bytes.now layout.now))) }
{
    let revenues = chunks(bytes, layout.rows, Column::REVENUE);
    let costs = chunks(bytes, layout.rows, Column::SUPPLY_COST);
    mask.sum_of_differences(revenues, costs)
}

// A sum as a signed number.
fn whole(sum: u128) -> i128
    requires { sum < 2 ^ 127 }
    ensures { result ≡ pos sum }
{
    sum as i128
}
