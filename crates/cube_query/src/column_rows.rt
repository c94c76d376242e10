//! The rows of a batch, read from its columns.
ghost use Rattle.std.specs.Prelude.{◌≡◌, ◌<◌, ℕ, List, length, map};
ghost use Rattle.std.specs.Int.{from_le_bytes, w32, w64};
ghost use Rattle.cube_model.specs.declared.rows.LineOrder.{LineOrder};
ghost use Rattle.cube_model.specs.Attributes.{key_on};
ghost use Rattle.group_numbers.specs.Rows.{row_at};

use column_segment::{Column, FactColumns};
use cube_model::{Axis, Measure};
use group_numbers::FactRows;
use std::marker::Model;

/// The rows of a batch, of which no row is made: each number is read from its column. Contracts see the list of the
/// rows.
#[derive(Drop)]
pub struct ColumnRows<'a> {
    columns: FactColumns<'a>,
    customers: &'a [[u8; 4]],
    suppliers: &'a [[u8; 4]],
    parts: &'a [[u8; 4]],
    dates: &'a [[u8; 4]],
    quantities: &'a [u8],
    discounts: &'a [u8],
    prices: &'a [[u8; 8]],
    revenues: &'a [[u8; 8]],
    costs: &'a [[u8; 8]],
}

impl<'a> Model for ColumnRows<'a> {
    ghost use Rattle.std.specs.Prelude.{List};
    ghost use Rattle.cube_model.specs.declared.rows.LineOrder.{LineOrder};
    ghost use Rattle.cube_query.specs.ColumnRows.{HaveColumns};

    ghost Value = { List LineOrder };

    ghost view = { λ s. s.columns };

    ghost invariant = { λ s. HaveColumns s.columns s.customers.now s.suppliers.now s.parts.now s.dates.now
        s.quantities.now s.discounts.now s.prices.now s.revenues.now s.costs.now };
}

impl<'a> ColumnRows<'a> {
    /// The rows of a batch.
    pub fn of(columns: FactColumns<'a>) -> ColumnRows<'a>
        ensures { result ≡ columns.entry }
    {
        let customers = columns.numbers(Column::CUST_KEY);
        let suppliers = columns.numbers(Column::SUPP_KEY);
        let parts = columns.numbers(Column::PART_KEY);
        let dates = columns.numbers(Column::ORDER_DATE);
        let quantities = columns.figures(Column::QUANTITY);
        let discounts = columns.figures(Column::DISCOUNT);
        let prices = columns.amounts(Column::EXTENDED_PRICE);
        let revenues = columns.amounts(Column::REVENUE);
        let costs = columns.amounts(Column::SUPPLY_COST);
        ColumnRows {
            columns,
            customers,
            suppliers,
            parts,
            dates,
            quantities,
            discounts,
            prices,
            revenues,
            costs,
        }
    }

    // The column of keys in a dimension.
    fn keys(&self, axis: Axis) -> &[[u8; 4]]
        ensures { map (from_le_bytes w32) result.now ≡ map (key_on axis) self.now }
    {
        match axis {
            Axis::Customer => self.customers,
            Axis::Supplier => self.suppliers,
            Axis::Part => self.parts,
            Axis::Date => self.dates,
        }
    }

    fn price(&self, place: usize) -> u64
        requires { place < length self.now }
        ensures { result ≡ (row_at self.now place).extendedprice }
    {
        amount_at(self.prices, place)
    }

    fn revenue(&self, place: usize) -> u64
        requires { place < length self.now }
        ensures { result ≡ (row_at self.now place).revenue }
    {
        amount_at(self.revenues, place)
    }

    fn cost(&self, place: usize) -> u64
        requires { place < length self.now }
        ensures { result ≡ (row_at self.now place).supplycost }
    {
        amount_at(self.costs, place)
    }
}

impl<'a> FactRows for ColumnRows<'a> {
    ghost rows = { λ rows. rows };

    fn count(&self) -> usize {
        self.columns.len()
    }

    fn key(&self, place: usize, axis: Axis) -> u32 {
        number_at(self.keys(axis), place)
    }

    fn quantity(&self, place: usize) -> u8 {
        figure_at(self.quantities, place)
    }

    fn discount(&self, place: usize) -> u8 {
        figure_at(self.discounts, place)
    }

    fn measure(&self, place: usize, measure: Measure) -> i128 {
        match measure {
            Measure::Quantity => i128::from(self.quantity(place)),
            Measure::ExtendedPrice => i128::from(self.price(place)),
            Measure::Revenue => i128::from(self.revenue(place)),
            Measure::SupplyCost => i128::from(self.cost(place)),
            Measure::Discounted => i128::from(self.price(place)) * i128::from(self.discount(place)),
            Measure::Profit => i128::from(self.revenue(place)) - i128::from(self.cost(place)),
        }
    }
}

// The number at a place of a column. After the last it is 0.
fn number_at(column: &[[u8; 4]], place: usize) -> u32
    ensures { (number : LineOrder → ℕ) (rows : List LineOrder) → map (from_le_bytes w32) column.now ≡ map number rows
        → place < length rows → result ≡ number (row_at rows place) }
{
    if place < column.len() {
        u32::from_le_bytes(column[place])
    } else {
        0
    }
}

// The same of a column of amounts.
fn amount_at(column: &[[u8; 8]], place: usize) -> u64
    ensures { (number : LineOrder → ℕ) (rows : List LineOrder) → map (from_le_bytes w64) column.now ≡ map number rows
        → place < length rows → result ≡ number (row_at rows place) }
{
    if place < column.len() {
        u64::from_le_bytes(column[place])
    } else {
        0
    }
}

// The same of a column of small numbers.
fn figure_at(column: &[u8], place: usize) -> u8
    ensures { (number : LineOrder → ℕ) (rows : List LineOrder) → column.now ≡ map number rows
        → place < length rows → result ≡ number (row_at rows place) }
{
    match column.get(place) {
        Some(figure) => *figure,
        None => 0,
    }
}
