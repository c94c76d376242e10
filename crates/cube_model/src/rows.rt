//! The rows of the five tables.
ghost use Rattle.std.specs.Prelude.{◌≡◌};
ghost use Rattle.cube_model.specs.Measures.{measure_of};

use crate::amount::Amount;
use crate::items::{Items, Text};
use crate::measure::Measure;
use crate::row_text::RowText;

/// A row of the customer table, as far as it is kept.
#[derive(PartialEq, Eq, Drop)]
pub struct CustomerRow {
    pub key: u32,
    pub city: Text,
    pub nation: Text,
    pub region: Text,
}

/// A row of the supplier table, as far as it is kept.
#[derive(PartialEq, Eq, Drop)]
pub struct SupplierRow {
    pub key: u32,
    pub city: Text,
    pub nation: Text,
    pub region: Text,
}

/// A row of the part table, as far as it is kept.
#[derive(PartialEq, Eq, Drop)]
pub struct PartRow {
    pub key: u32,
    pub brand1: Text,
    pub category: Text,
    pub mfgr: Text,
}

/// A row of the date table, as far as it is kept. Its key is the day, such as 19930105.
#[derive(PartialEq, Eq, Drop)]
pub struct DateRow {
    pub key: u32,
    pub year: Text,
    pub yearmonthnum: Text,
    pub yearmonth: Text,
    pub weeknuminyear: Text,
}

/// The rows of the four dimensions, each list in the order of its table.
#[derive(PartialEq, Eq)]
pub struct DimRows {
    pub customers: Items<CustomerRow>,
    pub suppliers: Items<SupplierRow>,
    pub parts: Items<PartRow>,
    pub dates: Items<DateRow>,
}

// Written out, so that a proof has one call to follow where one is let go.
impl Drop for DimRows {
    fn drop(self) {
        let DimRows {
            customers: _,
            suppliers: _,
            parts: _,
            dates: _,
        } = self;
    }
}

/// A row of the fact table, whole. Amounts of money are in the generator's whole units.
///
/// The fields are in order of size and not as in the table: a row is laid out as it is declared, so no byte is lost
/// between them.
#[derive(PartialEq, Eq, Drop)]
pub struct LineOrder {
    pub orderkey: Amount,
    pub extendedprice: Amount,
    pub ordtotalprice: Amount,
    pub revenue: Amount,
    pub supplycost: Amount,
    pub linenumber: u32,
    pub custkey: u32,
    pub partkey: u32,
    pub suppkey: u32,
    pub orderdate: u32,
    pub quantity: u8,
    pub discount: u8,
    pub tax: u8,
    pub orderpriority: RowText,
    pub shippriority: RowText,
    pub commitdate: RowText,
    pub shipmode: RowText,
}

impl LineOrder {
    /// A measure of the row.
    pub fn measure(&self, measure: Measure) -> i128
        ensures { result ≡ measure_of measure self.now }
    {
        match measure {
            Measure::Quantity => self.quantity as i128,
            Measure::ExtendedPrice => self.extendedprice.get() as i128,
            Measure::Revenue => self.revenue.get() as i128,
            Measure::SupplyCost => self.supplycost.get() as i128,
            Measure::Discounted => self.extendedprice.get() as i128 * self.discount as i128,
            Measure::Profit => self.revenue.get() as i128 - self.supplycost.get() as i128,
        }
    }
}
