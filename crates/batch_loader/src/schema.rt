//! The five tables by name, and their columns.
ghost use Rattle.std.specs.Prelude.{◌≡◌};
ghost use Rattle.batch_loader.specs.Schema.{columns_of, table_name, table_of};

use crate::columns::{CUSTOMER, Column, DATE, LINEORDER, PART, SUPPLIER};
use cube_model::Axis;

/// One of the five tables.
#[derive(Clone, Copy, PartialEq, Eq)]
pub enum Table {
    Customer,
    Supplier,
    Part,
    Date,
    Lineorder,
}

impl Table {
    /// The tables in the order in which they are read.
    pub const ALL: [Table; 5] = [
        Table::Customer,
        Table::Supplier,
        Table::Part,
        Table::Date,
        Table::Lineorder,
    ];

    /// The name of the table, which is that of its option.
    pub fn name(self) -> &'static str
        ensures { result.now ≡ table_name self }
    {
        match self {
            Table::Customer => "customer",
            Table::Supplier => "supplier",
            Table::Part => "part",
            Table::Date => "date",
            Table::Lineorder => "lineorder",
        }
    }

    /// The table of a dimension.
    pub fn of(axis: Axis) -> Table
        ensures { result ≡ table_of axis }
    {
        match axis {
            Axis::Customer => Table::Customer,
            Axis::Supplier => Table::Supplier,
            Axis::Part => Table::Part,
            Axis::Date => Table::Date,
        }
    }

    /// What the columns hold.
    pub fn columns(self) -> &'static [Column]
        ensures { result.now ≡ columns_of self }
    {
        match self {
            Table::Customer => &CUSTOMER,
            Table::Supplier => &SUPPLIER,
            Table::Part => &PART,
            Table::Date => &DATE,
            Table::Lineorder => &LINEORDER,
        }
    }

    /// The name of a column, by its number from 1.
    pub fn column_name(self, number: u8) -> Option<&'static str> {
        let place = usize::from(number).checked_sub(1)?;
        let names = match self {
            Table::Customer => "custkey name address city nation region phone mktsegment",
            Table::Supplier => "suppkey name address city nation region phone",
            Table::Part => "partkey name mfgr category brand1 color type size container",
            Table::Date => DATE_NAMES,
            Table::Lineorder => LINEORDER_NAMES,
        };
        names.split(' ').nth(place)
    }
}

const DATE_NAMES: &str =
    "datekey date dayofweek month year yearmonthnum yearmonth daynuminweek daynuminmonth \
    daynuminyear monthnuminyear weeknuminyear sellingseason lastdayinweekfl lastdayinmonthfl holidayfl weekdayfl";

const LINEORDER_NAMES: &str =
    "orderkey linenumber custkey partkey suppkey orderdate orderpriority shippriority \
    quantity extendedprice ordtotalprice discount revenue supplycost tax commitdate shipmode";
