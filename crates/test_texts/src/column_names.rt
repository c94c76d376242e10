//! The names of the columns of the tables.
use batch_loader::Table;
use std::test::Fail;

/// The columns of each table in order, named as in the benchmark without the prefix of the table.
static NAMES: [(Table, &[&str]); 5] = [
    (
        Table::Customer,
        &[
            "custkey",
            "name",
            "address",
            "city",
            "nation",
            "region",
            "phone",
            "mktsegment",
        ],
    ),
    (
        Table::Supplier,
        &[
            "suppkey", "name", "address", "city", "nation", "region", "phone",
        ],
    ),
    (
        Table::Part,
        &[
            "partkey",
            "name",
            "mfgr",
            "category",
            "brand1",
            "color",
            "type",
            "size",
            "container",
        ],
    ),
    (
        Table::Date,
        &[
            "datekey",
            "date",
            "dayofweek",
            "month",
            "year",
            "yearmonthnum",
            "yearmonth",
            "daynuminweek",
            "daynuminmonth",
            "daynuminyear",
            "monthnuminyear",
            "weeknuminyear",
            "sellingseason",
            "lastdayinweekfl",
            "lastdayinmonthfl",
            "holidayfl",
            "weekdayfl",
        ],
    ),
    (
        Table::Lineorder,
        &[
            "orderkey",
            "linenumber",
            "custkey",
            "partkey",
            "suppkey",
            "orderdate",
            "orderpriority",
            "shippriority",
            "quantity",
            "extendedprice",
            "ordtotalprice",
            "discount",
            "revenue",
            "supplycost",
            "tax",
            "commitdate",
            "shipmode",
        ],
    ),
];

/// The first number from 0 on whose column does not have its name, of those of a table and two more.
fn wrong_number(table: Table, names: &[&str]) -> Option<u8> {
    for number in 0..=18 {
        let wanted = match usize::from(number).checked_sub(1) {
            Some(place) => names.get(place).copied(),
            None => None,
        };
        if table.column_name(number) != wanted {
            return Some(number);
        }
    }
    None
}

#[test]
fn each_column_has_its_name(rt: HostRuntime) -> Result<(), Fail> {
    for (table, names) in NAMES {
        let wrong = wrong_number(table, names);
        assert!(rt; wrong == None, "{}: {wrong:?}", table.name());
        assert!(rt; table.columns().len() == names.len(), "{}", table.name());
    }
    Ok(())
}
