//! The rows of the four dimensions.
use batch_loader::{Lines, read_customers, read_dates, read_parts, read_suppliers};
use cube_model::{CustomerRow, DateRow, DimRows, Fault, Items, PartRow, SupplierRow};
use sample_star::{STAR, TABLES, dim_rows, in_sevens};
use std::alloc::Global;

fn customers(alloc: Global) -> Result<Items<CustomerRow>, Fault> {
    let mut lines = Lines::new(alloc, in_sevens(TABLES.customer))?;
    read_customers(alloc, &mut lines)
}

fn suppliers(alloc: Global) -> Result<Items<SupplierRow>, Fault> {
    let mut lines = Lines::new(alloc, in_sevens(TABLES.supplier))?;
    read_suppliers(alloc, &mut lines)
}

fn parts(alloc: Global) -> Result<Items<PartRow>, Fault> {
    let mut lines = Lines::new(alloc, in_sevens(TABLES.part))?;
    read_parts(alloc, &mut lines)
}

fn dates(alloc: Global) -> Result<Items<DateRow>, Fault> {
    let mut lines = Lines::new(alloc, in_sevens(TABLES.date))?;
    read_dates(alloc, &mut lines)
}

/// The rows of the sample tables.
fn rows(alloc: Global) -> Result<DimRows, Fault> {
    Ok(DimRows {
        customers: customers(alloc)?,
        suppliers: suppliers(alloc)?,
        parts: parts(alloc)?,
        dates: dates(alloc)?,
    })
}

#[test]
fn sample_tables_are_read(rt: HostRuntime) {
    let want = dim_rows(rt.alloc(), &STAR);
    assert!(rt; want.is_ok());
    assert!(rt; rows(rt.alloc()) == want);
}
