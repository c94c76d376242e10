//! What is said after a refusal that no page shows.
use command_files::batch_hints::number_hint;
use command_files::broken_rows::rows_hint;
use command_files::table_refusals::limit_hint;
use cube_model::{Axis, Fault, MemberPlace};
use dimensions::Dims;
use sample_star::{STAR, dim_rows};
use std::alloc::Global;
use std::test::Fail;

/// What is refused.
#[derive(Clone, Copy, Debug)]
enum Refused {
    /// The sample's dimension rows, of a file of this name, alone.
    Rows(&'static str),
    /// The same, added to a warehouse that has them.
    AddedRows(&'static str),
    /// The rows of a fact table.
    Facts,
    /// The number of a batch.
    Number,
}

/// What is refused, its fault, and what is said, if anything is.
static CASES: [(Refused, Fault, Option<&'static str>); 10] = [
    (
        Refused::Rows(""),
        Fault::TooManyRows,
        Some("a customer, supplier or part table has at most 4194304 rows, and a date table 65535"),
    ),
    (
        Refused::AddedRows(""),
        Fault::TooManyRows,
        Some(
            "with the rows of the warehouse, a customer, supplier or part table has at most 4194304 rows, and a date table 65535",
        ),
    ),
    (
        Refused::Rows("customer.tbl"),
        Fault::TooManyMembers {
            place: MemberPlace::InDimension {
                axis: Axis::Customer,
                row: 70_000,
            },
        },
        Some("customer.tbl line 70000: the 65536th member of a column, and there may be 65535"),
    ),
    (
        Refused::AddedRows("date.tbl"),
        Fault::DuplicateKey {
            axis: Axis::Date,
            row: 2,
        },
        Some("date.tbl line 2: the warehouse has a date row with the key 19971202 already"),
    ),
    // There are two rows.
    (
        Refused::AddedRows("date.tbl"),
        Fault::DuplicateKey {
            axis: Axis::Date,
            row: 9,
        },
        None,
    ),
    // The rows of the sample go together with themselves.
    (
        Refused::AddedRows("part.tbl"),
        Fault::HierarchyBroken {
            axis: Axis::Part,
            row: 1,
        },
        None,
    ),
    (Refused::Rows("part.tbl"), Fault::Full, None),
    (
        Refused::Facts,
        Fault::TooManyBatches,
        Some("lineorder.tbl: more than 268435456 lines"),
    ),
    (
        Refused::Number,
        Fault::TooManyBatches,
        Some("a warehouse has at most 4096 batches; larger ones hold more rows"),
    ),
    (Refused::Number, Fault::Full, None),
];

/// What is said of dimension rows, which may be added to a warehouse.
fn rows_said(
    alloc: Global,
    path: &str,
    is_added: bool,
    fault: Fault,
) -> Result<Option<String>, Fault> {
    let rows = dim_rows(alloc, &STAR)?;
    let dims = Dims::build(alloc, &rows)?;
    let stored = if is_added { Some(&dims) } else { None };
    rows_hint(alloc, path, &rows, stored, fault)
}

/// What is said of a refusal.
fn said(alloc: Global, refused: Refused, fault: Fault) -> Result<Option<String>, Fault> {
    match refused {
        Refused::Rows(path) => rows_said(alloc, path, false, fault),
        Refused::AddedRows(path) => rows_said(alloc, path, true, fault),
        Refused::Facts => limit_hint(alloc, "lineorder.tbl", fault),
        Refused::Number => number_hint(alloc, fault, 4, 4096),
    }
}

#[test]
fn each_refusal_has_its_line(rt: HostRuntime) -> Result<(), Fail> {
    for (refused, fault, wanted) in CASES {
        let said = said(rt.alloc(), refused, fault)?;
        assert!(rt; said.as_deref() == wanted, "{refused:?}: {said:?}");
    }
    Ok(())
}
