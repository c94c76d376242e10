//! A key of the fact table that no dimension row has.
ghost use Rattle.std.specs.Prelude.{◌≡◌, IfSome};
ghost use Rattle.batch_admission.specs.Found.{lacks};
ghost use Rattle.cube_model.specs.Attributes.{key_on};
ghost use Rattle.ssb_eval.specs.Tables.{IsInNoRow, IsUnknownIn, unknown_on};

use cube_model::{Axis, Fault, LineOrder};
use dimensions::Dims;

/// A key in a line of the fact table that no row of its dimension has. Lines count from 1.
#[derive(Clone, Copy, PartialEq, Eq)]
pub struct UnknownKey {
    pub axis: Axis,
    pub key: u32,
    pub line: u64,
}

/// Keeps the unknown key for which a batch is refused, where none is kept yet. The cause that was found in the batch so
/// far and its last rows are given, and the number of the line of the last one.
pub fn keep_unknown(
    dims: &Dims,
    cause: Option<Fault>,
    rows: &[LineOrder],
    last: u64,
    unknown: &mut Option<UnknownKey>,
)
    ensures { IfSome unknown.old (IsInNoRow dims.now) → IfSome unknown.new (IsInNoRow dims.now) }
{
    let Some(axis) = unknown_on(cause) else {
        return;
    };
    if unknown.is_none() {
        *unknown = first_unknown(dims, axis, rows, last);
    }
}

// The dimension that has no row with a key, where that is the cause.
fn unknown_on(cause: Option<Fault>) -> Option<Axis>
    ensures { IfSome cause (λ fault. result ≡ unknown_on fault) }
{
    match cause? {
        Fault::UnknownCustomer { .. } => Some(Axis::Customer),
        Fault::UnknownSupplier { .. } => Some(Axis::Supplier),
        Fault::UnknownPart { .. } => Some(Axis::Part),
        Fault::UnknownDate { .. } => Some(Axis::Date),
        _ => None,
    }
}

// The first key of some rows that no row of a dimension has.
fn first_unknown(dims: &Dims, axis: Axis, rows: &[LineOrder], last: u64) -> Option<UnknownKey>
    ensures { IfSome result (IsUnknownIn dims.now axis rows.now last) }
{
    for (place, row) in rows.iter().enumerate() {
        let key = key_on(axis, row);
        if lacks(dims, axis, key) {
            let after = rows.len() - 1 - place;
            let line = last.saturating_sub(after as u64);
            return Some(UnknownKey { axis, key, line });
        }
    }
    None
}

fn key_on(axis: Axis, row: &LineOrder) -> u32
    ensures { result ≡ key_on axis row.now }
{
    match axis {
        Axis::Customer => row.custkey,
        Axis::Supplier => row.suppkey,
        Axis::Part => row.partkey,
        Axis::Date => row.orderdate,
    }
}

fn lacks(dims: &Dims, axis: Axis, key: u32) -> bool
    ensures { result ≡ lacks dims.now axis key }
{
    dims.row_index(axis, key) == dims.row_count(axis)
}
