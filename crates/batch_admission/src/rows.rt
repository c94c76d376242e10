//! What a fact row is refused for.
ghost use Rattle.std.specs.Prelude.{◌≡◌};
ghost use Rattle.cube_model.specs.Admission.{long_field, unknown_axis};
ghost use Rattle.batch_admission.specs.Found.{lacks};

use cube_model::limits::LONGEST_TEXT;
use cube_model::{Axis, Fault, LineOrder, Place};
use dimensions::Dims;

/// The first text of a row that is too long. The row's number counts from 1.
pub fn long_field(number: u32, row: &LineOrder) -> Option<Fault>
    ensures { result ≡ long_field number row.now }
{
    if row.orderpriority.as_slice().len() > LONGEST_TEXT {
        return Some(too_long(number, 7));
    }
    if row.shippriority.as_slice().len() > LONGEST_TEXT {
        return Some(too_long(number, 8));
    }
    if row.commitdate.as_slice().len() > LONGEST_TEXT {
        return Some(too_long(number, 16));
    }
    if row.shipmode.as_slice().len() > LONGEST_TEXT {
        return Some(too_long(number, 17));
    }
    None
}

fn too_long(row: u32, field: u8) -> Fault
    ensures { result ≡ Fault.FieldTooLong (Place.Row row) field }
{
    Fault::FieldTooLong {
        place: Place::Row(row),
        field,
    }
}

/// The first dimension in which no row has the row's key. The row's number counts from 1.
pub fn unknown_axis(dims: &Dims, number: u32, row: &LineOrder) -> Option<Fault>
    ensures { result ≡ unknown_axis dims.now number row.now }
{
    if lacks(dims, Axis::Customer, row.custkey) {
        return Some(Fault::UnknownCustomer { row: number });
    }
    if lacks(dims, Axis::Supplier, row.suppkey) {
        return Some(Fault::UnknownSupplier { row: number });
    }
    if lacks(dims, Axis::Part, row.partkey) {
        return Some(Fault::UnknownPart { row: number });
    }
    if lacks(dims, Axis::Date, row.orderdate) {
        return Some(Fault::UnknownDate { row: number });
    }
    None
}

fn lacks(dims: &Dims, axis: Axis, key: u32) -> bool
    ensures { result ≡ lacks dims.now axis key }
{
    dims.row_index(axis, key) == dims.row_count(axis)
}
