//! The four objects of the sample rows, with each byte by hand.
use cube_model::{Axis, Fault};
use dimension_objects::encode;
use dimensions::Dims;
use sample_star::{STAR, dim_rows};
use std::alloc::Global;

/// The customers: 12 bytes of header, cities, nations, regions, nations of cities, regions of nations, keys, cities.
const CUSTOMERS: &[u8] = b"DIM1\x00\x00\x00\x00\x02\x00\x00\x00\
\x02\x00\x00\x00\x0aUNITED KI1\x0aUNITED ST3\
\x02\x00\x00\x00\x0eUNITED KINGDOM\x0dUNITED STATES\
\x02\x00\x00\x00\x06EUROPE\x07AMERICA\
\x00\x00\x01\x00\x00\x00\x01\x00\
\x01\x00\x00\x00\x02\x00\x00\x00\x00\x00\x01\x00";

/// The suppliers, likewise.
const SUPPLIERS: &[u8] = b"DIM1\x01\x00\x00\x00\x02\x00\x00\x00\
\x02\x00\x00\x00\x0aUNITED KI5\x0aUNITED ST0\
\x02\x00\x00\x00\x0eUNITED KINGDOM\x0dUNITED STATES\
\x02\x00\x00\x00\x06EUROPE\x07AMERICA\
\x00\x00\x01\x00\x00\x00\x01\x00\
\x01\x00\x00\x00\x02\x00\x00\x00\x00\x00\x01\x00";

/// The parts: both categories are of one manufacturer.
const PARTS: &[u8] = b"DIM1\x02\x00\x00\x00\x02\x00\x00\x00\
\x02\x00\x00\x00\x09MFGR#1210\x08MFGR#142\
\x02\x00\x00\x00\x07MFGR#12\x07MFGR#14\
\x01\x00\x00\x00\x06MFGR#1\
\x00\x00\x01\x00\x00\x00\x00\x00\
\x01\x00\x00\x00\x02\x00\x00\x00\x00\x00\x01\x00";

/// The days: months, yearmonths, years, weeks, yearmonths of months, years of months, keys, months, weeks.
const DATES: &[u8] = b"DIM1\x03\x00\x00\x00\x02\x00\x00\x00\
\x02\x00\x00\x00\x06199301\x06199712\
\x02\x00\x00\x00\x07Jan1993\x07Dec1997\
\x02\x00\x00\x00\x041993\x041997\
\x02\x00\x00\x00\x011\x0249\
\x00\x00\x01\x00\x00\x00\x01\x00\
\xf9\x1b\x30\x01\x82\xbc\x30\x01\x00\x00\x01\x00\x00\x00\x01\x00";

static OBJECTS: [(Axis, &[u8]); 4] = [
    (Axis::Customer, CUSTOMERS),
    (Axis::Supplier, SUPPLIERS),
    (Axis::Part, PARTS),
    (Axis::Date, DATES),
];

fn sample_dims(alloc: Global) -> Result<Dims, Fault> {
    let rows = dim_rows(alloc, &STAR)?;
    Dims::build(alloc, &rows)
}

/// Whether a dimension of the sample is spelled so.
fn is_spelled(alloc: Global, axis: Axis, wanted: &[u8]) -> Result<bool, Fault> {
    let dims = sample_dims(alloc)?;
    let found = encode(alloc, &dims, axis)?;
    Ok(found.as_slice() == wanted)
}

#[test]
fn bytes_by_hand(rt: HostRuntime) {
    for (place, (axis, wanted)) in OBJECTS.iter().enumerate() {
        assert!(rt;
            is_spelled(rt.alloc(), *axis, *wanted) == Ok(true),
            "object {place}"
        );
    }
}
