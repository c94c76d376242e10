//! Columns of batches that are read without the others.

use crate::segments::batches::spelled;
use crate::segments::sources::Refusing;
use column_segment::{ColumnBuffer, FactColumn};
use cube_model::Fault;
use sample_star::{FACTS, line_orders};
use std::alloc::Global;

const ORDER_KEYS: [FactColumn; 1] = [FactColumn::OrderKey];

const CUSTOMERS: [FactColumn; 1] = [FactColumn::CustKey];

const TAXES: [FactColumn; 1] = [FactColumn::Tax];

const PRICES: [FactColumn; 2] = [FactColumn::ExtendedPrice, FactColumn::Discount];

// The bytes of a batch of the sample rows so many times.
pub(crate) fn repeated(alloc: Global, times: u32) -> Result<Vec<u8>, Fault> {
    let mut rows = Vec::new(alloc);
    for _ in 0..times {
        let mut three = line_orders(alloc, &FACTS)?;
        rows.append(&mut three)?;
    }
    spelled(alloc, 1, &rows)
}

// How many times a batch has the sample rows, the columns that are read, how many bytes of it there are, if any, and
// how many parts can be read, the number and the count of rows that are wanted, and how many bytes are read.
type Reading = (
    u32,
    &'static [FactColumn],
    (Option<usize>, usize),
    (u32, u32),
    Result<usize, Fault>,
);

const BAD: Result<usize, Fault> = Err(Fault::BadLayout);

const DEVICE: Result<usize, Fault> = Err(Fault::Device);

// A header has 12 bytes, and the columns of a row 63. Those of 64 rows, which take 4,044 bytes with the header, are
// read at once, and of more rows those alone that are asked for.
static READINGS: [Reading; 21] = [
    (1, &ORDER_KEYS, (Some(285), 9), (1, 3), Ok(201)),
    (21, &TAXES, (Some(4_500), 1), (1, 63), Ok(3_981)),
    (22, &ORDER_KEYS, (Some(4_500), 2), (1, 66), Ok(540)),
    (22, &CUSTOMERS, (Some(4_500), 2), (1, 66), Ok(276)),
    (22, &TAXES, (Some(4_500), 2), (1, 66), Ok(78)),
    (1, &PRICES, (None, 9), (1, 3), BAD),
    (1, &PRICES, (Some(11), 9), (1, 3), BAD),
    (1, &PRICES, (Some(200), 9), (1, 3), BAD),
    (1, &PRICES, (Some(201), 0), (1, 3), DEVICE),
    (1, &PRICES, (Some(201), 1), (1, 3), Ok(201)),
    (1, &PRICES, (Some(285), 9), (2, 3), BAD),
    (1, &PRICES, (Some(285), 9), (1, 2), BAD),
    (1, &PRICES, (Some(285), 9), (1, 4), BAD),
    (1, &PRICES, (Some(285), 9), (1, 65_537), BAD),
    (22, &PRICES, (Some(4_169), 9), (1, 66), BAD),
    (22, &PRICES, (Some(4_170), 0), (1, 66), DEVICE),
    (22, &PRICES, (Some(4_170), 1), (1, 66), DEVICE),
    (22, &PRICES, (Some(4_170), 2), (1, 66), DEVICE),
    (22, &PRICES, (Some(4_170), 3), (1, 66), Ok(606)),
    (22, &PRICES, (Some(4_170), 9), (2, 66), BAD),
    (22, &PRICES, (Some(4_170), 9), (1, 65), BAD),
];

// How many bytes are read.
fn read(alloc: Global, reading: &Reading) -> Result<usize, Fault> {
    let (times, columns, (count, left), (number, rows), _) = *reading;
    let batch = repeated(alloc, times)?;
    let bytes = match count {
        Some(count) => batch.get(..count),
        None => None,
    };
    let mut source = Refusing {
        bytes,
        left,
        given: 0,
    };
    let mut buffer = ColumnBuffer::new(alloc)?;
    buffer.read(&mut source, 9, number, rows, columns)?;
    Ok(source.given)
}

#[test]
fn of_a_large_batch_the_columns_asked_for_are_read(rt: HostRuntime) {
    for (place, reading) in READINGS.iter().enumerate() {
        assert!(rt; read(rt.alloc(), reading) == reading.4, "reading {place}");
    }
}
