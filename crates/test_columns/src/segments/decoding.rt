//! Batches that are read back.

use crate::segments::batches::SPELLED;
use column_segment::{Segment, decode};
use cube_model::{Fault, LineOrder};
use sample_star::{FACTS, line_orders};
use std::alloc::Global;
use std::test::Fail;

// The batch that has these bytes.
pub(crate) fn segment_of(alloc: Global, bytes: &[u8]) -> Result<Segment, Fault> {
    decode(alloc, Vec::from_slice(alloc, bytes)?)
}

// The rows of the sample, read back.
fn sample_rows(alloc: Global) -> Result<Vec<LineOrder>, Fault> {
    let segment = segment_of(alloc, &SPELLED)?;
    let mut rows = Vec::new(alloc);
    segment.push_rows(alloc, 0, 65_536, &mut rows)?;
    Ok(rows)
}

#[test]
fn reads_the_sample(rt: HostRuntime) -> Result<(), Fail> {
    let rows = sample_rows(rt.alloc())?;
    assert!(rt; rows == line_orders(rt.alloc(), &FACTS)?);
    Ok(())
}
