//! A warehouse in memory from its making to an answer, as the README has it.
use cube_model::{Answer, Fault, LineOrder, Query};
use dimensions::Dims;
use sample_sessions::{answer, sample_dims};
use sample_star::{FACTS, line_orders};
use sector_device::MemDisk;
use ssb_reports::{QNumber, query_of};
use std::alloc::Global;
use std::test::Fail;
use warehouse::create;

/// The answer to a query over one batch.
fn answer_in_memory(
    alloc: Global,
    dims: Dims,
    rows: &[LineOrder],
    query: &Query,
) -> Result<Answer, Fault> {
    let disk = MemDisk::new(alloc, 64)?;
    let mut session = match create(alloc, disk, dims) {
        Ok(session) => session,
        Err((fault, _)) => return Err(fault),
    };
    session.submit(alloc, 1, rows)?;
    session.query(alloc, 1, query)
}

fn sample_answer(alloc: Global) -> Result<Answer, Fault> {
    let rows = line_orders(alloc, &FACTS)?;
    let query = query_of(alloc, QNumber::Q11)?;
    answer_in_memory(alloc, sample_dims(alloc)?, rows.as_slice(), &query)
}

#[test]
fn a_warehouse_in_memory_answers(rt: HostRuntime) -> Result<(), Fail> {
    assert!(rt; sample_answer(rt.alloc()) == answer(rt.alloc(), &[(&[], 2000)], 1));
    Ok(())
}
