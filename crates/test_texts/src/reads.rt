//! Readers that fail in mid-stream.
use batch_loader::{Lines, read_batch, read_customers};
use cube_model::Fault;
use sample_star::{TABLES, in_pieces};
use std::alloc::Global;

/// How two readings of fact rows are refused where a read fails, if they are.
fn facts_failing_at(alloc: Global, read: u32) -> Result<[Option<Fault>; 2], Fault> {
    let mut lines = Lines::new(alloc, in_pieces(TABLES.lineorder, 14).failing_at(read))?;
    let first = read_batch(alloc, &mut lines, 9).err();
    let second = read_batch(alloc, &mut lines, 0).err();
    Ok([first, second])
}

#[test]
fn each_read_of_fact_rows_fails_in_turn(rt: HostRuntime) {
    for read in 1..=TABLES.lineorder.len() as u32 / 14 + 2 {
        let refused = facts_failing_at(rt.alloc(), read);
        assert!(rt; refused == Ok([Some(Fault::Input); 2]), "at {read}");
    }
}

/// How a reading of customers is refused where a read fails, and the fault that the lines have then.
fn customers_failing_at(alloc: Global, read: u32) -> Result<[Option<Fault>; 2], Fault> {
    let mut lines = Lines::new(alloc, in_pieces(TABLES.customer, 1).failing_at(read))?;
    let refused = read_customers(alloc, &mut lines).err();
    Ok([refused, lines.fault()])
}

#[test]
fn each_read_of_customers_fails_in_turn(rt: HostRuntime) {
    for read in 1..=TABLES.customer.len() as u32 + 1 {
        let refused = customers_failing_at(rt.alloc(), read);
        assert!(rt; refused == Ok([Some(Fault::Input); 2]), "at {read}");
    }
}

/// How many rows a reading takes where the second read fails, and how the reading after it is refused, if it is.
fn taken_before_a_failure(alloc: Global) -> Result<(Result<usize, Fault>, Option<Fault>), Fault> {
    let mut lines = Lines::new(alloc, in_pieces(TABLES.lineorder, 100).failing_at(2))?;
    let taken = read_batch(alloc, &mut lines, 1).map(|rows| rows.len());
    let refused = read_batch(alloc, &mut lines, 1).err();
    Ok((taken, refused))
}

#[test]
fn rows_of_earlier_reads_are_taken(rt: HostRuntime) {
    assert!(rt; taken_before_a_failure(rt.alloc()) == Ok((Ok(1), Some(Fault::Input))));
}
