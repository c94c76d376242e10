//! Loads and additions whose reader or writer fails: what is written, and what is stored then.
use crate::load_failures::Work::{Addition, Load};
use cube_model::Fault;
use sample_sessions::fresh;
use sample_star::{ONE_CUSTOMER, Pieces, TABLES, Taker, dim_rows, in_sevens};
use sector_device::{MemDisk, Sectors};
use std::alloc::Global;
use std::io::Write;
use std::test::Fail;
use warehouse::Session;
use warehouse_jobs::{BatchNumber, BatchRows, Job, add, perform};

/// Loads what a reader gives, one row a batch.
pub(crate) fn loaded<D: Sectors, W: Write>(
    alloc: Global,
    session: &mut Session<D>,
    reader: Pieces<'_>,
    out: &mut W,
) -> Result<bool, Fault> {
    let first = BatchNumber::new(1).ok_or(Fault::Gap)?;
    let rows = BatchRows::new(1).ok_or(Fault::TooManyRows)?;
    perform(alloc, session, Job::Load { first, rows }, reader, out)
}

/// What is done to a new warehouse.
#[derive(Clone, Copy, Debug)]
enum Work {
    /// A load of the three sample rows, one a batch.
    Load,
    /// The addition of a customer.
    Addition,
}

/// Does some work.
fn worked<W: Write>(
    alloc: Global,
    session: &mut Session<MemDisk>,
    work: Work,
    out: &mut W,
) -> Result<bool, Fault> {
    match work {
        Load => loaded(alloc, session, in_sevens(TABLES.lineorder), out),
        Addition => {
            let rows = dim_rows(alloc, &ONE_CUSTOMER)?;
            add(alloc, session, 1, &rows, out)?;
            Ok(true)
        }
    }
}

static LOADED: &[u8] = b"batch 1 rows 1\nbatch 2 rows 1\nbatch 3 rows 1\nbatches 3\n";

static ADDED: &[u8] = b"addition 1 rows 1\nadditions 1\n";

/// The length of the line of a batch.
const LINE: usize = 15;

/// Whether some work whose writer takes so many bytes writes just these of its lines, and leaves as many batches as
/// lines of them were begun, or the addition. With just the room of a line its flush fails.
fn is_taken(alloc: Global, work: Work, room: usize) -> Result<bool, Fault> {
    let mut session = fresh(alloc)?;
    let mut taker = Taker::new(alloc, room);
    let end = worked(alloc, &mut session, work, &mut taker);
    let status = session.status()?;
    let (lines, stored, most) = match work {
        Load => (LOADED, status.batches, 3),
        Addition => (ADDED, status.additions, 1),
    };
    let taken = room.min(lines.len());
    let wanted = if room > lines.len() {
        Ok(true)
    } else {
        Err(Fault::Output)
    };
    Ok(
        end == wanted
            && taker.bytes.as_slice() == &lines[..taken]
            && stored as usize == (taken.saturating_sub(1) / LINE + 1).min(most),
    )
}

#[test]
fn a_failing_writer_comes_after_what_is_stored(rt: HostRuntime) -> Result<(), Fail> {
    for work in [Load, Addition] {
        for room in 0..LOADED.len() + 2 {
            assert!(rt; is_taken(rt.alloc(), work, room)?, "{work:?} {room}");
        }
    }
    Ok(())
}

/// The reads of the sample's fact lines in sevens, that at the end with them.
const READS: u32 = TABLES.lineorder.len() as u32 / 7 + 2;

/// How many batches a load leaves whose reader fails at a read, if it answers so and writes just their lines.
fn batches_left(alloc: Global, read: u32) -> Result<Option<usize>, Fault> {
    let mut session = fresh(alloc)?;
    let mut out = Vec::new(alloc);
    let reader = in_sevens(TABLES.lineorder).failing_at(read);
    let end = loaded(alloc, &mut session, reader, &mut out);
    let batches = session.status()?.batches as usize;
    if end == Err(Fault::Input) && Some(out.as_slice()) == LOADED.get(..batches * LINE) {
        Ok(Some(batches))
    } else {
        Ok(None)
    }
}

#[test]
fn a_failing_reader_is_answered_after_whole_batches(rt: HostRuntime) -> Result<(), Fail> {
    let mut most = 0;
    for read in 1..=READS {
        let left = batches_left(rt.alloc(), read)?;
        let is_right = match left {
            Some(batches) => batches >= most,
            None => false,
        };
        assert!(rt; is_right, "read {read}: {left:?}");
        most = left.unwrap_or(most);
    }
    Ok(())
}
