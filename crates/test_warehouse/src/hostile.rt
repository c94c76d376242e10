//! Devices that keep not all rules of the layout: what a check finds and a query refuses.
use crate::steps::{Step, after};
use cube_model::{Agg, Attr, Fault, Measure};
use sample_sessions::{Change, ask, make_change, opened};
use sample_star::{Asked, EVERY_ROW, FACTS};
use sector_device::MemDisk;
use std::alloc::{AllocError, Global};
use warehouse::{Finding, Session};

/// The sector of the segment of one batch, its catalogue, the ship modes after a move to the second layout, and the
/// cells of days and manufacturers once three cuboids hold the batch.
const SEGMENT: u32 = 7;

const CATALOGUE: u32 = 8;

const MODES: u32 = 6;

const RUN: u32 = 9;

const ONE_BATCH: &[Step] = &[Step::Batch(&FACTS)];

const MOVED: &[Step] = &[Step::Batch(&FACTS), Step::Migrate];

const WITH_CUBOIDS: &[Step] = &[
    Step::Batch(&FACTS),
    Step::Views(&[59, 203, 248]),
    Step::Upkeep,
];

const BY_REGION: Asked<'static> = Asked {
    columns: &[Attr::CustomerRegion],
    aggregates: &[Agg::Sum(Measure::Revenue)],
    ..EVERY_ROW
};

/// The steps that made a warehouse, a change of its disk, how the revenue by region is refused over the first batch, if
/// it is, and what a check finds. The query looks at no text and no order key.
type Changed = (&'static [Step], Change, Option<Fault>, Option<Finding>);

const REFUSED: Option<Fault> = Some(Fault::BadLayout);

const NO_SEGMENT: Option<Finding> = Some(Finding::Segment { batch: 1 });

/// After each of them the warehouse is opened.
static CHANGED: [Changed; 21] = [
    // Nothing is changed. Another name, another batch, a row more, and one fewer, where what comes next are no texts.
    (ONE_BATCH, (SEGMENT, 0, b"SEG1"), None, None),
    (ONE_BATCH, (SEGMENT, 0, b"seg1"), REFUSED, NO_SEGMENT),
    (
        ONE_BATCH,
        (SEGMENT, 4, b"\x02\x00\x00\x00"),
        REFUSED,
        Some(Finding::Number {
            batch: 1,
            number: 2,
        }),
    ),
    (
        ONE_BATCH,
        (SEGMENT, 8, b"\x04\x00\x00\x00"),
        REFUSED,
        NO_SEGMENT,
    ),
    (
        ONE_BATCH,
        (SEGMENT, 8, b"\x02\x00\x00\x00"),
        REFUSED,
        NO_SEGMENT,
    ),
    // A code out of range, and texts that are not in the order of their first use.
    (ONE_BATCH, (SEGMENT, 279, b"\x02\x00"), None, NO_SEGMENT),
    (ONE_BATCH, (SEGMENT, 279, b"\x01\x00"), None, NO_SEGMENT),
    // Another order key, and one out of range.
    (ONE_BATCH, (SEGMENT, 12, b"\x07"), None, None),
    (
        ONE_BATCH,
        (SEGMENT, 12, b"\xff\xff\xff\xff\xff\xff\xff\xff"),
        None,
        NO_SEGMENT,
    ),
    // A revenue of one more, one out of range, and a customer that there is not.
    (
        ONE_BATCH,
        (SEGMENT, 150, b"\x07"),
        None,
        Some(Finding::Totals),
    ),
    (
        ONE_BATCH,
        (SEGMENT, 150, b"\xff\xff\xff\xff\xff\xff\xff\xff"),
        REFUSED,
        NO_SEGMENT,
    ),
    (
        ONE_BATCH,
        (SEGMENT, 48, b"\x09\x00\x00\x00"),
        REFUSED,
        Some(Finding::Batch {
            batch: 1,
            fault: Fault::UnknownCustomer { row: 1 },
        }),
    ),
    // The root says four rows, and other totals of the quantities and of the profits.
    (
        ONE_BATCH,
        (CATALOGUE, 156, b"\x04\x00\x00\x00"),
        REFUSED,
        Some(Finding::Rows {
            batch: 1,
            rows: 3,
            said: 4,
        }),
    ),
    (
        ONE_BATCH,
        (CATALOGUE, 108, b"\x43"),
        None,
        Some(Finding::Totals),
    ),
    (
        ONE_BATCH,
        (CATALOGUE, 148, b"\x44"),
        None,
        Some(Finding::Totals),
    ),
    // A letter of each of the ship modes AIR and RAIL, and a byte after them.
    (MOVED, (MODES, 11, b"S"), None, Some(Finding::ShipModes)),
    (MOVED, (MODES, 13, b"S"), None, Some(Finding::ShipModes)),
    (MOVED, (MODES, 17, b"S"), None, None),
    // Of the first cell, that of the first sample row alone: nothing is changed, two rows in place of one, and 18
    // pieces in place of 17.
    (WITH_CUBOIDS, (RUN, 28, b"\x01"), None, None),
    (
        WITH_CUBOIDS,
        (RUN, 28, b"\x02"),
        None,
        Some(Finding::Cuboid { view: 248 }),
    ),
    (
        WITH_CUBOIDS,
        (RUN, 36, b"\x12"),
        None,
        Some(Finding::Cuboid { view: 248 }),
    ),
];

/// A warehouse of 64 sectors after some steps, opened again after a change of its disk.
pub(crate) fn reopened(
    alloc: Global,
    steps: &[Step],
    change: Change,
) -> Result<Session<MemDisk>, Fault> {
    let mut disk = after(alloc, steps)?.close();
    make_change(&mut disk, change)?;
    opened(alloc, disk)
}

/// How the query is refused, if it is, and what a check finds.
fn seen(alloc: Global, changed: &Changed) -> Result<(Option<Fault>, Option<Finding>), Fault> {
    let mut session = reopened(alloc, changed.0, changed.1)?;
    let refused = ask(alloc, &mut session, 1, &BY_REGION).err();
    Ok((refused, session.check(alloc)?))
}

#[test]
fn what_was_changed_is_found_and_refused_where_it_is_read(rt: HostRuntime) {
    for (row, changed) in CHANGED.iter().enumerate() {
        assert!(rt;
            seen(rt.alloc(), changed) == Ok((changed.2, changed.3)),
            "row {row}"
        );
    }
}

/// Findings and their lines.
static LINES: [(Finding, &str); 8] = [
    (Finding::Objects, "objects: not those that the root names"),
    (
        Finding::Segment { batch: 3 },
        "segment of batch 3: not that of a batch",
    ),
    (
        Finding::Number {
            batch: 3,
            number: 4,
        },
        "segment of batch 3: it says batch 4",
    ),
    (
        Finding::Rows {
            batch: 3,
            rows: 5,
            said: 6,
        },
        "batch 3: rows 5, the root says 6",
    ),
    (
        Finding::Batch {
            batch: 3,
            fault: Fault::UnknownCustomer { row: 2 },
        },
        "batch 3: fault 15 UnknownCustomer row 2",
    ),
    (
        Finding::Totals,
        "root: its totals are not those of the rows",
    ),
    (Finding::ShipModes, "ship modes: not those of the batches"),
    (
        Finding::Cuboid { view: 59 },
        "cuboid 59: not the grouping of its batches",
    ),
];

/// Whether a finding has a line.
fn has_line(alloc: Global, finding: &Finding, line: &str) -> Result<bool, AllocError> {
    let text = format!(in alloc; "{finding}")?;
    Ok(text.as_str() == line)
}

#[test]
fn findings_have_their_lines(rt: HostRuntime) {
    for (finding, line) in &LINES {
        assert!(rt; has_line(rt.alloc(), finding, line) == Ok(true), "{line}");
    }
}
