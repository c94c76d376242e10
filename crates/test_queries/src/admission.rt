//! The check of a batch, whole and in two pieces.
ghost use Rattle.std.specs.Prelude.{◌^◌, IsTrue};
ghost use Rattle.batch_admission.specs.Totals.{AreBelow};

use crate::running::dims_of;
use batch_admission::{Admission, Findings};
use cube_model::{Fault, LineOrder, Measure, Place, Totals};
use dimensions::Dims;
use sample_star::{FIRST_FACT, Fact, SECOND_FACT, STAR, line_orders};
use std::alloc::Global;
use std::test::Fail;

/// 256 characters, one more than a text may have.
const LONG: &str =
    "yyyyyyyyyyyyyyyyyyyyyyyyyyyyyyyyyyyyyyyyyyyyyyyyyyyyyyyyyyyyyyyyyyyyyyyyyyyyyyyyyyyyyyyyyyyyyyyyyyyyyyyyyyyyyyyyyyyyyyyyyyyyyyyyyyyyyyyyyyyyyyyyyyyyyyyyyyyyyyyyyyyyyyyyyyyyyyyyyyyyyyyyyyyyyyyyyyyyyyyyyyyyyyyyyyyyyyyyyyyyyyyyyyyyyyyyyyyyyyyyyyyyyyyyyyyyyyyy";

/// The first sample row, of a customer that there is not.
const STRANGER: Fact<'static> = Fact {
    custkey: 9,
    ..FIRST_FACT
};

/// The first sample row, with a ship mode that is too long.
const WORDY: Fact<'static> = Fact {
    shipmode: LONG,
    ..FIRST_FACT
};

/// No row.
const NOTHING: Totals = Totals {
    quantity: 0,
    extendedprice: 0,
    revenue: 0,
    supplycost: 0,
    discounted: 0,
    profit: 0,
};

/// The first sample row, and the first two, added up by hand: the second loses 60.
const FIRST: Totals = Totals {
    quantity: 17,
    extendedprice: 1000,
    revenue: 980,
    supplycost: 600,
    discounted: 2000,
    profit: 380,
};

const FIRST_TWO: Totals = Totals {
    quantity: 41,
    extendedprice: 3000,
    revenue: 2920,
    supplycost: 2600,
    discounted: 8000,
    profit: 440,
};

/// The greatest sum of profits after which the first sample row is accepted, and one more.
const NEARLY_FULL: Totals = Totals {
    profit: 9_223_372_036_854_775_427,
    ..NOTHING
};

const FULLER: Totals = Totals {
    profit: 9_223_372_036_854_775_428,
    ..NOTHING
};

/// A number and rows after so many accepted batches with some totals, and what comes of them: the totals then, or
/// the first cause of a refusal.
struct Case {
    count: u32,
    totals: Totals,
    number: u32,
    rows: &'static [Fact<'static>],
    outcome: Result<Totals, Fault>,
}

const ACCEPTED: Case = Case {
    count: 10,
    totals: NOTHING,
    number: 11,
    rows: &[FIRST_FACT],
    outcome: Ok(FIRST),
};

static CASES: [Case; 16] = [
    ACCEPTED,
    Case {
        rows: &[FIRST_FACT, SECOND_FACT],
        outcome: Ok(FIRST_TWO),
        ..ACCEPTED
    },
    Case {
        totals: FIRST,
        rows: &[SECOND_FACT],
        outcome: Ok(FIRST_TWO),
        ..ACCEPTED
    },
    Case {
        totals: FIRST_TWO,
        rows: &[],
        outcome: Ok(FIRST_TWO),
        ..ACCEPTED
    },
    Case {
        number: 10,
        outcome: Err(Fault::Repeated),
        ..ACCEPTED
    },
    Case {
        number: 0,
        rows: &[STRANGER],
        outcome: Err(Fault::Repeated),
        ..ACCEPTED
    },
    Case {
        number: 12,
        rows: &[WORDY],
        outcome: Err(Fault::Gap),
        ..ACCEPTED
    },
    Case {
        count: 4_095,
        totals: FIRST_TWO,
        number: 4_096,
        rows: &[],
        outcome: Ok(FIRST_TWO),
    },
    Case {
        count: 4_096,
        number: 4_097,
        outcome: Err(Fault::TooManyBatches),
        ..ACCEPTED
    },
    Case {
        rows: &[STRANGER, FIRST_FACT, WORDY],
        outcome: Err(Fault::FieldTooLong {
            place: Place::Row(3),
            field: 17,
        }),
        ..ACCEPTED
    },
    Case {
        rows: &[FIRST_FACT, STRANGER, STRANGER],
        outcome: Err(Fault::UnknownCustomer { row: 2 }),
        ..ACCEPTED
    },
    Case {
        rows: &[FIRST_FACT, FIRST_FACT, FIRST_FACT, STRANGER],
        outcome: Err(Fault::UnknownCustomer { row: 4 }),
        ..ACCEPTED
    },
    Case {
        rows: &[Fact {
            orderdate: 19930106,
            ..FIRST_FACT
        }],
        outcome: Err(Fault::UnknownDate { row: 1 }),
        ..ACCEPTED
    },
    Case {
        totals: NEARLY_FULL,
        outcome: Ok(Totals {
            profit: 9_223_372_036_854_775_807,
            ..FIRST
        }),
        ..ACCEPTED
    },
    Case {
        totals: FULLER,
        outcome: Err(Fault::SumRange {
            measure: Measure::Profit,
        }),
        ..ACCEPTED
    },
    Case {
        totals: FULLER,
        rows: &[FIRST_FACT, STRANGER],
        outcome: Err(Fault::UnknownCustomer { row: 2 }),
        ..ACCEPTED
    },
];

/// The least total that no accepted batches can have.
const LIMIT: u64 = 9_223_372_036_854_775_808;

fn are_totals(totals: Totals) -> bool
    ensures { IsTrue result → AreBelow (2 ^ 63) totals }
{
    totals.quantity < LIMIT
        && totals.extendedprice < LIMIT
        && totals.revenue < LIMIT
        && totals.supplycost < LIMIT
        && totals.discounted < LIMIT
        && totals.profit < LIMIT
}

/// What comes of a batch, and the totals then.
fn admitted(admission: &mut Admission, dims: &Dims, number: u32, rows: &[LineOrder]) -> Outcome {
    let answer = admission.admit(dims, number, rows);
    (answer, admission.totals())
}

/// What is found with a piece of at most nine rows after as many.
fn more(found: Findings, dims: &Dims, rows: &[LineOrder]) -> Option<Findings> {
    if rows.len() > 9 || found.row_count() > 9 {
        return None;
    }
    Some(found.more(dims, rows))
}

/// What is found in two pieces: the first row, and the others.
fn found_in_pieces(found: Findings, dims: &Dims, rows: &[LineOrder]) -> Option<Findings> {
    let first = rows.len().min(1);
    let found = more(found, dims, &rows[..first])?;
    more(found, dims, &rows[first..])
}

/// The same of a batch that comes in pieces.
fn admitted_in_pieces(
    admission: &mut Admission,
    dims: &Dims,
    number: u32,
    rows: &[LineOrder],
) -> Outcome {
    let answer = match found_in_pieces(admission.findings(), dims, rows) {
        Some(found) => admission.admit_found(number, &found),
        None => Err(Fault::TooManyRows),
    };
    (answer, admission.totals())
}

type Outcome = (Result<(), Fault>, Totals);

/// What comes of the batch of a case, whole and in pieces.
fn outcomes_of(dims: &Dims, case: &Case, rows: &[LineOrder]) -> [Outcome; 2] {
    if case.count > 4_096 || !are_totals(case.totals) {
        return [(Err(Fault::BadLayout), NOTHING); 2];
    }
    let mut whole = Admission::resume(case.count, case.totals);
    let mut parted = Admission::resume(case.count, case.totals);
    [
        admitted(&mut whole, dims, case.number, rows),
        admitted_in_pieces(&mut parted, dims, case.number, rows),
    ]
}

fn outcomes(alloc: Global, dims: &Dims, case: &Case) -> Result<[Outcome; 2], Fault> {
    let rows = line_orders(alloc, case.rows)?;
    Ok(outcomes_of(dims, case, rows.as_slice()))
}

/// What is to come of it: a refusal leaves the totals.
fn wanted(case: &Case) -> Outcome {
    match case.outcome {
        Ok(totals) => (Ok(()), totals),
        Err(fault) => (Err(fault), case.totals),
    }
}

#[test]
fn batches_are_accepted_or_refused_for_the_first_cause(rt: HostRuntime) -> Result<(), Fail> {
    let dims = dims_of(rt.alloc(), &STAR)?;
    for case in &CASES {
        assert!(rt; outcomes(rt.alloc(), &dims, case) == Ok([wanted(case); 2]));
    }
    Ok(())
}
