//! Cells of the sample star, worked out by hand and counted into folds. The answers were worked out by hand too.
ghost use Rattle.std.specs.Prelude.{◌≡◌, []};
ghost use Rattle.cube_query.specs.Groups.{IsOver, RepresentsRows};
ghost use Rattle.lattice.specs.Determined.{Serves};

use super::printing::{has_lines, report_of};
use super::running::{batch_of, dims_of};
use super::written_cells::{
    ALL, Case, FIRST, FIRST_ALONE, FIRST_DAY, Kept, NONE, Offer, REFUSED, SAMPLE, SECOND,
    SECOND_DAY, THIRD_ALONE, Written, cells_of,
};
use column_segment::{Segment, TextColumn};
use cube_model::{Agg, Attr, Fault, Measure, Query};
use cube_query::Fold;
use cuboid_cells::Cells;
use dimensions::Dims;
use sample_star::{Asked, CUBE, EVERY_ROW, FACTS, FIRST_FACT, SECOND_FACT, STAR, query};
use std::alloc::Global;

/// Revenue by year.
const REVENUES: Asked<'static> = Asked {
    columns: &[Attr::DateYear],
    aggregates: &[
        Agg::Count,
        Agg::Sum(Measure::Revenue),
        Agg::Min(Measure::Revenue),
        Agg::Max(Measure::Revenue),
        Agg::Avg(Measure::Revenue),
    ],
    ..EVERY_ROW
};

/// Profit by manufacturer and month.
const PROFITS: Asked<'static> = Asked {
    columns: &[Attr::PartMfgr, Attr::DateYearmonth],
    aggregates: &[
        Agg::Sum(Measure::Profit),
        Agg::Min(Measure::Profit),
        Agg::Max(Measure::Profit),
        Agg::Avg(Measure::Profit),
        Agg::Count,
    ],
    ..EVERY_ROW
};

/// How many rows there are, and the sum of their profits.
const LOSSES: Asked<'static> = Asked {
    aggregates: &[Agg::Count, Agg::Sum(Measure::Profit)],
    ..EVERY_ROW
};

/// The revenues by year of the sample rows, and of the first row.
const REVENUE_LINES: &str = "1993|1|980|980|980|980/1\n1997|2|2435|495|1940|2435/2\nrows 2\n";

const FIRST_REVENUE_LINE: &str = "1993|1|980|980|980|980/1\nrows 1\n";

/// The greatest loss that there may be: nothing for what costs so much.
const GREATEST: i64 = 9_223_372_036_854_775_807;

const LOSS: Offer = Offer {
    cells: &[Written {
        kept: Kept {
            revenue: [0, 0, 0],
            supplycost: [GREATEST, GREATEST, GREATEST],
            profit: [-GREATEST, -GREATEST, -GREATEST],
            ..FIRST
        },
        ..FIRST_DAY
    }],
    ..NONE
};

/// The sample rows by manufacturer, day and ship mode. Their modes are AIR, RAIL and AIR.
const BY_MODE: Offer = Offer {
    view: 504,
    cells: &[
        Written {
            codes: [ALL, ALL, 0, 0, 0],
            ..FIRST_DAY
        },
        Written {
            codes: [ALL, ALL, 0, 1, 0],
            ..THIRD_ALONE
        },
        Written {
            codes: [ALL, ALL, 0, 1, 1],
            count: 1,
            kept: SECOND,
        },
    ],
    with_modes: true,
    ..SAMPLE
};

/// Cells that are taken.
static TAKEN: [Case; 4] = [
    Case {
        asked: PROFITS,
        before: &[],
        offers: &[SAMPLE],
        lines: "MFGR#1|Dec1997|335|-60|395|335/2|2\nMFGR#1|Jan1993|380|380|380|380/1|1\nrows 2\n",
    },
    // By the customer's region and by year: Europe and 1993 have the code 0.
    Case {
        asked: CUBE,
        before: &[],
        offers: &[Offer {
            view: 190,
            cells: &[
                Written {
                    codes: [0, ALL, ALL, 0, ALL],
                    ..FIRST_DAY
                },
                Written {
                    codes: [0, ALL, ALL, 1, ALL],
                    ..THIRD_ALONE
                },
                Written {
                    codes: [1, ALL, ALL, 1, ALL],
                    count: 1,
                    kept: SECOND,
                },
            ],
            ..SAMPLE
        }],
        lines: "AMERICA|1997|1|1940|1940/1\nAMERICA|ALL|1|1940|1940/1\nEUROPE|1993|1|980|980/1\nEUROPE|1997|1|495|495/1\nEUROPE|ALL|2|1475|1475/2\nALL|1993|1|980|980/1\nALL|1997|2|2435|2435/2\nALL|ALL|3|3415|3415/3\nrows 8\n",
    },
    // After a row that has the group of the second cell.
    Case {
        asked: REVENUES,
        before: &[SECOND_FACT],
        offers: &[Offer {
            cells: &[FIRST_DAY, THIRD_ALONE],
            ..NONE
        }],
        lines: REVENUE_LINES,
    },
    // Cells of two views, by day and by year.
    Case {
        asked: REVENUES,
        before: &[],
        offers: &[
            FIRST_ALONE,
            Offer {
                view: 254,
                cells: &[Written {
                    codes: [ALL, ALL, ALL, 1, ALL],
                    ..SECOND_DAY
                }],
                ..NONE
            },
        ],
        lines: REVENUE_LINES,
    },
];

/// Cells of which some are refused, and cells by ship mode.
static WITH_REFUSALS: [Case; 5] = [
    // A day after the last one, the last code that is not that of all days, and a manufacturer after a cell that could
    // be taken. The fold takes other cells then.
    Case {
        asked: REVENUES,
        before: &[],
        offers: &[
            Offer {
                cells: &[Written {
                    codes: [ALL, ALL, 0, 2, ALL],
                    ..SECOND_DAY
                }],
                ..REFUSED
            },
            Offer {
                cells: &[Written {
                    codes: [ALL, ALL, 0, 65_534, ALL],
                    ..SECOND_DAY
                }],
                ..REFUSED
            },
            Offer {
                cells: &[
                    FIRST_DAY,
                    Written {
                        codes: [ALL, ALL, 9, 1, ALL],
                        ..SECOND_DAY
                    },
                ],
                ..REFUSED
            },
            SAMPLE,
        ],
        lines: REVENUE_LINES,
    },
    // Members for which the query does not ask: of each axis by the lowest level, and a region.
    Case {
        asked: LOSSES,
        before: &FACTS,
        offers: &[
            Offer {
                view: 0,
                cells: &[Written {
                    codes: [2, 0, 0, 0, ALL],
                    ..FIRST_DAY
                }],
                ..REFUSED
            },
            Offer {
                view: 0,
                cells: &[Written {
                    codes: [0, 2, 0, 0, ALL],
                    ..FIRST_DAY
                }],
                ..REFUSED
            },
            Offer {
                view: 0,
                cells: &[Written {
                    codes: [0, 0, 2, 0, ALL],
                    ..FIRST_DAY
                }],
                ..REFUSED
            },
            Offer {
                view: 0,
                cells: &[Written {
                    codes: [0, 0, 0, 2, ALL],
                    ..FIRST_DAY
                }],
                ..REFUSED
            },
            Offer {
                view: 191,
                cells: &[Written {
                    codes: [2, ALL, ALL, ALL, ALL],
                    ..FIRST_DAY
                }],
                ..REFUSED
            },
        ],
        lines: "3|715\nrows 1\n",
    },
    // A loss after the greatest that there may be, a loss past it, more rows than a fold counts, and gains.
    Case {
        asked: LOSSES,
        before: &[],
        offers: &[
            LOSS,
            Offer {
                is_taken: false,
                ..LOSS
            },
            Offer {
                cells: &[Written {
                    kept: Kept {
                        profit: [-GREATEST - 1, -GREATEST - 1, -GREATEST - 1],
                        ..FIRST
                    },
                    ..FIRST_DAY
                }],
                ..REFUSED
            },
            Offer {
                cells: &[Written {
                    count: 9_223_372_036_854_775_807,
                    ..FIRST_DAY
                }],
                ..REFUSED
            },
            SAMPLE,
        ],
        lines: "4|-9223372036854775092\nrows 1\n",
    },
    // Cells by ship mode.
    Case {
        asked: REVENUES,
        before: &[],
        offers: &[BY_MODE],
        lines: REVENUE_LINES,
    },
    // Where there is no cell, the modes need not be given. Elsewhere cells are refused without them, and with a mode
    // after the last.
    Case {
        asked: REVENUES,
        before: &[FIRST_FACT],
        offers: &[
            Offer { view: 504, ..NONE },
            Offer {
                with_modes: false,
                is_taken: false,
                ..BY_MODE
            },
            Offer {
                cells: &[
                    Written {
                        codes: [ALL, ALL, 0, 0, 0],
                        ..FIRST_DAY
                    },
                    Written {
                        codes: [ALL, ALL, 0, 1, 2],
                        ..SECOND_DAY
                    },
                ],
                is_taken: false,
                ..BY_MODE
            },
        ],
        lines: FIRST_REVENUE_LINE,
    },
];

// Counts cells in, with the modes of a batch or with none, or leaves the fold as it was. Says whether they were counted
// in.
fn count_in(
    dims: &Dims,
    batch: Option<&Segment>,
    fold: &mut Fold,
    cells: &Cells,
) -> Result<bool, Fault>
    requires over { IsOver dims.now fold.old }
    requires serves { Serves cells.now.view fold.old.query }
    ensures over { IsOver dims.now fold.new }
    ensures query { fold.new.query ≡ fold.old.query }
{
    let modes = match batch {
        Some(batch) => Some(batch.coded(TextColumn::ShipMode).0),
        None => None,
    };
    match fold.add_cells(dims, cells, modes) {
        Ok(()) => Ok(true),
        Err(Fault::BadLayout) => Ok(false),
        Err(fault) => Err(fault),
    }
}

// Whether what a fold of a query says to an offer is what was worked out.
fn is_answered(
    alloc: Global,
    dims: &Dims,
    sample: &Segment,
    query: &Query,
    fold: &mut Fold,
    offer: &Offer,
) -> Result<bool, Fault>
    requires over { IsOver dims.now fold.old }
    requires query { fold.old.query ≡ query.now }
    ensures over { IsOver dims.now fold.new }
    ensures query { fold.new.query ≡ query.now }
{
    let cells = cells_of(alloc, offer)?;
    if !cells.view().serves(query) {
        return Err(Fault::BadQuery);
    }
    let batch = if offer.with_modes { Some(sample) } else { None };
    Ok(count_in(dims, batch, fold, &cells)? == offer.is_taken)
}

// Whether it is so of each offer in turn.
fn are_answered(
    alloc: Global,
    dims: &Dims,
    sample: &Segment,
    query: &Query,
    fold: &mut Fold,
    offers: &[Offer],
) -> Result<bool, Fault>
    requires over { IsOver dims.now fold.old }
    requires query { fold.old.query ≡ query.now }
    ensures { IsOver dims.now fold.new }
{
    for place in 0..offers.len() {
        if !is_answered(alloc, dims, sample, query, fold, &offers[place])? {
            return Ok(false);
        }
    }
    Ok(true)
}

// The report of a fold that begins, over rows and the offers after them. None where an offer is answered otherwise.
fn report_after(
    alloc: Global,
    dims: &Dims,
    sample: &Segment,
    query: &Query,
    fold: &mut Fold,
    case: &Case,
) -> Result<Option<Vec<u8>>, Fault>
    requires begins { RepresentsRows dims.now fold.old [] }
    requires query { fold.old.query ≡ query.now }
{
    let before = batch_of(alloc, case.before)?;
    fold.add_segment(dims, &before)?;
    if !are_answered(alloc, dims, sample, query, fold, case.offers)? {
        return Ok(None);
    }
    let answer = fold.finish(dims)?;
    Ok(Some(report_of(alloc, query, &answer)?))
}

// The report of a new fold.
fn report_in(
    alloc: Global,
    dims: &Dims,
    sample: &Segment,
    case: &Case,
) -> Result<Option<Vec<u8>>, Fault> {
    let query = query(alloc, &case.asked)?;
    let mut fold = Fold::new(alloc, dims, &query.check()?)?;
    report_after(alloc, dims, sample, &query, &mut fold, case)
}

// Whether the report is the one that was worked out.
fn is_as_worked(alloc: Global, dims: &Dims, sample: &Segment, case: &Case) -> bool {
    match report_in(alloc, dims, sample, case) {
        Ok(Some(report)) => has_lines(report.as_slice(), case.lines),
        _ => false,
    }
}

// The first of some cases in which it is not.
fn first_other(alloc: Global, cases: &[Case]) -> Result<Option<usize>, Fault> {
    let dims = dims_of(alloc, &STAR)?;
    let sample = batch_of(alloc, &FACTS)?;
    Ok(
        cases
            .iter()
            .position(|case| !is_as_worked(alloc, &dims, &sample, case)),
    )
}

#[test]
fn cells_are_counted_in_as_worked(rt: HostRuntime) {
    assert!(rt; first_other(rt.alloc(), &TAKEN) == Ok(None));
    assert!(rt; first_other(rt.alloc(), &WITH_REFUSALS) == Ok(None));
}
