//! Which views the benchmark's queries need.
use cube_model::Fault;
use lattice::View;
use ssb_reports::{QNumber, query_of};
use std::alloc::Global;

/// The benchmark's queries, each with the coarsest view that serves it, and none where a condition is on quantity or
/// discount.
static BENCHMARK: [(QNumber, Option<u16>); 13] = [
    (QNumber::Q11, None),
    (QNumber::Q12, None),
    (QNumber::Q13, None),
    (QNumber::Q21, Some(226)),
    (QNumber::Q22, Some(226)),
    (QNumber::Q23, Some(226)),
    (QNumber::Q31, Some(94)),
    (QNumber::Q32, Some(14)),
    (QNumber::Q33, Some(14)),
    (QNumber::Q34, Some(13)),
    (QNumber::Q41, Some(106)),
    (QNumber::Q42, Some(150)),
    (QNumber::Q43, Some(130)),
];

// The number of the view that a query needs.
fn needed_by(alloc: Global, number: QNumber) -> Result<Option<u16>, Fault> {
    let query = query_of(alloc, number)?;
    match View::needed_by(&query) {
        Some(view) => Ok(Some(view.index())),
        None => Ok(None),
    }
}

#[test]
fn the_benchmarks_queries_need_the_views_that_tell_their_attributes(rt: HostRuntime) {
    for (place, (number, coarsest)) in BENCHMARK.iter().enumerate() {
        assert!(rt;
            needed_by(rt.alloc(), *number) == Ok(*coarsest),
            "query {place}"
        );
    }
}
