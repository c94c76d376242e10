//! The report that is asked for.
ghost use Rattle.std.specs.Prelude.{◌≡◌, slice_index_or, None, IfOk, IsOk, IsOkUnless};
ghost use Rattle.std.specs.List.{list_any};
ghost use Rattle.cube_model.specs.Proper.{is_average};
ghost use Rattle.cube_model.specs.declared.measure.Agg.TheVariants.{Count};
ghost use Rattle.report_formats.specs.Arranging.{arranged};
ghost use Rattle.report_formats.specs.Arrangements.{arrangement_in, sort_key_in};
ghost use Rattle.report_formats.specs.Asked.{asked_for, moded_query_for, query_for, summed, with_count};
ghost use Rattle.report_formats.specs.Fields.{is_plain_report};

use crate::arranged::Arranged;
use crate::arrangement::{Arrangement, SortKey, Sorting};
use crate::layout::Layout;
use cube_model::{Agg, Fault, Items, Query};
use mode_queries::ModeQuery;
use ssb_reports::Lines;
use std::alloc::Global;

/// A report in a layout, and the query whose answer it has.
pub struct Asked {
    pub layout: Layout,
    /// The query to be answered.
    pub query: ModeQuery,
    /// The aggregates of the report.
    pub aggregates: Items<Agg>,
    /// The order and the number of its lines. An aggregate is one of the report's.
    pub arrangement: Arrangement,
}

// Written out, so that a proof has one call to follow where one is let go.
impl Drop for Asked {
    fn drop(self) {
        let Asked {
            layout: _,
            query: _,
            aggregates: _,
            arrangement: _,
        } = self;
    }
}

impl Asked {
    ghost use Rattle.report_formats.specs.Shown.{shown};

    /// The report of a query in a layout. Where averages are written as their sum and their count, the query to be
    /// answered has sums in place of averages, and the count of rows after all aggregates: one of 8 aggregates is then
    /// not proper, since it has 9.
    ///
    /// It can only fail when out of memory.
    pub fn new(alloc: Global, layout: Layout, query: ModeQuery) -> Result<Asked, Fault>
        ensures ok { IfOk result (λ asked. asked ≡ asked_for layout query) }
        ensures only { IsOkUnless result Fault.Memory }
    {
        let aggregates = Vec::from_slice(alloc, query.query.aggregates.as_slice())?;
        let query = moded_query_for(alloc, layout, query)?;
        Ok(Asked {
            layout,
            query,
            aggregates: Items::from_vec(aggregates),
            arrangement: Arrangement::none(),
        })
    }

    /// The same report with its lines in an arrangement. An aggregate is one of the report's.
    pub fn with_arrangement(self, arrangement: Arrangement) -> Asked
        ensures { result ≡ record self { arrangement = arrangement } }
    {
        let Asked {
            layout,
            query,
            aggregates,
            arrangement: _,
        } = self;
        Asked {
            layout,
            query,
            aggregates,
            arrangement,
        }
    }

    /// The lines of the answer to the query, arranged as the report has them. Without an order no memory is taken.
    ///
    /// It can only fail when out of memory.
    pub fn arranged<'a, L: Lines>(
        &self,
        alloc: Global,
        lines: &'a L,
    ) -> Result<Arranged<'a, L>, Fault>
        ensures ok { IfOk result
            (λ found. shown L.Lines found ≡ arranged (arrangement_in self.now) (L.lines lines.now)) }
        ensures only { IsOkUnless result Fault.Memory }
        ensures free { self.now.arrangement.sorting ≡ None → IsOk result }
    {
        Arranged::new(alloc, lines, self.arrangement_in())
    }

    /// Whether the report is that of a query of the dimensions alone, with bars and with averages as fractions.
    pub(crate) fn is_plain(&self) -> bool
        ensures { result ≡ is_plain_report self.now }
    {
        self.layout.is_plain() && self.query.place.is_none()
    }

    // The arrangement of the answer's lines.
    fn arrangement_in(&self) -> Arrangement
        ensures { result ≡ arrangement_in self.now }
    {
        let sorting = match self.arrangement.sorting {
            None => None,
            Some(sorting) => Some(Sorting {
                key: self.sort_key_in(sorting.key),
                descending: sorting.descending,
            }),
        };
        Arrangement {
            sorting,
            limit: self.arrangement.limit,
        }
    }

    // What the answer's lines are sorted by.
    fn sort_key_in(&self, key: SortKey) -> SortKey
        ensures { result ≡ sort_key_in self.now key }
    {
        match key {
            SortKey::Column(column) => SortKey::Column(column),
            SortKey::Average(sum, count) => SortKey::Average(sum, count),
            SortKey::Aggregate(aggregate) => {
                if self.layout.counts_averages() && self.is_average_at(aggregate) {
                    SortKey::Average(aggregate, self.aggregates.len())
                } else {
                    SortKey::Aggregate(aggregate)
                }
            }
        }
    }

    fn is_average_at(&self, aggregate: usize) -> bool
        ensures { result ≡ is_average (slice_index_or self.now.aggregates aggregate Count) }
    {
        let aggregates = self.aggregates.as_slice();
        aggregate < aggregates.len() && aggregates[aggregate].is_average()
    }
}

fn moded_query_for(alloc: Global, layout: Layout, asked: ModeQuery) -> Result<ModeQuery, Fault>
    ensures ok { IfOk result (λ found. found ≡ moded_query_for layout asked) }
    ensures only { IsOkUnless result Fault.Memory }
{
    let ModeQuery {
        query,
        place,
        conditions,
    } = asked;
    let query = query_for(alloc, layout, query)?;
    Ok(ModeQuery {
        query,
        place,
        conditions,
    })
}

fn query_for(alloc: Global, layout: Layout, mut query: Query) -> Result<Query, Fault>
    ensures ok { IfOk result (λ found. found ≡ query_for layout query) }
    ensures only { IsOkUnless result Fault.Memory }
{
    if !layout.counts_averages() || !has_average(query.aggregates.as_slice()) {
        return Ok(query);
    }
    query.aggregates = with_count(alloc, query.aggregates.as_slice())?;
    Ok(query)
}

fn has_average(aggregates: &[Agg]) -> bool
    ensures { result ≡ list_any is_average aggregates.now }
{
    aggregates.iter().any(|agg| agg.is_average())
}

// Sums in place of averages, and the count of rows after all.
fn with_count(alloc: Global, aggregates: &[Agg]) -> Result<Items<Agg>, Fault>
    ensures ok { IfOk result (λ list. list ≡ with_count aggregates.now) }
    ensures only { IsOkUnless result Fault.Memory }
{
    let mut list = Items::new(alloc);
    for agg in aggregates {
        list.push(summed(*agg))?;
    }
    list.push(Agg::Count)?;
    Ok(list)
}

fn summed(agg: Agg) -> Agg
    ensures { result ≡ summed agg }
{
    match agg {
        Agg::Avg(measure) => Agg::Sum(measure),
        agg => agg,
    }
}
