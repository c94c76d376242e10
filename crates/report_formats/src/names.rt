//! What lines are sorted by, by its name.
ghost use Rattle.std.specs.Prelude.{◌≡◌};
ghost use Rattle.std.specs.List.{position};
ghost use Rattle.std.specs.Str.{bytes_eq};
ghost use Rattle.cube_model.specs.Names.{agg_name};
ghost use Rattle.mode_queries.specs.Names.{agg_word};
ghost use Rattle.report_formats.specs.Named.{is_named, sort_key_named};
ghost use Rattle.mode_queries.specs.Names.{column_names};

use crate::arrangement::SortKey;
use cube_model::{Agg, Measure};
use mode_queries::ModeQuery;

/// What the lines of a query's answer are sorted by, by a name: that of a column, such as `d_year`, or else that of an
/// aggregate, such as `sum(revenue)` or `sum:revenue`. The first that has the name is taken.
pub fn sort_key(asked: &ModeQuery, name: &str) -> Option<SortKey>
    ensures { result ≡ sort_key_named asked.now name.now }
{
    let column = column_named(asked, name);
    let aggregate = aggregate_named(asked.query.aggregates.as_slice(), name);
    match (column, aggregate) {
        (Some(column), _) => Some(SortKey::Column(column)),
        (None, Some(aggregate)) => Some(SortKey::Aggregate(aggregate)),
        (None, None) => None,
    }
}

fn column_named(asked: &ModeQuery, name: &str) -> Option<usize>
    ensures { result ≡ position (bytes_eq name.now) (column_names asked.now) }
{
    for column in 0..asked.column_count() {
        if name == asked.column_name(column) {
            return Some(column);
        }
    }
    None
}

fn aggregate_named(aggregates: &[Agg], name: &str) -> Option<usize>
    ensures { result ≡ position (is_named name.now) aggregates.now }
{
    aggregates.iter().position(|agg| is_named(name, *agg))
}

fn is_named(name: &str, agg: Agg) -> bool
    ensures { result ≡ is_named name.now agg }
{
    let (in_header, word) = spelled(agg);
    name == in_header || name == word
}

// An aggregate as the header of a report has it, and as words spell it.
fn spelled(agg: Agg) -> (&'static str, &'static str)
    ensures header { result.0.now ≡ agg_name agg }
    ensures word { result.1.now ≡ agg_word agg }
{
    match agg {
        Agg::Count => ("count", "count"),
        Agg::Sum(Measure::Quantity) => ("sum(quantity)", "sum:quantity"),
        Agg::Sum(Measure::ExtendedPrice) => ("sum(extendedprice)", "sum:extendedprice"),
        Agg::Sum(Measure::Revenue) => ("sum(revenue)", "sum:revenue"),
        Agg::Sum(Measure::SupplyCost) => ("sum(supplycost)", "sum:supplycost"),
        Agg::Sum(Measure::Discounted) => ("sum(discounted)", "sum:discounted"),
        Agg::Sum(Measure::Profit) => ("sum(profit)", "sum:profit"),
        Agg::Min(Measure::Quantity) => ("min(quantity)", "min:quantity"),
        Agg::Min(Measure::ExtendedPrice) => ("min(extendedprice)", "min:extendedprice"),
        Agg::Min(Measure::Revenue) => ("min(revenue)", "min:revenue"),
        Agg::Min(Measure::SupplyCost) => ("min(supplycost)", "min:supplycost"),
        Agg::Min(Measure::Discounted) => ("min(discounted)", "min:discounted"),
        Agg::Min(Measure::Profit) => ("min(profit)", "min:profit"),
        Agg::Max(Measure::Quantity) => ("max(quantity)", "max:quantity"),
        Agg::Max(Measure::ExtendedPrice) => ("max(extendedprice)", "max:extendedprice"),
        Agg::Max(Measure::Revenue) => ("max(revenue)", "max:revenue"),
        Agg::Max(Measure::SupplyCost) => ("max(supplycost)", "max:supplycost"),
        Agg::Max(Measure::Discounted) => ("max(discounted)", "max:discounted"),
        Agg::Max(Measure::Profit) => ("max(profit)", "max:profit"),
        Agg::Avg(Measure::Quantity) => ("avg(quantity)", "avg:quantity"),
        Agg::Avg(Measure::ExtendedPrice) => ("avg(extendedprice)", "avg:extendedprice"),
        Agg::Avg(Measure::Revenue) => ("avg(revenue)", "avg:revenue"),
        Agg::Avg(Measure::SupplyCost) => ("avg(supplycost)", "avg:supplycost"),
        Agg::Avg(Measure::Discounted) => ("avg(discounted)", "avg:discounted"),
        Agg::Avg(Measure::Profit) => ("avg(profit)", "avg:profit"),
    }
}
