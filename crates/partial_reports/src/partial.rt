//! The query whose answers are a query's partial answers.
ghost use Rattle.std.specs.Prelude.{◌≡◌, ◌∷◌, map, IfOk, IsOkUnless};
ghost use Rattle.partial_reports.specs.Parts.{partial_agg, partial_query};
ghost use Rattle.cube_model.specs.declared.measure.Agg.TheVariants.{Count};

use cube_model::{Agg, Fault, Items, Query};
use std::alloc::Global;

/// What is kept of an aggregate: of an average the sum.
pub fn partial_agg(agg: Agg) -> Agg
    ensures { result ≡ partial_agg agg }
{
    match agg {
        Agg::Count => Agg::Count,
        Agg::Sum(measure) | Agg::Avg(measure) => Agg::Sum(measure),
        Agg::Min(measure) => Agg::Min(measure),
        Agg::Max(measure) => Agg::Max(measure),
    }
}

fn aggregates_of(alloc: Global, aggregates: &[Agg]) -> Result<Items<Agg>, Fault>
    ensures ok { IfOk result (λ kept. kept ≡ Count ∷ map partial_agg aggregates.now) }
    ensures only { IsOkUnless result Fault.Memory }
{
    let mut kept = Items::new(alloc);
    kept.push(Agg::Count)?;
    for agg in aggregates {
        kept.push(partial_agg(*agg))?;
    }
    Ok(kept)
}

/// The count first, then what is kept of each aggregate, in the order of the keys.
pub fn partial_query(alloc: Global, mut query: Query) -> Result<Query, Fault>
    ensures ok { IfOk result (λ partial. partial ≡ partial_query query) }
    ensures only { IsOkUnless result Fault.Memory }
{
    query.aggregates = aggregates_of(alloc, query.aggregates.as_slice())?;
    query.order = None;
    Ok(query)
}
