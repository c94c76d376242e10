//! The queries of the benchmark.
ghost use Rattle.std.specs.Prelude.{◌≡◌, [], ◌∷◌, map, IfOk, IsOkUnless};
ghost use Rattle.ssb_reports.specs.Benchmark.{benchmark_query};
ghost use Rattle.ssb_reports.specs.Filters.{condition_of};

use crate::filter::{self, Filter};
use crate::number::QNumber;
use cube_model::{Agg, Attr, Cond, Fault, Items, Kind, Measure, Order, Query, Text};
use std::alloc::Global;

/// The query of a number. It can only fail when out of memory.
pub fn query_of(alloc: Global, number: QNumber) -> Result<Query, Fault>
    ensures ok { IfOk result (λ query. query ≡ benchmark_query number) }
    ensures only { IsOkUnless result Fault.Memory }
{
    let columns = Vec::from_slice(alloc, columns_of(number))?;
    let conditions = conditions_of(alloc, filters_of(number))?;
    let aggregates = Vec::from_slice(alloc, &[Agg::Sum(measure_of(number))])?;
    Ok(Query {
        kind: Kind::Plain,
        columns: Items::from_vec(columns),
        conditions,
        aggregates: Items::from_vec(aggregates),
        order: order_of(number),
    })
}

fn columns_of(number: QNumber) -> &'static [Attr]
    ensures { result.now ≡ (benchmark_query number).columns }
{
    match number {
        QNumber::Q11 | QNumber::Q12 | QNumber::Q13 => &[],
        QNumber::Q21 | QNumber::Q22 | QNumber::Q23 => &[Attr::DateYear, Attr::PartBrand1],
        QNumber::Q31 => &[Attr::CustomerNation, Attr::SupplierNation, Attr::DateYear],
        QNumber::Q32 | QNumber::Q33 | QNumber::Q34 => {
            &[Attr::CustomerCity, Attr::SupplierCity, Attr::DateYear]
        }
        QNumber::Q41 => &[Attr::DateYear, Attr::CustomerNation],
        QNumber::Q42 => &[Attr::DateYear, Attr::SupplierNation, Attr::PartCategory],
        QNumber::Q43 => &[Attr::DateYear, Attr::SupplierCity, Attr::PartBrand1],
    }
}

fn measure_of(number: QNumber) -> Measure
    ensures { (benchmark_query number).aggregates ≡ Agg.Sum result ∷ [] }
{
    match number {
        QNumber::Q11 | QNumber::Q12 | QNumber::Q13 => Measure::Discounted,
        QNumber::Q41 | QNumber::Q42 | QNumber::Q43 => Measure::Profit,
        _ => Measure::Revenue,
    }
}

// The years are in the third column of the queries that are in order by them.
fn order_of(number: QNumber) -> Option<Order>
    ensures { result ≡ (benchmark_query number).order }
{
    match number {
        QNumber::Q31 | QNumber::Q32 | QNumber::Q33 | QNumber::Q34 => Some(Order {
            column: 2,
            aggregate: 0,
        }),
        _ => None,
    }
}

fn filters_of(number: QNumber) -> &'static [Filter]
    ensures { map condition_of result.now ≡ (benchmark_query number).conditions }
{
    match number {
        QNumber::Q11 => filter::Q11,
        QNumber::Q12 => filter::Q12,
        QNumber::Q13 => filter::Q13,
        QNumber::Q21 => filter::Q21,
        QNumber::Q22 => filter::Q22,
        QNumber::Q23 => filter::Q23,
        QNumber::Q31 => filter::Q31,
        QNumber::Q32 => filter::Q32,
        QNumber::Q33 => filter::Q33,
        QNumber::Q34 => filter::Q34,
        QNumber::Q41 => filter::Q41,
        QNumber::Q42 => filter::Q42,
        QNumber::Q43 => filter::Q43,
    }
}

fn conditions_of(alloc: Global, filters: &[Filter]) -> Result<Items<Cond>, Fault>
    ensures ok { IfOk result (λ conditions. conditions ≡ map condition_of filters.now) }
    ensures only { IsOkUnless result Fault.Memory }
{
    let mut conditions = Items::new(alloc);
    for filter in filters {
        conditions.push(condition_of(alloc, *filter)?)?;
    }
    Ok(conditions)
}

fn condition_of(alloc: Global, filter: Filter) -> Result<Cond, Fault>
    ensures ok { IfOk result (λ condition. condition ≡ condition_of filter) }
    ensures only { IsOkUnless result Fault.Memory }
{
    match filter {
        Filter::Is(attr, text) => one_of(alloc, attr, &[text]),
        Filter::Either(attr, text, other) => one_of(alloc, attr, &[text, other]),
        Filter::Between(attr, low, high) => {
            Ok(Cond::Between(attr, text_of(alloc, low)?, text_of(alloc, high)?))
        }
        Filter::Quantity(low, high) => Ok(Cond::Quantity(low, high)),
        Filter::Discount(low, high) => Ok(Cond::Discount(low, high)),
    }
}

fn one_of(alloc: Global, attr: Attr, texts: &[&str]) -> Result<Cond, Fault>
    ensures ok { IfOk result (λ condition. condition ≡ Cond.OneOf attr (map (λ text. text.now) texts.now)) }
    ensures only { IsOkUnless result Fault.Memory }
{
    let mut list = Items::new(alloc);
    for text in texts {
        list.push(text_of(alloc, text)?)?;
    }
    Ok(Cond::OneOf(attr, list))
}

fn text_of(alloc: Global, text: &str) -> Result<Text, Fault>
    ensures ok { IfOk result (λ copy. copy ≡ text.now) }
    ensures only { IsOkUnless result Fault.Memory }
{
    Ok(Items::from_vec(Vec::from_slice(alloc, text.as_bytes())?))
}
