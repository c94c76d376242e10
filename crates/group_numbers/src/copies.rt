//! Copies of queries.
ghost use Rattle.std.specs.Prelude.{◌≡◌, IfOk};

use cube_model::{Agg, Attr, Cond, Items, Query, Text};
use std::alloc::{AllocError, Global};

fn copied_text(alloc: Global, text: &Text) -> Result<Text, AllocError>
    ensures { IfOk result (λ copy. copy ≡ text.now) }
{
    Ok(Items::from_vec(Vec::from_slice(alloc, text.as_slice())?))
}

fn copied_texts(alloc: Global, texts: &[Text]) -> Result<Items<Text>, AllocError>
    ensures { IfOk result (λ copies. copies ≡ texts.now) }
{
    let mut copies = Vec::with_capacity(alloc, texts.len())?;
    for text in texts {
        let copy = copied_text(alloc, text)?;
        copies.push(copy)?;
    }
    Ok(Items::from_vec(copies))
}

fn copied_condition(alloc: Global, condition: &Cond) -> Result<Cond, AllocError>
    ensures { IfOk result (λ copy. copy ≡ condition.now) }
{
    match condition {
        Cond::OneOf(attr, texts) => Ok(Cond::OneOf(*attr, copied_texts(alloc, texts.as_slice())?)),
        Cond::Between(attr, low, high) => {
            let low = copied_text(alloc, low)?;
            Ok(Cond::Between(*attr, low, copied_text(alloc, high)?))
        }
        Cond::Quantity(low, high) => Ok(Cond::Quantity(*low, *high)),
        Cond::Discount(low, high) => Ok(Cond::Discount(*low, *high)),
    }
}

fn copied_conditions(alloc: Global, conditions: &[Cond]) -> Result<Items<Cond>, AllocError>
    ensures { IfOk result (λ copies. copies ≡ conditions.now) }
{
    let mut copies = Vec::with_capacity(alloc, conditions.len())?;
    for condition in conditions {
        let copy = copied_condition(alloc, condition)?;
        copies.push(copy)?;
    }
    Ok(Items::from_vec(copies))
}

fn copied_columns(alloc: Global, columns: &[Attr]) -> Result<Items<Attr>, AllocError>
    ensures { IfOk result (λ copies. copies ≡ columns.now) }
{
    Ok(Items::from_vec(Vec::from_slice(alloc, columns)?))
}

fn copied_aggregates(alloc: Global, aggregates: &[Agg]) -> Result<Items<Agg>, AllocError>
    ensures { IfOk result (λ copies. copies ≡ aggregates.now) }
{
    Ok(Items::from_vec(Vec::from_slice(alloc, aggregates)?))
}

/// The same query once more. It can only fail when out of memory.
pub fn copied_query(alloc: Global, query: &Query) -> Result<Query, AllocError>
    ensures { IfOk result (λ copy. copy ≡ query.now) }
{
    Ok(Query {
        kind: query.kind,
        columns: copied_columns(alloc, query.columns.as_slice())?,
        conditions: copied_conditions(alloc, query.conditions.as_slice())?,
        aggregates: copied_aggregates(alloc, query.aggregates.as_slice())?,
        order: query.order,
    })
}
