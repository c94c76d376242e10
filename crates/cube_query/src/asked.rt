//! The columns of fact rows at which a query looks.
ghost use Rattle.std.specs.Prelude.{◌≡◌, ◌++◌, ◌∷◌, [], cond, IfOk, OnOk};
ghost use Rattle.std.specs.List.{list_any};
ghost use Rattle.cube_model.specs.Attributes.{axis_of};
ghost use Rattle.cube_query.specs.Asked.{aggregate_asks, asked_columns, condition_asks, has_keys_of, is_asked};
ghost use Rattle.cube_query.specs.Asked.{is_made_of};

use column_segment::FactColumn;
use cube_model::{Agg, Attr, Axis, Cond, Measure, Query};
use std::alloc::{AllocError, Global};

const FACT_COLUMNS: [FactColumn; 13] = [
    FactColumn::OrderKey,
    FactColumn::LineNumber,
    FactColumn::CustKey,
    FactColumn::PartKey,
    FactColumn::SuppKey,
    FactColumn::OrderDate,
    FactColumn::Quantity,
    FactColumn::ExtendedPrice,
    FactColumn::OrdTotalPrice,
    FactColumn::Discount,
    FactColumn::Revenue,
    FactColumn::SupplyCost,
    FactColumn::Tax,
];

/// The columns at which a query looks, in the order of their places.
pub(crate) fn asked_columns(alloc: Global, query: &Query) -> Result<Vec<FactColumn>, AllocError>
    ensures { IfOk result (λ columns. columns.items ≡ asked_columns query.now) }
{
    let mut asked = Vec::with_capacity(alloc, FACT_COLUMNS.len())?;
    for column in FACT_COLUMNS {
        push_if_asked(&mut asked, query, column)?;
    }
    Ok(asked)
}

// Adds a column to others if a query looks at it.
fn push_if_asked(
    asked: &mut Vec<FactColumn>,
    query: &Query,
    column: FactColumn,
) -> Result<(), AllocError>
    ensures { OnOk result (asked.new.items ≡ asked.old.items ++ cond (is_asked query.now column) (column ∷ []) []) }
{
    if is_asked(query, column) {
        asked.push(column)?;
    }
    Ok(())
}

// Whether a query looks at a column.
fn is_asked(query: &Query, column: FactColumn) -> bool
    ensures { result ≡ is_asked query.now column }
{
    columns_ask(query.columns.as_slice(), column)
        || conditions_ask(query.conditions.as_slice(), column)
        || aggregates_ask(query.aggregates.as_slice(), column)
}

fn columns_ask(attrs: &[Attr], column: FactColumn) -> bool
    ensures { result ≡ list_any (λ attr. has_keys_of (axis_of attr) column) attrs.now }
{
    attrs.iter().any(|attr| has_keys_of(attr.axis(), column))
}

fn conditions_ask(conditions: &[Cond], column: FactColumn) -> bool
    ensures { result ≡ list_any (condition_asks column) conditions.now }
{
    conditions
        .iter()
        .any(|condition| condition_asks(condition, column))
}

fn aggregates_ask(aggregates: &[Agg], column: FactColumn) -> bool
    ensures { result ≡ list_any (aggregate_asks column) aggregates.now }
{
    aggregates.iter().any(|agg| aggregate_asks(*agg, column))
}

// Whether a condition looks at a column.
fn condition_asks(condition: &Cond, column: FactColumn) -> bool
    ensures { result ≡ condition_asks column condition.now }
{
    match condition {
        Cond::OneOf(attr, _) | Cond::Between(attr, _, _) => has_keys_of(attr.axis(), column),
        Cond::Quantity(_, _) => is_made_of(Measure::Quantity, column),
        Cond::Discount(_, _) => matches!(column, FactColumn::Discount),
    }
}

// Whether an aggregate looks at a column.
fn aggregate_asks(agg: Agg, column: FactColumn) -> bool
    ensures { result ≡ aggregate_asks column agg }
{
    match agg {
        Agg::Count => false,
        Agg::Sum(measure) | Agg::Min(measure) | Agg::Max(measure) | Agg::Avg(measure) => {
            is_made_of(measure, column)
        }
    }
}

// Whether a column has the keys of a dimension.
fn has_keys_of(axis: Axis, column: FactColumn) -> bool
    ensures { result ≡ has_keys_of axis column }
{
    matches!(
        (axis, column),
        (Axis::Customer, FactColumn::CustKey)
            | (Axis::Supplier, FactColumn::SuppKey)
            | (Axis::Part, FactColumn::PartKey)
            | (Axis::Date, FactColumn::OrderDate)
    )
}

// Whether a measure is made of what a column has.
fn is_made_of(measure: Measure, column: FactColumn) -> bool
    ensures { result ≡ is_made_of measure column }
{
    match measure {
        Measure::Quantity => matches!(column, FactColumn::Quantity),
        Measure::ExtendedPrice => matches!(column, FactColumn::ExtendedPrice),
        Measure::Revenue => matches!(column, FactColumn::Revenue),
        Measure::SupplyCost => matches!(column, FactColumn::SupplyCost),
        Measure::Discounted => matches!(column, FactColumn::ExtendedPrice | FactColumn::Discount),
        Measure::Profit => matches!(column, FactColumn::Revenue | FactColumn::SupplyCost),
    }
}
