//! Queries, and which of them are proper.
ghost use Rattle.std.specs.Prelude.{◌≡◌, ◌↔◌, IsTrue, OnOk, OnErr, IfErr, IfOk};
ghost use Rattle.std.specs.List.{AllByRecursion};
ghost use Rattle.cube_model.specs.Proper.{IsProper, IsFreeOfRepeats, IsFitCondition, IsFitOrder};

use crate::attr::Attr;
use crate::fault::Fault;
use crate::items::{Items, Text};
use crate::limits::{MOST_AGGREGATES, MOST_COLUMNS, MOST_CONDITIONS, MOST_LISTED_TEXTS};
use crate::measure::Agg;
use std::marker::Model;

/// A condition on a fact row.
#[derive(PartialEq, Eq, Drop)]
pub enum Cond {
    /// The attribute is one of the texts.
    OneOf(Attr, Items<Text>),
    /// The attribute lies between the two texts by bytes, both included.
    Between(Attr, Text, Text),
    /// The quantity lies between the two numbers, both included.
    Quantity(u8, u8),
    /// The discount lies between the two numbers, both included.
    Discount(u8, u8),
}

/// Which groupings a query asks for.
#[derive(Clone, Copy, PartialEq, Eq)]
pub enum Kind {
    /// By all columns.
    Plain,
    /// By each beginning of the columns.
    Rollup,
    /// By each choice of columns.
    Cube,
}

/// By which column and then, falling, by which aggregate the lines are sorted. Both count from 0.
#[derive(Clone, Copy, PartialEq, Eq)]
pub struct Order {
    pub column: usize,
    pub aggregate: usize,
}

/// A query: of the fact rows of which all conditions hold, the aggregates by the groups.
#[derive(PartialEq, Eq)]
pub struct Query {
    pub kind: Kind,
    pub columns: Items<Attr>,
    pub conditions: Items<Cond>,
    pub aggregates: Items<Agg>,
    pub order: Option<Order>,
}

// Written out, so that a proof has one call to follow where one is let go.
impl Drop for Query {
    fn drop(self) {
        let Query {
            kind: _,
            columns: _,
            conditions: _,
            aggregates: _,
            order: _,
        } = self;
    }
}

fn is_free_of_repeats(columns: &[Attr]) -> bool
    ensures { IsTrue result ↔ IsFreeOfRepeats columns.now }
{
    match columns {
        [] => true,
        [column, rest @ ..] => !rest.contains(column) && is_free_of_repeats(rest),
    }
}

fn is_fit_condition(condition: &Cond) -> bool
    ensures { IsTrue result ↔ IsFitCondition condition.now }
{
    match condition {
        Cond::OneOf(_, texts) => {
            let count = texts.as_slice().len();
            1 <= count && count <= MOST_LISTED_TEXTS
        }
        Cond::Between(_, _, _) => true,
        Cond::Quantity(_, _) => true,
        Cond::Discount(_, _) => true,
    }
}

fn are_fit_conditions(conditions: &[Cond]) -> bool
    ensures { IsTrue result ↔ AllByRecursion IsFitCondition conditions.now }
{
    match conditions {
        [] => true,
        [condition, rest @ ..] => is_fit_condition(condition) && are_fit_conditions(rest),
    }
}

fn is_fit_order(query: &Query, order: Order) -> bool
    ensures { IsTrue result ↔ IsFitOrder query.now order }
{
    let columns = query.columns.as_slice();
    match query.aggregates.as_slice().get(order.aggregate) {
        None => false,
        Some(agg) => {
            query.kind == Kind::Plain && order.column < columns.len() && !agg.is_average()
        }
    }
}

impl Query {
    /// The query as one that may be asked, or `BadQuery`. It takes no memory.
    pub fn check(&self) -> Result<ProperQuery<'_>, Fault>
        ensures ok { IfOk result (λ query. query ≡ self.now) }
        ensures proper { OnOk result (IsProper self.now) }
        ensures improper { OnErr result (IsProper self.now → ⊥) }
        ensures only { IfErr result (λ fault. fault ≡ Fault.BadQuery) }
    {
        let columns = self.columns.as_slice();
        let aggregates = self.aggregates.as_slice();
        let conditions = self.conditions.as_slice();
        if columns.len() > MOST_COLUMNS || !is_free_of_repeats(columns) {
            return Err(Fault::BadQuery);
        }
        if aggregates.is_empty() || aggregates.len() > MOST_AGGREGATES {
            return Err(Fault::BadQuery);
        }
        if conditions.len() > MOST_CONDITIONS || !are_fit_conditions(conditions) {
            return Err(Fault::BadQuery);
        }
        if let Some(order) = self.order {
            if !is_fit_order(self, order) {
                return Err(Fault::BadQuery);
            }
        }
        Ok(ProperQuery { query: self })
    }
}

/// A query that may be asked. [`Query::check`] makes it.
///
/// Contracts see the query.
#[derive(Drop)]
pub struct ProperQuery<'a> {
    query: &'a Query,
}

impl<'a> Model for ProperQuery<'a> {
    ghost use Rattle.cube_model.specs.Proper.{IsProper};
    ghost use Rattle.cube_model.specs.declared.query.Query.{Query};

    ghost Value = { Query };

    ghost view = { λ proper. proper.query.now };

    ghost invariant = { λ proper. IsProper proper.query.now };
}

impl<'a> ProperQuery<'a> {
    /// The query.
    pub fn get(&self) -> &'a Query
        ensures query { result.now ≡ self.now }
        ensures proper { IsProper result.now }
    {
        self.query
    }
}
