//! Queries that look at ship modes, and which of them are proper.
ghost use Rattle.std.specs.Prelude.{◌≡◌, ◌↔◌, ◌+◌, ◌≤◌, None, IfErr, IfNone, IfOk, IfSome, IsTrue, OnErr, OnOk, length};
ghost use Rattle.cube_model.specs.Limits.{most_columns};
ghost use Rattle.cube_model.specs.declared.query.Query.{Query};
ghost use Rattle.mode_queries.specs.Lawful.{without_modes};
ghost use Rattle.mode_queries.specs.Proper.{IsFitModeCondition, IsProperByModes};

use crate::reference::{ProperRef, QueryRef};
use cube_model::limits::{MOST_COLUMNS, MOST_CONDITIONS, MOST_LISTED_TEXTS};
use cube_model::{Fault, Items, ProperQuery, Query, Text};
use std::alloc::Global;
use std::marker::Model;

/// The name of the ship mode of a fact row in queries and reports.
pub const SHIP_MODE: &str = "lo_shipmode";

/// A condition on the ship mode of a fact row.
#[derive(PartialEq, Eq, Drop)]
pub enum ModeCond {
    /// The ship mode is one of the texts.
    OneOf(Items<Text>),
    /// The ship mode lies between the two texts by bytes, both included.
    Between(Text, Text),
}

/// A query that may look at ship modes: one of its columns may be the ship mode, and conditions may be on it.
#[derive(PartialEq, Eq, Drop)]
pub struct ModeQuery {
    /// The query without ship modes: its other columns and conditions.
    pub query: Query,
    /// The place of the ship mode among the columns, counted from 0, where it is one of them.
    pub place: Option<usize>,
    /// The conditions on the ship mode.
    pub conditions: Items<ModeCond>,
}

impl ModeQuery {
    /// A query that does not look at ship modes.
    pub fn without_modes(alloc: Global, query: Query) -> ModeQuery
        ensures { result ≡ without_modes query }
    {
        ModeQuery {
            query,
            place: None,
            conditions: Items::new(alloc),
        }
    }

    /// The query, where it does not look at ship modes.
    pub fn plain(&self) -> Option<&Query>
        ensures some { IfSome result (λ query. self.now ≡ without_modes query.now) }
        ensures none { IfNone result ((query : Query) → self.now ≡ without_modes query → ⊥) }
    {
        if self.place.is_none() && self.conditions.is_empty() {
            Some(&self.query)
        } else {
            None
        }
    }

    /// The query, where it does not look at ship modes.
    pub fn into_plain(self) -> Option<Query>
        ensures some { IfSome result (λ query. self ≡ without_modes query) }
        ensures none { IfNone result ((query : Query) → self ≡ without_modes query → ⊥) }
    {
        let ModeQuery {
            query,
            place,
            conditions,
        } = self;
        if place.is_none() && conditions.is_empty() {
            Some(query)
        } else {
            None
        }
    }

    /// The query as one that may be asked, or `BadQuery`. It takes no memory.
    pub fn check(&self) -> Result<ProperModeQuery<'_>, Fault>
        ensures ok { IfOk result (λ proper. proper ≡ self.now) }
        ensures proper { OnOk result (IsProperByModes self.now) }
        ensures improper { OnErr result (IsProperByModes self.now → ⊥) }
        ensures only { IfErr result (λ fault. fault ≡ Fault.BadQuery) }
    {
        let query = self.query.check()?;
        if !is_fit_place(&self.query, self.place) {
            return Err(Fault::BadQuery);
        }
        let conditions = self.conditions.as_slice();
        if self.query.conditions.len() + conditions.len() > MOST_CONDITIONS {
            return Err(Fault::BadQuery);
        }
        if !conditions
            .iter()
            .all(|condition| is_fit_condition(condition))
        {
            return Err(Fault::BadQuery);
        }
        Ok(ProperModeQuery { asked: self, query })
    }
}

/// A query that may look at ship modes, and that may be asked. [`ModeQuery::check`] makes it.
///
/// Contracts see the query.
#[derive(Drop)]
pub struct ProperModeQuery<'a> {
    asked: &'a ModeQuery,
    query: ProperQuery<'a>,
}

impl<'a> Model for ProperModeQuery<'a> {
    ghost use Rattle.std.specs.Prelude.{◌≡◌};
    ghost use Rattle.mode_queries.specs.Proper.{IsProperByModes};
    ghost use Rattle.mode_queries.specs.declared.query.ModeQuery.{ModeQuery};

    ghost Value = { ModeQuery };

    ghost view = { λ proper. proper.asked.now };

    ghost invariant = { λ proper. IsProperByModes proper.asked.now
        × (proper.query ≡ proper.asked.now.query) };
}

impl<'a> ProperModeQuery<'a> {
    /// The query.
    pub fn get(&self) -> &'a ModeQuery
        ensures query { result.now ≡ self.now }
        ensures proper { IsProperByModes result.now }
    {
        self.asked
    }

    /// The query as one of those that may be given in either way.
    pub fn into_ref(self) -> ProperRef<'a>
        ensures { result ≡ self.entry }
    {
        let ProperModeQuery { asked, query } = self;
        ProperRef::of(QueryRef::ByModes(asked), query)
    }
}

// Whether the ship mode may be the column at a place of a query, if it is to be one.
fn is_fit_place(query: &Query, place: Option<usize>) -> bool
    ensures { IsTrue result ↔ IfSome place (λ place. (place ≤ length query.now.columns)
        × (length query.now.columns + 1 ≤ most_columns) × (query.now.order ≡ None)) }
{
    let columns = query.columns.len();
    match place {
        None => true,
        Some(place) => place <= columns && columns < MOST_COLUMNS && query.order.is_none(),
    }
}

fn is_fit_condition(condition: &ModeCond) -> bool
    ensures { IsTrue result ↔ IsFitModeCondition condition.now }
{
    match condition {
        ModeCond::OneOf(texts) => 1 <= texts.len() && texts.len() <= MOST_LISTED_TEXTS,
        ModeCond::Between(_, _) => true,
    }
}
