//! A query that is asked, however it was given.
ghost use Rattle.std.specs.Prelude.{◌≡◌, IfErr, IfOk, OnErr, OnOk};
ghost use Rattle.mode_queries.specs.Proper.{IsProperByModes};
ghost use Rattle.mode_queries.specs.References.{asked_by};

use crate::query::{ModeCond, ModeQuery};
use cube_model::{Fault, ProperQuery, Query};
use std::marker::Model;

/// A query of the dimensions alone, or one that may look at ship modes.
#[derive(Clone, Copy)]
pub enum QueryRef<'a> {
    Plain(&'a Query),
    ByModes(&'a ModeQuery),
}

impl<'a> QueryRef<'a> {
    /// The query as one that may be asked, or `BadQuery`. It takes no memory.
    pub fn check(&self) -> Result<ProperRef<'a>, Fault>
        ensures ok { IfOk result (λ proper. proper ≡ asked_by self.now) }
        ensures proper { OnOk result (IsProperByModes (asked_by self.now)) }
        ensures improper { OnErr result (IsProperByModes (asked_by self.now) → ⊥) }
        ensures only { IfErr result (λ fault. fault ≡ Fault.BadQuery) }
    {
        match *self {
            QueryRef::Plain(query) => Ok(ProperRef::of(*self, query.check()?)),
            QueryRef::ByModes(asked) => Ok(asked.check()?.into_ref()),
        }
    }

    /// The query without ship modes.
    pub fn query(&self) -> &'a Query
        ensures { result.now ≡ (asked_by self.now).query }
    {
        match *self {
            QueryRef::Plain(query) => query,
            QueryRef::ByModes(asked) => &asked.query,
        }
    }

    /// The place of the ship mode among the columns, where it is one of them.
    pub fn place(&self) -> Option<usize>
        ensures { result ≡ (asked_by self.now).place }
    {
        match *self {
            QueryRef::Plain(_) => None,
            QueryRef::ByModes(asked) => asked.place,
        }
    }

    /// The conditions on the ship mode.
    pub fn conditions(&self) -> &'a [ModeCond]
        ensures { result.now ≡ (asked_by self.now).conditions }
    {
        match *self {
            QueryRef::Plain(_) => &[],
            QueryRef::ByModes(asked) => asked.conditions.as_slice(),
        }
    }
}

/// A query that may be asked, however it was given. [`QueryRef::check`] makes it.
///
/// Contracts see the query.
#[derive(Drop)]
pub struct ProperRef<'a> {
    asked: QueryRef<'a>,
    query: ProperQuery<'a>,
}

impl<'a> Model for ProperRef<'a> {
    ghost use Rattle.std.specs.Prelude.{◌≡◌};
    ghost use Rattle.mode_queries.specs.Proper.{IsProperByModes};
    ghost use Rattle.mode_queries.specs.References.{asked_by};
    ghost use Rattle.mode_queries.specs.declared.query.ModeQuery.{ModeQuery};

    ghost Value = { ModeQuery };

    ghost view = { λ proper. asked_by proper.asked };

    ghost invariant = { λ proper. IsProperByModes (asked_by proper.asked)
        × (proper.query ≡ (asked_by proper.asked).query) };
}

impl<'a> ProperRef<'a> {
    // A query, with the same without ship modes.
    pub(crate) fn of(asked: QueryRef<'a>, query: ProperQuery<'a>) -> ProperRef<'a>
        requires proper { IsProperByModes (asked_by asked) }
        requires query { query ≡ (asked_by asked).query }
        ensures { result ≡ asked_by asked.entry }
    {
        ProperRef { asked, query }
    }

    /// The query as it was given, and without ship modes.
    pub fn into_parts(self) -> (QueryRef<'a>, ProperQuery<'a>)
        ensures asked { asked_by result.0 ≡ self.entry }
        ensures query { result.1 ≡ (asked_by result.0).query }
        ensures proper { IsProperByModes (asked_by result.0) }
    {
        let ProperRef { asked, query } = self;
        (asked, query)
    }
}
