//! Answers.
ghost use Rattle.std.proofs.Common.{rules};
ghost use Rattle.std.specs.Cmp.Rules.{comparing};
ghost use Rattle.std.specs.Ordering.{as_partial_cmp, eq_by_cmp};
ghost use Rattle.cube_model.specs.Keys.{member_cmp};

use crate::items::{Items, Text};
use std::cmp::Ordering;

/// What a line has in a column.
#[derive(Drop)]
pub enum Member {
    /// A member of the column. Texts are in order by bytes.
    Text(Text),
    /// Any member: the column is not grouped. It comes after every text.
    All,
}

impl PartialEq for Member {
    ghost eq = { eq_by_cmp member_cmp };

    ghost laws = { Prim.search (comparing, rules) };

    fn eq(&self, other: &Self) -> bool {
        self.cmp(other).is_eq()
    }
}

impl Eq for Member {
    ghost laws = { Prim.search (comparing, rules) };
}

impl PartialOrd for Member {
    ghost partial_cmp = { as_partial_cmp member_cmp };

    ghost laws = { Prim.search (comparing, rules) };

    fn partial_cmp(&self, other: &Self) -> Option<Ordering> {
        Some(self.cmp(other))
    }
}

impl Ord for Member {
    ghost cmp = { member_cmp };

    ghost total = { Prim.search (comparing, rules) };

    ghost matches_partial_cmp = { Prim.search (comparing, rules) };

    ghost matches_eq = { Prim.search (comparing, rules) };

    fn cmp(&self, other: &Self) -> Ordering {
        match (self, other) {
            (Member::Text(left), Member::Text(right)) => left.cmp(right),
            (Member::Text(_), Member::All) => Ordering::Less,
            (Member::All, Member::Text(_)) => Ordering::Greater,
            (Member::All, Member::All) => Ordering::Equal,
        }
    }
}

/// A fraction in lowest terms, whose denominator is at least 1.
#[derive(Clone, Copy, PartialEq, Eq)]
pub struct Fraction {
    pub numerator: i64,
    pub denominator: u64,
}

/// The value of an aggregate.
#[derive(Clone, Copy, PartialEq, Eq)]
pub enum Value {
    Whole(i64),
    /// An average.
    Ratio(Fraction),
}

/// A line of an answer: a key with a member for each column, and a value for each aggregate.
#[derive(PartialEq, Eq, Drop)]
pub struct Line {
    pub key: Items<Member>,
    pub values: Items<Value>,
}

/// The lines of an answer, in order.
#[derive(PartialEq, Eq, Drop)]
pub struct Answer {
    pub lines: Items<Line>,
}
