//! An answer that was found, of whose lines none is made.
ghost use Rattle.std.specs.Prelude.{◌≡◌, Err, List, IfErr, IfOk};
ghost use Rattle.group_tallies.specs.Limits.{EndsFolding};
ghost use Rattle.cube_model.specs.Answers.{answer};
ghost use Rattle.cube_model.specs.declared.rows.LineOrder.{LineOrder};
ghost use Rattle.cube_query.specs.Groups.{IsFoldable, IsOver, RepresentsRows};

use cube_model::{Answer, Fault};
use cube_query::Fold;
use dimensions::Dims;
use group_tallies::{GroupLines, Groups};
use std::alloc::{AllocError, Global};
use std::marker::Model;
use std::rc::Rc;

/// An answer as the groups that a fold found, with the dimensions that have their texts. None of its lines is made.
/// Contracts see the answer.
pub struct Found {
    dims: Rc<Dims>,
    groups: Groups,
}

// Written out, so that a proof has one call to follow where what was found is let go.
impl Drop for Found {
    fn drop(self) {
        let Found { dims: _, groups: _ } = self;
    }
}

impl Model for Found {
    ghost use Rattle.cube_model.specs.declared.answer.Answer.{Answer};
    ghost use Rattle.group_tallies.specs.GroupLines.{AreGroupsOver, answer_over};

    ghost Value = { Answer };

    ghost view = { λ found. answer_over found.dims.value found.groups };

    ghost invariant = { λ found. AreGroupsOver found.dims.value found.groups };
}

impl Found {
    // What a fold has found, over the dimensions of its beginning.
    pub(crate) fn of(dims: &Rc<Dims>, fold: Fold) -> Result<Found, Fault>
        requires { IsOver dims.now.value fold }
        ensures answer { IfOk result (λ found. (rows : List LineOrder) → RepresentsRows dims.now.value fold rows
            → found ≡ answer fold.query dims.now.value rows) }
        ensures refused { result ≡ Err Fault.BadLayout → IsFoldable dims.now.value fold → ⊥ }
        ensures only { IfErr result EndsFolding }
    {
        let groups = fold.into_groups(dims)?;
        let dims = dims.clone()?;
        Ok(Found { dims, groups })
    }

    /// The lines of the answer.
    pub fn lines(&self) -> GroupLines<'_>
        ensures { result ≡ self.now.lines }
    {
        self.groups.over(&self.dims)
    }

    /// The answer with its lines.
    pub fn answer(&self, alloc: Global) -> Result<Answer, AllocError>
        ensures { IfOk result (λ answer. answer ≡ self.now) }
    {
        self.groups.answer(alloc, &self.dims)
    }
}
