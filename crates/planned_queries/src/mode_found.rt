//! An answer to a query that looks at ship modes, with the dimensions that have its texts.
ghost use Rattle.std.specs.Prelude.{◌≡◌};
ghost use Rattle.mode_folds.specs.Answered.{IsAnsweredOver, answered_over, lines_in};

use dimensions::Dims;
use mode_folds::{Answered, AnsweredLines};
use std::marker::Model;
use std::rc::Rc;

/// An answer that a fold found, with the dimensions that have its texts. Contracts see the answer.
pub struct FoundByModes {
    dims: Rc<Dims>,
    answered: Answered,
}

// Written out, so that a proof has one call to follow where what was found is let go.
impl Drop for FoundByModes {
    fn drop(self) {
        let FoundByModes {
            dims: _,
            answered: _,
        } = self;
    }
}

impl Model for FoundByModes {
    ghost use Rattle.cube_model.specs.declared.answer.Answer.{Answer};
    ghost use Rattle.mode_folds.specs.Answered.{IsAnsweredOver, answered_over};

    ghost Value = { Answer };

    ghost view = { λ found. answered_over found.dims.value found.answered };

    ghost invariant = { λ found. IsAnsweredOver found.dims.value found.answered };
}

impl FoundByModes {
    // What a fold found, over the dimensions of its beginning.
    pub(crate) fn of(dims: Rc<Dims>, answered: Answered) -> FoundByModes
        requires { IsAnsweredOver dims.value answered }
        ensures { result ≡ answered_over dims.value answered }
    {
        FoundByModes { dims, answered }
    }

    /// The lines of the answer.
    pub fn lines(&self) -> AnsweredLines<'_>
        ensures { lines_in result ≡ self.now.lines }
    {
        self.answered.over(&self.dims)
    }
}
