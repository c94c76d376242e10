//! The two forms of an answer that was found.
use planned_queries::{Found, FoundByModes};

/// An answer to a query that looks at no ship mode, or to one that does.
pub(crate) enum AnswerForm {
    Plain(Found),
    ByModes(FoundByModes),
}

// Written out, so that a proof has one call to follow where an answer is let go.
impl Drop for AnswerForm {
    fn drop(self) {
        match self {
            AnswerForm::Plain(_) => {}
            AnswerForm::ByModes(_) => {}
        }
    }
}
