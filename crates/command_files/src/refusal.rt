//! A refusal, with a line of what the program knows of it.
use cube_model::Fault;
use std::alloc::AllocError;

/// A fault, and a line in plain words after it where the program knows more.
#[derive(Drop)]
pub struct Refusal {
    pub fault: Fault,
    pub hint: Option<String>,
}

impl From<Fault> for Refusal {
    fn from(fault: Fault) -> Refusal {
        Refusal { fault, hint: None }
    }
}

/// The refusal of a query, with what is wrong with it.
pub fn bad_query(hint: Result<String, AllocError>) -> Refusal {
    Refusal {
        fault: Fault::BadQuery,
        hint: hint.ok(),
    }
}

impl From<AllocError> for Refusal {
    fn from(refused: AllocError) -> Refusal {
        Refusal::from(Fault::from(refused))
    }
}
