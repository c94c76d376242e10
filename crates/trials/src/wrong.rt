//! What may be wrong after a crash.
use cube_model::Fault;
use ssb_reports::QNumber;
use std::fmt;
use warehouse::Finding;

/// What is wrong after a crash. It prints as a part of a line.
#[derive(Clone, Copy)]
pub(crate) enum Wrong {
    /// A call was refused.
    Refused(Fault),
    /// There are other batches than those that were acknowledged, with or without the one that was being added.
    Batches { found: u32, acknowledged: u32 },
    /// What is stored is not right.
    Stored(Finding),
    /// The answer to a query is not that of one pass over the rows.
    Answer(QNumber),
}

impl fmt::Display for Wrong {
    fn fmt<W: fmt::Write>(&self, f: &mut fmt::Formatter<W>) -> fmt::Result {
        match *self {
            Wrong::Refused(fault) => write!(f, "{fault}"),
            Wrong::Batches {
                found,
                acknowledged,
            } => write!(f, "batches {found}, acknowledged {acknowledged}"),
            Wrong::Stored(finding) => write!(f, "{finding}"),
            Wrong::Answer(number) => {
                let name = number.name();
                write!(f, "report {name}: not the answer over the rows")
            }
        }
    }
}
