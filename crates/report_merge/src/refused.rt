//! Why partial reports were not merged.
ghost use Rattle.std.specs.Prelude.{◌≡◌};
ghost use Rattle.report_merge.specs.Faults.{merge_fault};
ghost use Rattle.report_merge.specs.Given.{no_query};

use cube_model::Fault;
use partial_reports::Wrong;
use std::alloc::{AllocError, AllocFailed};

/// Why a partial report was not merged with those before it.
#[derive(Clone, Copy, PartialEq, Eq, Drop)]
pub enum Refused {
    /// A growth of memory was refused.
    Memory,
    /// A reader failed.
    Input,
    /// A line of the text is wrong. Lines count from 1.
    At { line: u64, wrong: Wrong },
    /// It is of another query, or of the same one in other words.
    OtherWords,
    /// It is of a whole with another number of parts.
    OtherParts,
    /// It is over other dimension rows.
    OtherDimensions,
    /// A part with the number was merged before.
    Twice { number: u32 },
}

/// Which of several partial reports was not merged, and why. Places count from 0.
#[derive(Clone, Copy, PartialEq, Eq, Drop)]
pub struct Unmerged {
    pub place: usize,
    pub refused: Refused,
}

impl Refused {
    /// The fault of a refusal: `BadLayout` for a text that is no partial report, `BadQuery` for parts that are not of
    /// one whole.
    pub fn fault(&self) -> Fault
        ensures { result ≡ merge_fault self.now }
    {
        match self {
            Refused::Memory => Fault::Memory,
            Refused::Input => Fault::Input,
            Refused::At { .. } => Fault::BadLayout,
            Refused::OtherWords
            | Refused::OtherParts
            | Refused::OtherDimensions
            | Refused::Twice { .. } => Fault::BadQuery,
        }
    }

    // That the words of a head spell no query of the dimensions alone that may be asked. They begin in the fourth line.
    pub(crate) fn no_query() -> Refused
        ensures { result ≡ no_query }
    {
        Refused::At {
            line: 4,
            wrong: Wrong::Words,
        }
    }
}

impl From<AllocError> for Refused {
    ghost use Rattle.report_merge.specs.declared.refused.Refused.TheVariants.{Memory};

    ghost from_gives = { λ _ refused. refused ≡ Memory };

    fn from(_refused: AllocError) -> Refused {
        Refused::Memory
    }
}

impl<T: Drop> From<AllocFailed<T>> for Refused {
    ghost use Rattle.report_merge.specs.declared.refused.Refused.TheVariants.{Memory};

    ghost from_gives = { λ _ refused. refused ≡ Memory };

    fn from(_refused: AllocFailed<T>) -> Refused {
        Refused::Memory
    }
}

impl From<Fault> for Refused {
    ghost use Rattle.report_merge.specs.declared.refused.Refused.TheVariants.{Memory};

    ghost from_gives = { λ _ refused. refused ≡ Memory };

    // No other fault than `Memory` comes here: values that were read are whole numbers of 64 bits, and sums of those of
    // 1,024 parts have fewer than 128.
    fn from(_fault: Fault) -> Refused {
        Refused::Memory
    }
}

impl From<query_words::Refused<'_>> for Refused {
    ghost use Rattle.report_merge.specs.Given.{unspelled};

    ghost from_gives = { λ was refused. refused ≡ unspelled was };

    fn from(refused: query_words::Refused<'_>) -> Refused {
        match refused {
            query_words::Refused::Memory => Refused::Memory,
            _ => Refused::no_query(),
        }
    }
}

impl From<partial_reports::Refused> for Refused {
    ghost use Rattle.report_merge.specs.Refusals.{refused_of};

    ghost from_gives = { λ was refused. refused ≡ refused_of was };

    fn from(refused: partial_reports::Refused) -> Refused {
        match refused {
            partial_reports::Refused::Memory => Refused::Memory,
            partial_reports::Refused::At { line, wrong } => Refused::At { line, wrong },
        }
    }
}
