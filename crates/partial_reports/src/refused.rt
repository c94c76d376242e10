//! Why a partial report cannot be read.
ghost use Rattle.std.specs.Prelude.{◌≡◌};

use cube_model::Fault;
use std::alloc::{AllocError, AllocFailed};

/// What is wrong in a line of a partial report.
#[derive(Clone, Copy, PartialEq, Eq)]
pub enum Wrong {
    /// Another version of the format, or no partial report.
    Version,
    /// The line of the parts.
    Part,
    /// The line of the dimensions.
    Dimensions,
    /// A word of the query.
    Words,
    /// The names of columns and aggregates.
    Names,
    /// A line has too few or too many fields.
    FieldCount,
    /// A field is no number in its one spelling, or a member cannot be one.
    Field,
    /// The key is not above that of the line before.
    KeyOrder,
    /// The text ends in the middle of a line, or before the number of lines.
    Cut,
    /// The number of lines is another one.
    Count,
}

/// Why a partial report was not read. Lines count from 1.
#[derive(Clone, Copy, PartialEq, Eq, Drop)]
pub enum Refused {
    /// A growth of memory was refused.
    Memory,
    /// A line is wrong.
    At { line: u64, wrong: Wrong },
}

impl Refused {
    // That a line is wrong.
    pub(crate) fn at(line: u64, wrong: Wrong) -> Refused {
        Refused::At { line, wrong }
    }
}

impl From<AllocError> for Refused {
    ghost use Rattle.partial_reports.specs.declared.refused.Refused.TheVariants.{Memory};

    ghost from_gives = { λ _ refused. refused ≡ Memory };

    fn from(_refused: AllocError) -> Refused {
        Refused::Memory
    }
}

impl<T: Drop> From<AllocFailed<T>> for Refused {
    ghost use Rattle.partial_reports.specs.declared.refused.Refused.TheVariants.{Memory};

    ghost from_gives = { λ _ refused. refused ≡ Memory };

    fn from(_refused: AllocFailed<T>) -> Refused {
        Refused::Memory
    }
}

impl From<Fault> for Refused {
    ghost use Rattle.partial_reports.specs.HeadReading.{IsSameCause};

    ghost from_gives = { IsSameCause };

    // Texts are spelled in memory, so no other fault than `Memory` comes here.
    fn from(_fault: Fault) -> Refused {
        Refused::Memory
    }
}
