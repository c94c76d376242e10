//! The words of a query, and why they are refused.
ghost use Rattle.std.specs.Prelude.{◌≡◌};
ghost use Rattle.query_words.specs.declared.refused.Refused.TheVariants.{TooMany, Wrong};

use crate::known::Known;
use cube_model::Fault;
use std::alloc::{AllocError, AllocFailed};

/// The words of a query: the number of a query of the benchmark, or the name of a set, columns, aggregates and
/// conditions.
#[derive(Clone, Copy)]
pub struct QueryWords<'a> {
    pub q: Option<&'a str>,
    pub set: Option<&'a str>,
    /// Columns that are separated by commas, such as `d_year,p_brand1`.
    pub by: Option<&'a str>,
    /// Aggregates that are separated by commas, such as `count,sum:revenue`, or as a header has them,
    /// `count,sum(revenue)`.
    pub agg: Option<&'a str>,
    /// Such as `d_year=1997|1998`, `p_brand1:MFGR#2221|MFGR#2228` and `quantity:0|24`.
    pub conditions: &'a [&'a str],
}

impl<'a> QueryWords<'a> {
    /// No word at all.
    pub const NONE: QueryWords<'static> = QueryWords {
        q: None,
        set: None,
        by: None,
        agg: None,
        conditions: &[],
    };
}

/// What a query has too many of.
#[derive(Clone, Copy, PartialEq, Eq)]
pub enum Counted {
    Columns,
    Aggregates,
    Conditions,
    /// Of one condition.
    Texts,
}

impl Counted {
    // That there are more than the most.
    pub(crate) fn too_many(self, count: usize, most: usize) -> Refused<'static>
        ensures { result ≡ TooMany self count most }
    {
        Refused::TooMany {
            counted: self,
            count,
            most,
        }
    }
}

/// What is wrong with a word of a condition, an aggregate or a group column.
#[derive(Clone, Copy, PartialEq, Eq)]
pub enum Mistake {
    /// A condition has no sign after its name.
    NoSign,
    /// Something that takes a range is given texts.
    NoList,
    /// A range has more than two ends.
    NotTwoEnds,
    /// A range has one end, as where the shell took a bar that was not quoted.
    NoBar,
    /// An end of a range is no number of 0 to 255.
    NoNumber,
    /// An aggregate has no measure.
    NoMeasure,
    /// A measure comes after an opening bracket and before no closing one.
    NotClosed,
    /// Something comes after count.
    CountAlone,
    /// An aggregate is of the discount, which is no measure.
    OnlyCondition,
    /// A group column occurs twice.
    Twice,
}

impl Mistake {
    // That it is in a word.
    pub(crate) fn of(self, word: &str) -> Refused<'_>
        ensures { result ≡ Wrong word.entry self }
    {
        Refused::Wrong {
            word,
            mistake: self,
        }
    }
}

/// Why words are refused: memory, or the first mistake in them, in the order set, columns, conditions, aggregates, and
/// then the limits of their numbers.
#[derive(Clone, Copy, PartialEq, Eq, Drop)]
pub enum Refused<'a> {
    /// A growth of memory was refused.
    Memory,
    /// Neither a query of the benchmark nor an aggregate is given.
    NothingAsked,
    /// Other words come with a query of the benchmark.
    NotAlone,
    /// The list of aggregates is empty.
    NoAggregate,
    /// The list of group columns is empty.
    NoColumn,
    /// A word is no known name.
    Unknown {
        word: &'a str,
        known: Known,
    },
    /// Something is wrong with a word.
    Wrong {
        word: &'a str,
        mistake: Mistake,
    },
    /// There are too many of something.
    TooMany {
        counted: Counted,
        count: usize,
        most: usize,
    },
}

impl From<AllocError> for Refused<'_> {
    ghost use Rattle.query_words.specs.declared.refused.Refused.TheVariants.{Memory};

    ghost from_gives = { λ _ refused. refused ≡ Memory };

    fn from(_refused: AllocError) -> Self {
        Refused::Memory
    }
}

impl<T: Drop> From<AllocFailed<T>> for Refused<'_> {
    ghost use Rattle.query_words.specs.declared.refused.Refused.TheVariants.{Memory};

    ghost from_gives = { λ _ refused. refused ≡ Memory };

    fn from(_refused: AllocFailed<T>) -> Self {
        Refused::Memory
    }
}

impl From<Refused<'_>> for Fault {
    ghost use Rattle.query_words.specs.Mistakes.{mistake_fault};

    ghost from_gives = { λ refused fault. fault ≡ mistake_fault refused };

    fn from(refused: Refused<'_>) -> Fault {
        match refused {
            Refused::Memory => Fault::Memory,
            _ => Fault::BadQuery,
        }
    }
}
