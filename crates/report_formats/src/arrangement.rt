//! How the lines of a report are arranged.

/// What lines are sorted by. Columns and aggregates count from 0.
#[derive(Clone, Copy, PartialEq, Eq)]
pub enum SortKey {
    /// The member of a column.
    Column(usize),
    /// The value of an aggregate.
    Aggregate(usize),
    /// The average of a sum over a count, each the value of an aggregate.
    Average(usize, usize),
}

/// The order of lines. Those that are equal by the key are in the order of the members, ascending.
#[derive(Clone, Copy, PartialEq, Eq)]
pub struct Sorting {
    pub key: SortKey,
    pub descending: bool,
}

/// The order and the number of lines.
#[derive(Clone, Copy, PartialEq, Eq)]
pub struct Arrangement {
    /// The order that is asked for. Without one the lines are in that of the answer.
    pub sorting: Option<Sorting>,
    /// The most lines that are wanted. Without a limit these are all.
    pub limit: Option<usize>,
}

impl Arrangement {
    ghost use Rattle.std.specs.Prelude.{◌≡◌};
    ghost use Rattle.report_formats.specs.Arranging.{no_arrangement};

    /// All lines as they are.
    pub fn none() -> Arrangement
        ensures { result ≡ no_arrangement }
    {
        Arrangement {
            sorting: None,
            limit: None,
        }
    }
}
