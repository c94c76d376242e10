//! The measures of a fact row, and the aggregates over them.
ghost use Rattle.std.specs.Prelude.{◌≡◌};
ghost use Rattle.cube_model.specs.Names.{measure_name};
ghost use Rattle.cube_model.specs.Proper.{is_average};

use std::fmt;

/// A number of a fact row that can be added up.
#[derive(Clone, Copy, PartialEq, Eq)]
pub enum Measure {
    Quantity,
    ExtendedPrice,
    Revenue,
    SupplyCost,
    /// The extended price times the discount.
    Discounted,
    /// The revenue less the supply cost.
    Profit,
}

impl Measure {
    /// The name of the measure in queries and reports.
    pub fn name(self) -> &'static str
        ensures { result.now ≡ measure_name self }
    {
        match self {
            Measure::Quantity => "quantity",
            Measure::ExtendedPrice => "extendedprice",
            Measure::Revenue => "revenue",
            Measure::SupplyCost => "supplycost",
            Measure::Discounted => "discounted",
            Measure::Profit => "profit",
        }
    }
}

impl fmt::Display for Measure {
    fn fmt<W: fmt::Write>(&self, f: &mut fmt::Formatter<W>) -> fmt::Result {
        f.write_str(self.name())
    }
}

/// An aggregate over the rows of a line.
#[derive(Clone, Copy, PartialEq, Eq)]
pub enum Agg {
    Count,
    Sum(Measure),
    Min(Measure),
    Max(Measure),
    Avg(Measure),
}

impl Agg {
    /// Whether it is an average.
    pub fn is_average(self) -> bool
        ensures { result ≡ is_average self }
    {
        matches!(self, Agg::Avg(_))
    }
}
