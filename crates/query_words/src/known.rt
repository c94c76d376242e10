//! The names that words may have, each in one table.
ghost use Rattle.std.specs.Prelude.{◌≡◌, IfSome};
ghost use Rattle.query_words.specs.Known.{IsName, agg_of, column_name, subject_name, taken_name};
ghost use Rattle.query_words.specs.Words.{kind_name};

use cube_model::{Agg, Attr, Kind, Measure};
use mode_queries::SHIP_MODE;
use ssb_reports::QNumber;

/// Of what a word has to be a name.
#[derive(Clone, Copy, PartialEq, Eq)]
pub enum Known {
    /// A query of the benchmark.
    Query,
    /// Which groupings.
    Set,
    /// An attribute of a fact row, or its ship mode.
    Attribute,
    /// What is taken of a measure, or the count.
    Aggregate,
    /// A measure of a fact row.
    Measure,
    /// What a condition is on: an attribute, the ship mode, the quantity or the discount.
    Ranged,
}

/// What is taken of the values of a measure.
#[derive(Clone, Copy, PartialEq, Eq)]
pub enum Taken {
    Sum,
    Min,
    Max,
    Avg,
}

/// What a query can have as a column.
#[derive(Clone, Copy, PartialEq, Eq)]
pub enum Column {
    Attribute(Attr),
    ShipMode,
}

/// What a condition is on.
#[derive(Clone, Copy, PartialEq, Eq)]
pub enum Subject {
    /// What can also be a column.
    Member(Column),
    Quantity,
    Discount,
}

pub(crate) const KINDS: [Kind; 3] = [Kind::Plain, Kind::Rollup, Kind::Cube];

pub(crate) const ATTRIBUTES: [Attr; 14] = [
    Attr::CustomerCity,
    Attr::CustomerNation,
    Attr::CustomerRegion,
    Attr::SupplierCity,
    Attr::SupplierNation,
    Attr::SupplierRegion,
    Attr::PartBrand1,
    Attr::PartCategory,
    Attr::PartMfgr,
    Attr::DateKey,
    Attr::DateYearmonthnum,
    Attr::DateYear,
    Attr::DateYearmonth,
    Attr::DateWeeknuminyear,
];

// How many things can be a column: the attributes and the ship mode.
const COLUMN_COUNT: usize = ATTRIBUTES.len() + 1;

// What a condition can be on that can be no column.
pub(crate) const NUMBERS: [Subject; 2] = [Subject::Quantity, Subject::Discount];

pub(crate) const TAKEN: [Taken; 4] = [Taken::Sum, Taken::Min, Taken::Max, Taken::Avg];

pub(crate) const MEASURES: [Measure; 6] = [
    Measure::Quantity,
    Measure::ExtendedPrice,
    Measure::Revenue,
    Measure::SupplyCost,
    Measure::Discounted,
    Measure::Profit,
];

/// The aggregate that is taken of no measure.
pub(crate) const COUNT: &str = "count";

impl Known {
    /// How many names there are.
    pub fn count(self) -> usize {
        match self {
            Known::Query => QNumber::ALL.len(),
            Known::Set => KINDS.len(),
            Known::Attribute => COLUMN_COUNT,
            Known::Aggregate => 1 + TAKEN.len(),
            Known::Measure => MEASURES.len(),
            Known::Ranged => COLUMN_COUNT + NUMBERS.len(),
        }
    }

    /// The name at a place of the list of all of them. Places count from 0; there is nothing after the last name.
    pub fn name_at(self, place: usize) -> Option<&'static str>
        ensures { IfSome result (λ name. IsName self name.now) }
    {
        match self {
            Known::Query => Some(QNumber::ALL.get(place)?.name()),
            Known::Set => Some(kind_name(*KINDS.get(place)?)),
            Known::Attribute => Some(column_at(place)?.name()),
            Known::Aggregate => match place.checked_sub(1) {
                None => Some(COUNT),
                Some(place) => Some(TAKEN.get(place)?.name()),
            },
            Known::Measure => Some(MEASURES.get(place)?.name()),
            Known::Ranged => Some(subject_at(place)?.name()),
        }
    }
}

// What can be a column: the attributes, and then the ship mode.
fn column_at(place: usize) -> Option<Column> {
    match ATTRIBUTES.get(place) {
        Some(attr) => Some(Column::Attribute(*attr)),
        None if place < COLUMN_COUNT => Some(Column::ShipMode),
        None => None,
    }
}

// What a condition can be on: what can be a column, and then the numbers.
fn subject_at(place: usize) -> Option<Subject> {
    match place.checked_sub(COLUMN_COUNT) {
        None => Some(Subject::Member(column_at(place)?)),
        Some(place) => NUMBERS.get(place).copied(),
    }
}

impl Taken {
    /// The name of what is taken, as words and headers of reports have it.
    pub(crate) fn name(self) -> &'static str
        ensures { result.now ≡ taken_name self }
    {
        match self {
            Taken::Sum => "sum",
            Taken::Min => "min",
            Taken::Max => "max",
            Taken::Avg => "avg",
        }
    }

    /// The aggregate that takes it of a measure.
    pub(crate) fn of(self, measure: Measure) -> Agg
        ensures { result ≡ agg_of self measure }
    {
        match self {
            Taken::Sum => Agg::Sum(measure),
            Taken::Min => Agg::Min(measure),
            Taken::Max => Agg::Max(measure),
            Taken::Avg => Agg::Avg(measure),
        }
    }
}

impl Column {
    /// The name of what can be a column.
    pub(crate) fn name(self) -> &'static str
        ensures { result.now ≡ column_name self }
    {
        match self {
            Column::Attribute(attr) => attr.name(),
            Column::ShipMode => SHIP_MODE,
        }
    }
}

impl Subject {
    /// The name of what a condition is on.
    pub(crate) fn name(self) -> &'static str
        ensures { result.now ≡ subject_name self }
    {
        match self {
            Subject::Member(column) => column.name(),
            Subject::Quantity => "quantity",
            Subject::Discount => "discount",
        }
    }
}

/// The name of a kind of set.
pub(crate) fn kind_name(kind: Kind) -> &'static str
    ensures { result.now ≡ kind_name kind }
{
    match kind {
        Kind::Plain => "plain",
        Kind::Rollup => "rollup",
        Kind::Cube => "cube",
    }
}
