//! Look-ups by name.
ghost use Rattle.std.specs.Prelude.{◌≡◌, ◌≢◌, MatchOption};
ghost use Rattle.cube_model.specs.Names.{attr_name, measure_name};
ghost use Rattle.ssb_reports.specs.Benchmark.{query_number_text};
ghost use Rattle.query_words.specs.declared.known.Subject.TheVariants.{Quantity, Discount};
ghost use Rattle.query_words.specs.Known.{column_name, subject_name, taken_name};
ghost use Rattle.query_words.specs.Reading.{Finds};
ghost use Rattle.query_words.specs.Words.{kind_name};

use crate::known::{self, ATTRIBUTES, Column, KINDS, MEASURES, NUMBERS, Subject, TAKEN, Taken};
use cube_model::{Attr, Kind, Measure};
use mode_queries::SHIP_MODE;
use ssb_reports::QNumber;

/// What can be a column, by its name.
pub fn column(name: &str) -> Option<Column>
    ensures { Finds (λ column. name.now ≡ column_name column) result }
{
    match attribute(name) {
        Some(attr) => Some(Column::Attribute(attr)),
        None if name == SHIP_MODE => Some(Column::ShipMode),
        None => None,
    }
}

// The attribute of a name.
fn attribute(name: &str) -> Option<Attr>
    ensures { Finds (λ attr. name.now ≡ attr_name attr) result }
{
    for attr in ATTRIBUTES {
        if attr.name() == name {
            return Some(attr);
        }
    }
    None
}

/// What a condition is on, by its name.
pub fn subject(name: &str) -> Option<Subject>
    ensures { Finds (λ subject. name.now ≡ subject_name subject) result }
{
    match column(name) {
        Some(column) => Some(Subject::Member(column)),
        None => number_subject(name),
    }
}

// What a condition is on that can be no column, by its name.
fn number_subject(name: &str) -> Option<Subject>
    ensures { MatchOption result ((name.now ≢ subject_name Quantity) × (name.now ≢ subject_name Discount))
        (λ subject. name.now ≡ subject_name subject) }
{
    for subject in NUMBERS {
        if subject.name() == name {
            return Some(subject);
        }
    }
    None
}

/// The measure of a name.
pub fn measure(name: &str) -> Option<Measure>
    ensures { Finds (λ measure. name.now ≡ measure_name measure) result }
{
    for measure in MEASURES {
        if measure.name() == name {
            return Some(measure);
        }
    }
    None
}

/// What is taken of a measure, by its name.
pub fn taken(name: &str) -> Option<Taken>
    ensures { Finds (λ taken. name.now ≡ taken_name taken) result }
{
    for taken in TAKEN {
        if taken.name() == name {
            return Some(taken);
        }
    }
    None
}

/// The query of the benchmark with a number, such as `2.1`.
pub fn number(name: &str) -> Option<QNumber>
    ensures { Finds (λ number. name.now ≡ query_number_text number) result }
{
    for number in QNumber::ALL {
        if number.name() == name {
            return Some(number);
        }
    }
    None
}

/// The kind of a set by its name.
pub fn kind(name: &str) -> Option<Kind>
    ensures { Finds (λ kind. name.now ≡ kind_name kind) result }
{
    for kind in KINDS {
        if known::kind_name(kind) == name {
            return Some(kind);
        }
    }
    None
}
