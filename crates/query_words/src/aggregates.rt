//! The words of aggregates.
ghost use Rattle.std.specs.Prelude.{◌≡◌, ◌≢◌, map};
ghost use Rattle.std.specs.List.{AllZip};
ghost use Rattle.cube_model.specs.declared.measure.Measure.{Measure};
ghost use Rattle.cube_model.specs.Names.{measure_name};
ghost use Rattle.query_words.specs.Cuts.{HasNeither};
ghost use Rattle.query_words.specs.Known.{agg_of};
ghost use Rattle.query_words.specs.Mistakes.{IsAggregateMistake, IsAggregatesMistake, IsMeasureMistake, IsMistakeAmong};
ghost use Rattle.query_words.specs.Reading.{Reads};
ghost use Rattle.query_words.specs.Words.{SpellsAggregate, parts_by};

use crate::cuts::cut;
use crate::known::{COUNT, Known, Taken};
use crate::names::{measure, taken};
use crate::parts::parts;
use crate::refused::{Mistake, Refused};
use cube_model::{Agg, Items};
use std::alloc::Global;

/// Reads aggregates that are separated by commas, such as `count,sum:revenue`, or as a header has them,
/// `count,sum(revenue)`.
pub fn read_aggregates(alloc: Global, text: &str) -> Result<Items<Agg>, Refused<'_>>
    ensures { Reads (AllZip SpellsAggregate (parts_by 44 text.now)) (IsAggregatesMistake text.now) result }
{
    if text.is_empty() {
        return Err(Refused::NoAggregate);
    }
    let words = parts(alloc, text, ',')?;
    aggregates_of(alloc, words.as_slice())
}

// The aggregates that words spell.
fn aggregates_of<'a>(alloc: Global, words: &[&'a str]) -> Result<Items<Agg>, Refused<'a>>
    ensures { let words = map (λ word. word.now) words.now in
        Reads (AllZip SpellsAggregate words) (IsMistakeAmong IsAggregateMistake words) result }
{
    let mut aggregates = Items::new(alloc);
    for word in words {
        let agg = aggregate(word)?;
        aggregates.push(agg)?;
    }
    Ok(aggregates)
}

// What is taken is before the first colon or opening bracket, and the measure after it.
fn aggregate(word: &str) -> Result<Agg, Refused<'_>>
    ensures { Reads (SpellsAggregate word.now) (IsAggregateMistake word.now) result }
{
    let Some((name, sign, rest)) = cut(word, ':', '(') else {
        return bare(word);
    };
    if name == COUNT {
        return Err(Mistake::CountAlone.of(word));
    }
    let Some(taken) = taken(name) else {
        return Err(Refused::Unknown {
            word: name,
            known: Known::Aggregate,
        });
    };
    if sign == ':' {
        return of_measure(word, taken, rest);
    }
    match rest.strip_suffix(')') {
        None => Err(Mistake::NotClosed.of(word)),
        Some(name) => of_measure(word, taken, name),
    }
}

// A word in which nothing comes after the name: only the count is of no measure.
fn bare(word: &str) -> Result<Agg, Refused<'_>>
    requires { HasNeither 58 40 word.now }
    ensures { Reads (SpellsAggregate word.now) (IsAggregateMistake word.now) result }
{
    if word == COUNT {
        return Ok(Agg::Count);
    }
    match taken(word) {
        Some(_) => Err(Mistake::NoMeasure.of(word)),
        None => Err(Refused::Unknown {
            word,
            known: Known::Aggregate,
        }),
    }
}

// What is taken of the measure of a name, in a word.
fn of_measure<'a>(word: &'a str, taken: Taken, name: &'a str) -> Result<Agg, Refused<'a>>
    ensures { Reads (λ agg. (measure : Measure) × (agg ≡ agg_of taken measure) × (name.now ≡ measure_name measure))
        (IsMeasureMistake word.now name.now) result }
{
    match measure(name) {
        Some(measure) => Ok(taken.of(measure)),
        None => Err(no_measure(word, name)),
    }
}

// The discount of a fact row is no measure.
fn no_measure<'a>(word: &'a str, name: &'a str) -> Refused<'a>
    requires { (measure : Measure) → name.now ≢ measure_name measure }
    ensures { IsMeasureMistake word.now name.now result }
{
    if name.eq_ignore_ascii_case("discount") {
        Mistake::OnlyCondition.of(word)
    } else {
        Refused::Unknown {
            word: name,
            known: Known::Measure,
        }
    }
}
