//! How the mistake in words is said.
use crate::hints::WordHint;
use crate::known::Known;
use crate::refused::{Counted, Mistake, Refused};
use std::fmt;

impl fmt::Display for WordHint<'_> {
    fn fmt<W: fmt::Write>(&self, f: &mut fmt::Formatter<W>) -> fmt::Result {
        match self.refused {
            Refused::Memory => f.write_str("out of memory"),
            Refused::NothingAsked => f.write_str(
                "nothing is asked: give --query Q, or --agg G,G with --set, --by and conditions",
            ),
            Refused::NoAggregate => {
                f.write_str("nothing is asked: give --agg G,G, such as --agg count,sum:revenue")
            }
            Refused::NoColumn => f.write_str("--by: no column is named"),
            Refused::NotAlone => f.write_str("--query excludes --set, --by, --agg and conditions"),
            Refused::Unknown { word, known } => unknown(f, word, known, self.near),
            Refused::Wrong { word, mistake } => wrong(f, word, mistake),
            Refused::TooMany {
                counted,
                count,
                most,
            } => write!(f, "{count} {}: at most {most}", counted_title(counted)),
        }
    }
}

// What there are too many of.
fn counted_title(counted: Counted) -> &'static str {
    match counted {
        Counted::Columns => "group columns",
        Counted::Aggregates => "aggregates",
        Counted::Conditions => "conditions",
        Counted::Texts => "texts of a condition",
    }
}

// What a name is of.
fn known_title(known: Known) -> &'static str {
    match known {
        Known::Query => "query of the benchmark",
        Known::Set => "set",
        Known::Attribute => "attribute",
        Known::Aggregate => "aggregate",
        Known::Measure => "measure",
        Known::Ranged => "attribute, quantity or discount",
    }
}

// A word, and what is wrong with it.
fn wrong<W: fmt::Write>(f: &mut fmt::Formatter<W>, word: &str, mistake: Mistake) -> fmt::Result {
    write!(f, "{}: ", Shown(word))?;
    match mistake {
        Mistake::NoSign => f.write_str("a condition is ATTRIBUTE=TEXT|TEXT or ATTRIBUTE:LOW|HIGH"),
        Mistake::NoList => write!(f, "a range is expected, {word}:LOW|HIGH"),
        Mistake::NotTwoEnds => f.write_str("a range has two ends, with a bar between them"),
        Mistake::NoBar => write!(
            f,
            "a range has two ends, with a bar between them; a bar has to be quoted for the shell, '{word}|HIGH'"
        ),
        Mistake::NoNumber => f.write_str("expected an integer from 0 to 255"),
        Mistake::NoMeasure => write!(f, "a measure is missing, as in {word}:revenue"),
        Mistake::NotClosed => f.write_str("a closing bracket is missing"),
        Mistake::CountAlone => f.write_str("count takes no measure"),
        Mistake::OnlyCondition => {
            f.write_str("discount can only be a condition, 'discount:LOW|HIGH'")
        }
        Mistake::Twice => f.write_str("this group column is named twice"),
    }
}

// A word as it is shown: between quotation marks where it is empty, has a blank or cannot be printed.
#[derive(Clone, Copy)]
struct Shown<'a>(&'a str);

impl fmt::Display for Shown<'_> {
    fn fmt<W: fmt::Write>(&self, f: &mut fmt::Formatter<W>) -> fmt::Result {
        let Shown(word) = *self;
        if word.is_empty() || word.contains(|sign: char| sign <= ' ') {
            write!(f, "{word:?}")
        } else {
            f.write_str(word)
        }
    }
}

// A word that is no known name, and the name that is near, or else all of them.
fn unknown<W: fmt::Write>(
    f: &mut fmt::Formatter<W>,
    word: &str,
    known: Known,
    near: Option<&str>,
) -> fmt::Result {
    write!(f, "{}: no such {};", Shown(word), known_title(known))?;
    match near {
        Some(name) => write!(f, " {name}?"),
        None => all_names(f, known),
    }
}

fn all_names<W: fmt::Write>(f: &mut fmt::Formatter<W>, known: Known) -> fmt::Result {
    f.write_str(" there are")?;
    for place in 0..known.count() {
        if let Some(name) = known.name_at(place) {
            write!(f, " {name}")?;
        }
    }
    Ok(())
}
