//! The words of conditions.
ghost use Rattle.std.specs.Prelude.{◌≡◌, ◌≢◌, ℕ, List, map};
ghost use Rattle.std.specs.List.{AllZip};
ghost use Rattle.query_words.specs.declared.known.Subject.{Subject};
ghost use Rattle.query_words.specs.Cuts.{IsCut};
ghost use Rattle.query_words.specs.Known.{subject_name};
ghost use Rattle.query_words.specs.Mistakes.{IsConditionMistake, IsListMistake, IsMistakeAmong};
ghost use Rattle.query_words.specs.Reading.{Reads};
ghost use Rattle.query_words.specs.Spelled.{SpellsAfter, SpellsFit};

use crate::cube_parts::Condition;
use crate::cuts::cut;
use crate::known::{Known, Subject};
use crate::names::subject;
use crate::parts::{copies, parts};
use crate::ranges::read_range;
use crate::refused::{Counted, Mistake, Refused};
use cube_model::Items;
use cube_model::limits::MOST_LISTED_TEXTS;
use std::alloc::Global;

/// Reads conditions, such as `d_year=1997|1998`, `lo_shipmode=AIR|RAIL`, `p_brand1:MFGR#2221|MFGR#2228` and
/// `quantity:0|24`.
pub fn read_conditions<'a>(
    alloc: Global,
    words: &[&'a str],
) -> Result<Items<Condition>, Refused<'a>>
    ensures { let words = map (λ word. word.now) words.now in
        Reads (AllZip SpellsFit words) (IsMistakeAmong IsConditionMistake words) result }
{
    let mut conditions = Items::new(alloc);
    for word in words {
        let condition = read_condition(alloc, word)?;
        conditions.push(condition)?;
    }
    Ok(conditions)
}

// What a condition is on is before its first sign. After `=` come texts, after `:` the two ends of a range.
fn read_condition(alloc: Global, word: &str) -> Result<Condition, Refused<'_>>
    ensures { Reads (SpellsFit word.now) (IsConditionMistake word.now) result }
{
    let Some((name, sign, members)) = cut(word, '=', ':') else {
        return Err(Mistake::NoSign.of(word));
    };
    let Some(subject) = subject(name) else {
        return Err(no_subject(word, name));
    };
    if sign == '=' {
        read_list(alloc, name, subject, members)
    } else {
        read_range(alloc, word, subject, members)
    }
}

// What is before the sign is no name. Comparisons of other languages, such as `d_year>=1993` and `d_year!=1993`, have
// their sign there.
fn no_subject<'a>(word: &'a str, name: &'a str) -> Refused<'a>
    requires name { (subject : Subject) → name.now ≢ subject_name subject }
    requires cut { (sign : ℕ) × (rest : List ℕ) × IsCut 61 58 word.now name.now sign rest }
    ensures { IsConditionMistake word.now result }
{
    if name.contains('<') || name.contains('>') || name.contains('!') {
        Mistake::NoSign.of(word)
    } else {
        Refused::Unknown {
            word: name,
            known: Known::Ranged,
        }
    }
}

// Reads the texts after the name of what a condition is on.
fn read_list<'a>(
    alloc: Global,
    name: &'a str,
    subject: Subject,
    list: &'a str,
) -> Result<Condition, Refused<'a>>
    requires { name.now ≡ subject_name subject }
    ensures { Reads (SpellsAfter subject 61 list.now) (IsListMistake name.now list.now) result }
{
    let Subject::Member(column) = subject else {
        return Err(Mistake::NoList.of(name));
    };
    let texts = parts(alloc, list, '|')?;
    if texts.len() > MOST_LISTED_TEXTS {
        return Err(Counted::Texts.too_many(texts.len(), MOST_LISTED_TEXTS));
    }
    Ok(Condition::one_of(column, copies(alloc, texts.as_slice())?))
}
