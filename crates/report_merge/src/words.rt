//! The query that the words of a head spell. It is one of the dimensions alone.
ghost use Rattle.std.specs.Prelude.{◌≡◌, ◌⊎◌, ◌↔◌, ◌++◌, ℕ, List, map, IfErr, IfOk, IsOkAnd, IsTrue, Option, Some};
ghost use Rattle.std.specs.Prelude.{None};
ghost use Rattle.std.specs.Option.{option_map};
ghost use Rattle.cube_model.specs.declared.query.Query.{Query};
ghost use Rattle.partial_reports.specs.Parts.{partial_query};
ghost use Rattle.mode_queries.specs.Lawful.{without_modes};
ghost use Rattle.partial_reports.specs.declared.words.WordKind.TheVariants.{If};
ghost use Rattle.std.specs.Str.{IsUtf8};
ghost use Rattle.partial_reports.specs.declared.words.Word.{Word};
ghost use Rattle.partial_reports.specs.Head.{word_if_any};
ghost use Rattle.report_merge.specs.declared.refused.Refused.TheVariants.{Memory};
ghost use Rattle.report_merge.specs.Given.{AreConditions, AreUtf8, IsNextGiven, no_query};
ghost use Rattle.report_merge.specs.Merging.{SpellsWords};
ghost use Rattle.report_merge.specs.Refusals.{UnlessMemory, WordsRefuse};

use crate::refused::Refused;
use cube_model::Query;
use mode_queries::ModeQuery;
use partial_reports::{Word, WordKind, partial_query};
use query_words::{QueryWords, read_query};
use std::alloc::Global;

/// The query that words spell, and that for its partial answers. `At` the fourth line where they spell none that may be
/// asked, or one that looks at ship modes; or `Memory`.
pub(crate) fn queries_of(alloc: Global, words: &[Word]) -> Result<(Query, Query), Refused>
    ensures query { IfOk result (λ both. SpellsWords words.now both.0) }
    ensures partial { IfOk result (λ both. both.1 ≡ partial_query both.0) }
    ensures one { IfOk result (λ both. (other : Query) → SpellsWords words.now other → other ≡ both.0) }
    ensures refused { IfErr result (WordsRefuse words.now) }
{
    let query = query_of(alloc, words)?;
    let again = query_of(alloc, words)?;
    // Words spell one query: both are the same.
    let partial = partial_query(alloc, again)?;
    Ok((query, partial))
}

// The query that words spell.
fn query_of(alloc: Global, words: &[Word]) -> Result<Query, Refused>
    ensures ok { IfOk result (SpellsWords words.now) }
    ensures refused { IfErr result (WordsRefuse words.now) }
{
    let (q, left) = take_word(WordKind::Q, words)?;
    let (set, left) = take_word(WordKind::Set, left)?;
    let (by, left) = take_word(WordKind::By, left)?;
    let (agg, left) = take_word(WordKind::Agg, left)?;
    let conditions = conditions_in(alloc, left)?;
    let words = QueryWords {
        q,
        set,
        by,
        agg,
        conditions: conditions.as_slice(),
    };
    let asked = read_query(alloc, &words)?;
    plain_of(asked)
}

// The query that is asked, where it does not look at ship modes.
fn plain_of(asked: ModeQuery) -> Result<Query, Refused>
    ensures ok { IfOk result (λ query. asked ≡ without_modes query) }
    ensures refused { IfErr result (λ refused. (refused ≡ no_query)
        × ((query : Query) → asked ≡ without_modes query → ⊥)) }
{
    match asked.into_plain() {
        Some(query) => Ok(query),
        None => Err(Refused::no_query()),
    }
}

// The text of the first word where it is of a kind, and the words after it.
fn take_word(kind: WordKind, words: &[Word]) -> Result<(Option<&str>, &[Word]), Refused>
    ensures ok { IfOk result (λ taken. words.now ≡ word_if_any kind (option_map (λ text. text.now) taken.0)
        ++ taken.1.now) }
    ensures utf8 { IfOk result (λ taken. AreUtf8 taken.1.now → AreUtf8 words.now) }
    ensures complete { (text : Option (List ℕ)) (others : List Word) → IsNextGiven kind words.now text others
        → IsOkAnd result (λ taken. (option_map (λ text. text.now) taken.0 ≡ text) × (taken.1.now ≡ others)) }
    ensures only { IfErr result (λ refused. refused ≡ no_query) }
{
    let Some((word, left)) = words.split_first() else {
        return Ok((None, words));
    };
    if word.kind != kind {
        return Ok((None, words));
    }
    let text = text_of(word)?;
    Ok((Some(text), left))
}

// The texts of words that are conditions.
fn conditions_in(alloc: Global, words: &[Word]) -> Result<Vec<&str>, Refused>
    ensures ok { IfOk result
        (λ texts. words.now ≡ map (λ text. record { kind = If; text = text }) (map (λ text. text.now) texts.items)) }
    ensures utf8 { IfOk result (λ texts. AreUtf8 words.now) }
    ensures complete { AreConditions words.now → UnlessMemory result (λ texts. Unit {0}) }
    ensures only { IfErr result (λ refused. (refused ≡ Memory) ⊎ (refused ≡ no_query)) }
{
    let mut texts = Vec::new(alloc);
    for word in words {
        if word.kind != WordKind::If {
            return Err(Refused::no_query());
        }
        texts.push(text_of(word)?)?;
    }
    Ok(texts)
}

// The text of a word, which is UTF-8 as words that are given to a command are.
fn text_of(word: &Word) -> Result<&str, Refused>
    ensures ok { IfOk result (λ text. text.now ≡ word.now.text) }
    ensures utf8 { IfOk result (λ text. IsUtf8 word.now.text) }
    ensures refused { IfErr result (λ refused. (refused ≡ no_query) × (IsUtf8 word.now.text → ⊥)) }
{
    match str::from_utf8(word.text.as_slice()) {
        Ok(text) => Ok(text),
        Err(_) => Err(Refused::no_query()),
    }
}

/// Two lists of words are the same.
pub(crate) fn are_same(ones: &[Word], others: &[Word]) -> bool
    ensures { IsTrue result ↔ (others.now ≡ ones.now) }
{
    let Some((one, ones)) = ones.split_first() else {
        return others.is_empty();
    };
    let Some((other, others)) = others.split_first() else {
        return false;
    };
    is_same(one, other) && are_same(ones, others)
}

fn is_same(one: &Word, other: &Word) -> bool
    ensures { IsTrue result ↔ (other.now ≡ one.now) }
{
    one.kind == other.kind && one.text.as_slice() == other.text.as_slice()
}
