//! The head of a partial report.
ghost use Rattle.std.specs.Prelude.{◌≡◌, ◌⊎◌, ◌++◌, ◌+◌, true, false, map, IfErr, IfOk, OnOk, IsOkUnless};
ghost use Rattle.std.specs.List.{list_all};
ghost use Rattle.std.specs.Option.{option_map};
ghost use Rattle.partial_reports.specs.declared.words.WordKind.TheVariants.{If};
ghost use Rattle.partial_reports.specs.Head.{are_parts, ascend_between, head_of, is_proper, is_short_word, words_given};

use crate::words::{Word, WordKind, push_if_any, push_word};
use cube_model::{Fault, Items};
use std::alloc::Global;

/// The most parts of a whole.
pub const MOST_PARTS: u32 = 1024;

/// Of which parts of a whole a partial report is, and the words of its query.
#[derive(PartialEq, Eq, Drop)]
pub struct Head {
    /// The numbers of its parts, which count from 1, in ascending order.
    pub numbers: Items<u32>,
    /// How many parts the whole has.
    pub parts: u32,
    /// The words of the query as they were given.
    pub words: Items<Word>,
}

impl Head {
    /// The head of one part, with the words of the query as they were given.
    ///
    /// `BadQuery` where the number is 0 or greater than that of all parts, there are more than 1,024 parts, or a word
    /// has a line feed or more than 8,000 bytes; or `Memory`.
    pub fn new(
        alloc: Global,
        number: u32,
        parts: u32,
        q: Option<&str>,
        set: Option<&str>,
        by: Option<&str>,
        agg: Option<&str>,
        conditions: &[&str],
    ) -> Result<Head, Fault>
        ensures ok { IfOk result (λ head. (is_proper head ≡ true)
            × (head ≡ head_of number parts
            (words_given (option_map (λ word. word.now) q.entry) (option_map (λ word. word.now) set.entry)
            (option_map (λ word. word.now) by.entry) (option_map (λ word. word.now) agg.entry)
            (map (λ word. word.now) conditions.now)))) }
        ensures refused { IfErr result (λ fault. (fault ≡ Fault.Memory) ⊎ ((fault ≡ Fault.BadQuery)
            × (is_proper
            (head_of number parts
            (words_given (option_map (λ word. word.now) q.entry) (option_map (λ word. word.now) set.entry)
            (option_map (λ word. word.now) by.entry) (option_map (λ word. word.now) agg.entry)
            (map (λ word. word.now) conditions.now))) ≡ false))) }
    {
        let numbers = Items::from_vec(Vec::from_slice(alloc, &[number])?);
        let words = words_given(alloc, q, set, by, agg, conditions)?;
        let head = Head {
            numbers,
            parts,
            words,
        };
        if !head.is_proper() {
            return Err(Fault::BadQuery);
        }
        Ok(head)
    }

    // Its numbers are those of some parts of the whole, in ascending order, and each word can be on a line.
    pub(crate) fn is_proper(&self) -> bool
        ensures { result ≡ is_proper self.now }
    {
        let Head {
            numbers,
            parts,
            words,
        } = self;
        are_parts(*parts, numbers.as_slice()) && are_short(words.as_slice())
    }
}

// Each word can be on a line.
fn are_short(words: &[Word]) -> bool
    ensures { result ≡ list_all is_short_word words.now }
{
    words.iter().all(|word| word.is_short())
}

// Numbers are those of some parts of a whole, in ascending order.
fn are_parts(high: u32, numbers: &[u32]) -> bool
    ensures { result ≡ are_parts high numbers.now }
{
    high <= MOST_PARTS && !numbers.is_empty() && ascend_to(high, numbers)
}

// Numbers ascend from above 0 up to another number.
fn ascend_to(high: u32, numbers: &[u32]) -> bool
    ensures { result ≡ ascend_between 0 high numbers.now }
{
    let mut low = 0;
    for number in numbers {
        if *number <= low || high < *number {
            return false;
        }
        low = *number;
    }
    true
}

// The words of a query as they were given.
fn words_given(
    alloc: Global,
    q: Option<&str>,
    set: Option<&str>,
    by: Option<&str>,
    agg: Option<&str>,
    conditions: &[&str],
) -> Result<Items<Word>, Fault>
    ensures ok { IfOk result
        (λ words. words ≡ words_given (option_map (λ word. word.now) q.entry) (option_map (λ word. word.now) set.entry)
        (option_map (λ word. word.now) by.entry) (option_map (λ word. word.now) agg.entry)
        (map (λ word. word.now) conditions.now)) }
    ensures only { IsOkUnless result Fault.Memory }
{
    let mut words = Items::new(alloc);
    push_if_any(alloc, &mut words, WordKind::Q, q)?;
    push_if_any(alloc, &mut words, WordKind::Set, set)?;
    push_if_any(alloc, &mut words, WordKind::By, by)?;
    push_if_any(alloc, &mut words, WordKind::Agg, agg)?;
    push_conditions(alloc, &mut words, conditions)?;
    Ok(words)
}

// Adds conditions.
fn push_conditions(alloc: Global, words: &mut Items<Word>, conditions: &[&str]) -> Result<(), Fault>
    ensures ok { OnOk result
        (words.new ≡ words.old ++ map (λ text. record { kind = If; text = text })
        (map (λ word. word.now) conditions.now)) }
    ensures only { IsOkUnless result Fault.Memory }
{
    for condition in conditions {
        push_word(alloc, words, WordKind::If, condition)?;
    }
    Ok(())
}
