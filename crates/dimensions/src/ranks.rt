//! The members among texts, in order by bytes, and the rank of each text.
ghost use Rattle.std.specs.Prelude.{◌≡◌, ◌<◌, ◌≤◌, true, [], length, vec_len, slice_index_or, map, IfOk, IsTrue};
ghost use Rattle.std.specs.Prelude.{IsOkUnless};
ghost use Rattle.std.specs.Fmt.{decimal};
ghost use Rattle.std.specs.List.{list_any};
ghost use Rattle.std.specs.Str.{bytes_eq};
ghost use Rattle.std.specs.Ordering.{nat_cmp};
ghost use Rattle.std.specs.Cmp.Lexicographic.{slice_cmp};
ghost use Rattle.cube_model.specs.Limits.{most_members};
ghost use Rattle.cube_model.specs.Ascending.{IsAscending};
ghost use Rattle.cube_model.specs.Validity.{members_of};
ghost use Rattle.dimensions.specs.Ranked.{AreCodesBelow, texts_of_ranks};

use crate::members::copied_texts;
use cube_model::{Fault, Items, Text};
use dictionary::Dictionary;
use itoa::Buffer;
use std::alloc::{AllocError, Global};
use std::marker::Model;

/// Texts, each with its rank among their members. Contracts see it as the list of the texts.
#[derive(Drop)]
pub struct Ranks {
    members: Vec<Text>,
    ranks: Vec<u16>,
}

impl Model for Ranks {
    ghost use Rattle.std.specs.Prelude.{ℕ, List};
    ghost use Rattle.dimensions.specs.Ranked.{texts_of_ranks, AreRanks};

    ghost Value = { List (List ℕ) };

    ghost view = { λ r. texts_of_ranks r.members.items r.ranks.items };

    ghost invariant = { λ r. AreRanks r.members.items r.ranks.items };
}

impl Ranks {
    /// The ranks of no texts.
    pub fn none(alloc: Global) -> Ranks
        ensures { result ≡ [] }
    {
        Ranks {
            members: Vec::new(alloc),
            ranks: Vec::new(alloc),
        }
    }

    /// The ranks of texts. It can only fail when out of memory.
    pub fn of(alloc: Global, texts: Vec<Text>) -> Result<Ranks, Fault>
        requires { length texts.items ≤ most_members }
        ensures ok { IfOk result (λ ranks. ranks ≡ texts.items) }
        ensures memory { IsOkUnless result Fault.Memory }
    {
        if ascend(&texts) {
            let ranks = own_ranks(alloc, texts.as_slice())?;
            let members = texts;
            return Ok(Ranks { members, ranks });
        }
        let members = sorted_members(alloc, texts.as_slice())?;
        let ranks = ranks_among(alloc, members.as_slice(), texts.as_slice())?;
        Ok(Ranks { members, ranks })
    }

    /// The ranks of the keys of some days, in decimal without leading zeros. It can only fail when out of memory.
    pub fn of_days(alloc: Global, keys: &[u32]) -> Result<Ranks, Fault>
        requires { length keys.now ≤ most_members }
        ensures ok { IfOk result (λ ranks. ranks ≡ map decimal keys.now) }
        ensures memory { IsOkUnless result Fault.Memory }
    {
        let texts = day_texts(alloc, keys)?;
        Ranks::of(alloc, texts)
    }

    /// The ranks of the texts of a dictionary, at their codes. It can only fail when out of memory.
    pub fn of_dictionary(alloc: Global, dictionary: &Dictionary) -> Result<Ranks, Fault>
        requires { length dictionary.now.texts ≤ most_members }
        ensures ok { IfOk result (λ ranks. ranks ≡ dictionary.now.texts) }
        ensures memory { IsOkUnless result Fault.Memory }
    {
        let texts = copied_texts(alloc, dictionary)?;
        Ranks::of(alloc, texts)
    }

    /// The number of members.
    pub fn count(&self) -> usize
        ensures count { result ≡ length (members_of self.now) }
        ensures few { result ≤ most_members }
    {
        self.members.len()
    }

    /// The rank of the text at a place of the list.
    pub fn rank(&self, place: usize) -> u16
        requires { place < length self.now }
        ensures below { result < length (members_of self.now) }
        ensures text { slice_index_or (members_of self.now) result [] ≡ slice_index_or self.now place [] }
    {
        self.ranks[place]
    }

    /// The text of a rank.
    pub fn member(&self, rank: u16) -> &[u8]
        requires { rank < length (members_of self.now) }
        ensures { result.now ≡ slice_index_or (members_of self.now) rank [] }
    {
        self.members[usize::from(rank)].as_slice()
    }
}

// Whether each text is below the next, so that they are their members.
fn ascend(texts: &[Text]) -> bool
    ensures { IsTrue result → members_of texts.now ≡ texts.now }
{
    for place in 1..texts.len() {
        if !texts[place - 1].cmp(&texts[place]).is_lt() {
            return false;
        }
    }
    true
}

// The rank of each of some texts that are their members.
fn own_ranks(alloc: Global, texts: &[Text]) -> Result<Vec<u16>, AllocError>
    requires few { length texts.now ≤ most_members }
    ensures texts { IfOk result (λ ranks. texts_of_ranks texts.now ranks.items ≡ texts.now) }
    ensures within { IfOk result (λ ranks. AreCodesBelow (length texts.now) ranks.items) }
{
    let mut ranks = Vec::with_capacity(alloc, texts.len())?;
    for rank in 0..texts.len() {
        ranks.push(rank as u16)?;
    }
    Ok(ranks)
}

// The members among texts.
fn sorted_members(alloc: Global, texts: &[Text]) -> Result<Vec<Text>, AllocError>
    ensures members { IfOk result (λ members. members.items ≡ members_of texts.now) }
    ensures few { IfOk result (λ members. vec_len members ≤ length texts.now) }
{
    let mut members = copied(alloc, texts)?;
    members.sort_unstable();
    members.dedup();
    Ok(members)
}

// The same texts again.
fn copied(alloc: Global, texts: &[Text]) -> Result<Vec<Text>, AllocError>
    ensures { IfOk result (λ copies. copies.items ≡ texts.now) }
{
    let mut copies = Vec::with_capacity(alloc, texts.len())?;
    for text in texts {
        let bytes = Vec::from_slice(alloc, text.as_slice())?;
        copies.push(Items::from_vec(bytes))?;
    }
    Ok(copies)
}

// The rank of each of some texts among their members.
fn ranks_among(alloc: Global, members: &[Text], texts: &[Text]) -> Result<Vec<u16>, AllocError>
    requires members { members.now ≡ members_of texts.now }
    requires few { length members.now ≤ most_members }
    ensures texts { IfOk result (λ ranks. texts_of_ranks members.now ranks.items ≡ texts.now) }
    ensures within { IfOk result (λ ranks. AreCodesBelow (length members.now) ranks.items) }
{
    let mut ranks = Vec::with_capacity(alloc, texts.len())?;
    for text in texts {
        let rank = rank_among(members, text);
        ranks.push(rank)?;
    }
    Ok(ranks)
}

// The rank of one of them.
fn rank_among(members: &[Text], text: &Text) -> u16
    requires few { length members.now ≤ most_members }
    requires ascending { IsAscending (slice_cmp nat_cmp) members.now }
    requires among { list_any (bytes_eq text.now) members.now ≡ true }
    ensures within { result < length members.now }
    ensures text { slice_index_or members.now result [] ≡ text.now }
{
    members.binary_search(text).unwrap() as u16
}

// The keys of some days in decimal.
fn day_texts(alloc: Global, keys: &[u32]) -> Result<Vec<Text>, AllocError>
    ensures { IfOk result (λ texts. texts.items ≡ map decimal keys.now) }
{
    let mut texts = Vec::with_capacity(alloc, keys.len())?;
    for key in keys {
        let mut buffer = Buffer::new();
        let text = Vec::from_slice(alloc, buffer.format(*key).as_bytes())?;
        texts.push(Items::from_vec(text))?;
    }
    Ok(texts)
}
