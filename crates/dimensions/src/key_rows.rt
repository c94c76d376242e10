//! Keys and their row indexes.
ghost use Rattle.std.specs.Prelude.{◌≡◌, ◌==◌, ◌<◌, ◌≤◌, ◌^◌, ◌++◌, ◌∷◌, ◌↔◌, ℕ, List, None, [], length, position};
ghost use Rattle.std.specs.Prelude.{nat_eq, unwrap_or, MatchOption, IfSome, IfOk, OnOk, OnErr, IsTrue, IsOkUnless};
ghost use Rattle.std.specs.HashMap.{get};
ghost use Rattle.std.specs.List.{AllByRecursion, position_or_len};
ghost use Rattle.cube_model.specs.Limits.{most_dimension_rows};
ghost use Rattle.dimensions.specs.Coded.{KeysAreDistinct};
ghost use Rattle.dimensions.specs.RowIndexes.{AreRowIndexes};

use crate::counted::{counts_next, first_counted, place_counted};
use crate::entries::{entries_of, has_entry, row_entered, span};
use cube_model::Fault;
use std::alloc::{AllocError, Global};
use std::collections::HashMap;
use std::marker::Model;

/// How many entries there may be besides four for each key.
const WIDTH_SPARED: usize = 65536;

/// Distinct keys in the order of their rows. Contracts see it as the list of the keys.
///
/// The row index of a key is computed where the keys are consecutive from the first. It is read in a table of entries
/// where `of` or `densify` found that they lie close together, and in a hash table elsewhere.
#[derive(Drop)]
pub struct Keys {
    keys: Vec<u32>,
    lookup: Lookup,
}

// How the row index of a key is found.
#[derive(Drop)]
enum Lookup {
    // It is computed: the keys are consecutive from a first one.
    Consecutive { first: u32 },
    // It is read in its entry: there is one for each number from a first key on.
    Direct { first: u32, entries: Vec<u32> },
    // It is found in a hash table.
    Hashed(HashMap<u32, u32>),
}

impl Model for Keys {
    ghost use Rattle.std.specs.Prelude.{◌<◌, ◌^◌, ℕ, List, vec_len};
    ghost use Rattle.dimensions.specs.RowIndexes.{FindsRows};

    ghost Value = { List ℕ };

    ghost view = { λ p. p.keys.items };

    ghost invariant = { λ p. (vec_len p.keys < 2 ^ 32) × FindsRows p.lookup p.keys.items };
}

impl Keys {
    /// No keys.
    pub fn new(alloc: Global) -> Keys
        ensures { result ≡ [] }
    {
        Keys {
            keys: Vec::new(alloc),
            lookup: Lookup::Consecutive { first: 0 },
        }
    }

    /// The keys of a list, if none occurs twice. It can only fail when out of memory.
    pub fn of(alloc: Global, keys: Vec<u32>) -> Result<Option<Keys>, Fault>
        requires few { length keys.items ≤ most_dimension_rows }
        ensures ok { IfOk result
            (λ found. MatchOption found (¬ KeysAreDistinct keys.items)
            (λ index. (index ≡ keys.items) × KeysAreDistinct keys.items)) }
        ensures fit { OnOk result (AllByRecursion (λ key. key < 2 ^ 32) keys.items) }
        ensures memory { IsOkUnless result Fault.Memory }
    {
        let lookup = Lookup::of(alloc, keys.as_slice())?;
        if !lookup.tells_apart(keys.as_slice()) {
            return Ok(None);
        }
        Ok(Some(Keys { keys, lookup }))
    }

    /// The same keys again. It can only fail when out of memory.
    pub fn copied(&self, alloc: Global) -> Result<Keys, Fault>
        ensures ok { IfOk result (λ copy. copy ≡ self.now) }
        ensures memory { IsOkUnless result Fault.Memory }
    {
        let keys = Vec::from_slice(alloc, self.keys.as_slice())?;
        let lookup = self.lookup.copied(alloc)?;
        Ok(Keys { keys, lookup })
    }

    /// The keys.
    pub fn keys(&self) -> &[u32]
        ensures keys { result.now ≡ self.now }
        ensures few { length result.now < 2 ^ 32 }
    {
        self.keys.as_slice()
    }

    /// How many keys there are.
    pub fn len(&self) -> usize
        ensures { result ≡ length self.now }
    {
        self.keys.len()
    }

    /// The row index of a key, or the number of keys where it is none of them.
    #[inline(always)]
    pub fn row_index(&self, key: u32) -> usize
        ensures { result ≡ position_or_len (λ other. other == key) self.now }
    {
        self.lookup.row_index(self.keys.as_slice(), key)
    }

    /// Adds a new key after the others. It can only fail when out of memory.
    pub fn push(&mut self, alloc: Global, key: u32) -> Result<(), Fault>
        requires new { position_or_len (λ other. other == key) self.old ≡ length self.old }
        requires few { length self.old < 4294967295 }
        ensures ok { OnOk result (self.new ≡ self.old ++ key ∷ []) }
        ensures memory { IsOkUnless result Fault.Memory }
    {
        let row = self.keys.len();
        self.keys.push(key)?;
        match self.lookup.put(alloc, self.keys.split_at(row).0, key) {
            Ok(()) => Ok(()),
            Err(_) => {
                self.keys.pop();
                Err(Fault::Memory)
            }
        }
    }

    /// Finds the row indexes in entries from now on, if they were in a hash table and the keys lie close together. It
    /// can only fail when out of memory.
    pub fn densify(&mut self, alloc: Global) -> Result<(), Fault>
        ensures keys { self.new ≡ self.old }
        ensures memory { IsOkUnless result Fault.Memory }
    {
        if let Lookup::Hashed(_) = &self.lookup {
            if let Some(lookup) = Lookup::direct(alloc, self.keys.as_slice())? {
                self.lookup = lookup;
            }
        }
        Ok(())
    }
}

impl Lookup {
    ghost use Rattle.dimensions.specs.RowIndexes.{FindsRows};

    // What finds the first row of each key of a list. It can only fail when out of memory.
    fn of(alloc: Global, keys: &[u32]) -> Result<Lookup, AllocError>
        requires few { length keys.now < 2 ^ 32 }
        ensures finds { IfOk result (λ lookup. FindsRows lookup keys.now) }
        ensures fit { AllByRecursion (λ key. key < 2 ^ 32) keys.now }
    {
        if let Some(first) = first_counted(keys) {
            return Ok(Lookup::Consecutive { first });
        }
        if let Some(lookup) = Lookup::direct(alloc, keys)? {
            return Ok(lookup);
        }
        Ok(Lookup::Hashed(hashed(alloc, keys)?))
    }

    // Entries for the keys of a list, if they lie close together. It can only fail when out of memory.
    fn direct(alloc: Global, keys: &[u32]) -> Result<Option<Lookup>, AllocError>
        requires few { length keys.now < 2 ^ 32 }
        ensures { IfOk result (λ found. IfSome found (λ lookup. FindsRows lookup keys.now)) }
    {
        let Some((first, last)) = span(keys) else {
            return Ok(None);
        };
        let width = (last - first) as usize;
        if width >= 4 * keys.len() + WIDTH_SPARED {
            return Ok(None);
        }
        let entries = entries_of(alloc, keys, first, width + 1)?;
        Ok(Some(Lookup::Direct { first, entries }))
    }

    // The same again. It can only fail when out of memory.
    fn copied(&self, alloc: Global) -> Result<Lookup, AllocError>
        ensures { IfOk result (λ copy. (keys : List ℕ) → FindsRows self.now keys → FindsRows copy keys) }
    {
        match self {
            Lookup::Consecutive { first } => Ok(Lookup::Consecutive { first: *first }),
            Lookup::Direct { first, entries } => {
                let entries = Vec::from_slice(alloc, entries.as_slice())?;
                Ok(Lookup::Direct {
                    first: *first,
                    entries,
                })
            }
            Lookup::Hashed(rows) => Ok(Lookup::Hashed(rows.clone()?)),
        }
    }

    // The row index of a key, or the number of keys where it is none of them.
    #[inline(always)]
    fn row_index(&self, keys: &[u32], key: u32) -> usize
        requires { FindsRows self.now keys.now }
        ensures { result ≡ position_or_len (λ other. other == key) keys.now }
    {
        match self {
            Lookup::Consecutive { first } => place_counted(*first, keys.len(), key),
            Lookup::Direct { first, entries } => {
                row_or(row_entered(*first, entries.as_slice(), key), keys.len())
            }
            Lookup::Hashed(rows) => row_or(rows.get(&key).copied(), keys.len()),
        }
    }

    // Whether the keys are all different.
    fn tells_apart(&self, keys: &[u32]) -> bool
        requires { FindsRows self.now keys.now }
        ensures { IsTrue result ↔ KeysAreDistinct keys.now }
    {
        if let Lookup::Consecutive { first: _ } = self {
            return true;
        }
        for row in 0..keys.len() {
            if self.row_index(keys, keys[row]) != row {
                return false;
            }
        }
        true
    }

    // Finds a new key after those of a list too. It can only fail when out of memory, and then finds those of the list.
    fn put(&mut self, alloc: Global, keys: &[u32], key: u32) -> Result<(), AllocError>
        requires finds { FindsRows self.old keys.now }
        requires new { position (λ other. other == key) keys.now ≡ None }
        requires few { length keys.now < 4294967295 }
        ensures ok { OnOk result (FindsRows self.new (keys.now ++ key ∷ [])) }
        ensures err { OnErr result (FindsRows self.new keys.now) }
    {
        let row = keys.len() as u32;
        match self {
            Lookup::Consecutive { first } => {
                if keys.is_empty() {
                    *first = key;
                }
                if counts_next(*first, keys.len(), key) {
                    return Ok(());
                }
            }
            Lookup::Direct { first, entries } => {
                if has_entry(*first, entries.as_slice(), key) {
                    entries[(key - *first) as usize] = row + 1;
                    return Ok(());
                }
            }
            Lookup::Hashed(rows) => {
                rows.insert(key, row)?;
                return Ok(());
            }
        }
        let mut rows = hashed(alloc, keys)?;
        rows.insert(key, row)?;
        *self = Lookup::Hashed(rows);
        Ok(())
    }
}

// The first row of each key of a list, in a hash table. It can only fail when out of memory.
fn hashed(alloc: Global, keys: &[u32]) -> Result<HashMap<u32, u32>, AllocError>
    requires few { length keys.now < 2 ^ 32 }
    ensures { IfOk result (λ rows. AreRowIndexes (get nat_eq rows) keys.now) }
{
    let mut rows = HashMap::new(alloc);
    for row in 0..keys.len() {
        if !rows.contains_key(&keys[row]) {
            rows.insert(keys[row], row as u32)?;
        }
    }
    Ok(rows)
}

// A row index, or another number where there is none.
#[inline(always)]
fn row_or(row: Option<u32>, other: usize) -> usize
    ensures { result ≡ unwrap_or row other }
{
    match row {
        None => other,
        Some(row) => row as usize,
    }
}
