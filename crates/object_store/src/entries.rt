// The entries of a catalogue, by ascending id. Each is found by halving.
ghost use Rattle.std.specs.Prelude.{◌≡◌, ◌≤◌, ◌<◌, ℕ, length, slice_index_or, IfErr, IfOk, OnOk, MatchResult};
ghost use Rattle.std.specs.Prelude.{IsOkUnless};
ghost use Rattle.cube_model.specs.declared.fault.Fault.{Fault};
ghost use Rattle.object_store.specs.declared.catalogue.entry.Entry.{Entry};
ghost use Rattle.object_store.specs.Catalogue.{IdsAscend};
ghost use Rattle.object_store.specs.Commit.{put_by, drop_by, put_each, drop_each, find_by};
ghost use Rattle.object_store.specs.Entries.{IsPlace, IsEntryAt, IsMissing};

use crate::catalogue::Entry;
use cube_model::Fault;
use std::alloc::Global;

/// The entry of an object.
pub(crate) fn find(entries: &[Entry], id: u32) -> Option<Entry>
    requires { IdsAscend entries.now }
    ensures { result ≡ find_by (λ e. e.id) id entries.now }
{
    match search(entries, id) {
        Ok(place) => Some(entries[place]),
        Err(_) => None,
    }
}

/// The entries that are left without some objects.
pub(crate) fn without(alloc: Global, entries: &[Entry], drops: &[u32]) -> Result<Vec<Entry>, Fault>
    requires { IdsAscend entries.now }
    ensures ok { IfOk result (λ kept. kept.items ≡ drop_each (λ e. e.id) drops.now entries.now) }
    ensures memory { IsOkUnless result Fault.Memory }
{
    let mut kept = Vec::from_slice(alloc, entries)?;
    for k in 0..drops.len() {
        drop_entry(&mut kept, drops[k]);
    }
    Ok(kept)
}

/// Adds entries, each in the place of an earlier one with its id.
pub(crate) fn put_entries(entries: &mut Vec<Entry>, placed: &[Entry]) -> Result<(), Fault>
    requires { IdsAscend entries.old.items }
    ensures ok { OnOk result (entries.new.items ≡ put_each (λ e. e.id) placed.now entries.old.items) }
    ensures memory { IsOkUnless result Fault.Memory }
{
    for k in 0..placed.len() {
        put_entry(entries, placed[k])?;
    }
    Ok(())
}

fn put_entry(entries: &mut Vec<Entry>, entry: Entry) -> Result<(), Fault>
    requires { IdsAscend entries.old.items }
    ensures ok { OnOk result (entries.new.items ≡ put_by (λ e. e.id) entry entries.old.items) }
    ensures memory { IsOkUnless result Fault.Memory }
{
    match search(entries, entry.id) {
        Ok(place) => {
            entries[place] = entry;
        }
        Err(place) => {
            entries.insert(place, entry)?;
        }
    }
    Ok(())
}

fn drop_entry(entries: &mut Vec<Entry>, id: u32)
    requires { IdsAscend entries.old.items }
    ensures { entries.new.items ≡ drop_by (λ e. e.id) id entries.old.items }
{
    if let Ok(place) = search(entries, id) {
        entries.remove(place);
    }
}

// The place of an object's entry, or the one that it would take.
fn search(entries: &[Entry], id: u32) -> Result<usize, usize>
    requires { IdsAscend entries.now }
    ensures place { MatchResult result (IsPlace entries.now id) (IsPlace entries.now id) }
    ensures found { IfOk result (IsEntryAt entries.now id) }
    ensures missing { IfErr result (λ place. IsMissing entries.now id) }
{
    let place = place_of(entries, id);
    if place < entries.len() && entries[place].id == id {
        return Ok(place);
    }
    Err(place)
}

// How many entries have a lower id.
fn place_of(entries: &[Entry], id: u32) -> usize
    requires { IdsAscend entries.now }
    ensures within { result ≤ length entries.now }
    ensures before { (k : ℕ) (d : Entry) → k < result → (slice_index_or entries.now k d).id < id }
    ensures after { (k : ℕ) (d : Entry) → result ≤ k → k < length entries.now
        → id ≤ (slice_index_or entries.now k d).id }
{
    entries.partition_point(|entry| entry.id < id)
}
