//! Partial reports from readers.
ghost use Rattle.std.specs.Prelude.{◌≡◌, ℕ, List, Some, map, IfErr, IfOk};
ghost use Rattle.report_merge.specs.Mergeable.{CanAdd, CanMerge, IsOutside};
ghost use Rattle.report_merge.specs.Merging.{AddsPart, AreOfOne, IsMerged, IsPartialReport, MergesTexts, Part};
ghost use Rattle.report_merge.specs.Refusals.{AreDisjoint};

use crate::merge::Merge;
use crate::refused::{Refused, Unmerged};
use std::alloc::Global;
use std::io::{ErrorKind, Read};

/// Reads partial reports, one after the other, each to its end, and merges them.
///
/// A refusal has the place of the reader that it is of. Of no reader it is `Input`. Where the texts are partial reports
/// of parts of one whole and no number is in two of them, there is no refusal but `Memory` and `Input`.
pub fn merge_readers<R: Read + Drop>(alloc: Global, readers: Vec<R>) -> Result<Merge, Unmerged>
    ensures ok { IfOk result (λ merge. (texts : List (List ℕ)) → map R.remaining readers.items ≡ map Some texts
        → IsMerged texts merge) }
    ensures complete { (texts : List (List ℕ)) → map R.remaining readers.items ≡ map Some texts → CanMerge texts
        → IfErr result (λ unmerged. IsOutside unmerged.refused) }
{
    let mut readers = readers;
    if readers.is_empty() {
        return Err(unmerged(0, Refused::Input));
    }
    let reader = readers.remove(0);
    match first_of(alloc, reader) {
        Ok(merge) => add_all(alloc, 1, merge, readers),
        Err(refused) => Err(unmerged(0, refused)),
    }
}

// Merges more reports in. The place is that of the first of them.
fn add_all<R: Read + Drop>(
    alloc: Global,
    place: usize,
    merge: Merge,
    readers: Vec<R>,
) -> Result<Merge, Unmerged>
    ensures ok { IfOk result (λ whole. (texts : List (List ℕ)) → map R.remaining readers.items ≡ map Some texts
        → MergesTexts merge texts whole) }
    ensures complete { (texts : List (List ℕ)) → map R.remaining readers.items ≡ map Some texts → CanAdd merge texts
        → IfErr result (λ unmerged. IsOutside unmerged.refused) }
{
    let mut readers = readers;
    if readers.is_empty() {
        return Ok(merge);
    }
    let reader = readers.remove(0);
    match add_one(alloc, merge, reader) {
        Ok(merge) => add_all(alloc, place.saturating_add(1), merge, readers),
        Err(refused) => Err(unmerged(place, refused)),
    }
}

fn first_of<R: Read + Drop>(alloc: Global, reader: R) -> Result<Merge, Refused>
    ensures ok { IfOk result (λ merge. (text : List ℕ) → R.remaining reader ≡ Some text → IsPartialReport text merge) }
    ensures complete { (text : List ℕ) (part : Part) → R.remaining reader ≡ Some text → IsPartialReport text part
        → IfErr result IsOutside }
{
    let text = text_of(alloc, reader)?;
    Merge::new(alloc, text.as_slice())
}

fn add_one<R: Read + Drop>(alloc: Global, merge: Merge, reader: R) -> Result<Merge, Refused>
    ensures ok { IfOk result (λ next. (text : List ℕ) → R.remaining reader ≡ Some text → AddsPart merge text next) }
    ensures complete { (text : List ℕ) (other : Part) → R.remaining reader ≡ Some text → IsPartialReport text other
        → AreOfOne merge other
        → AreDisjoint merge.head.numbers other.head.numbers → IfErr result IsOutside }
{
    let text = text_of(alloc, reader)?;
    merge.add(alloc, text.as_slice())
}

// What a reader has left.
fn text_of<R: Read + Drop>(alloc: Global, reader: R) -> Result<Vec<u8>, Refused>
    ensures ok { IfOk result (λ text. (bytes : List ℕ) → R.remaining reader ≡ Some bytes → text.items ≡ bytes) }
    ensures only { IfErr result IsOutside }
{
    let mut reader = reader;
    let mut text = Vec::new(alloc);
    match reader.read_to_end(&mut text) {
        Ok(_) => Ok(text),
        Err(error) if error.kind() == ErrorKind::OutOfMemory => Err(Refused::Memory),
        Err(_) => Err(Refused::Input),
    }
}

fn unmerged(place: usize, refused: Refused) -> Unmerged
    ensures { result ≡ record { place = place; refused = refused } }
{
    Unmerged { place, refused }
}
