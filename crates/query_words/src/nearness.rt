//! The name that a word comes nearest to.
ghost use Rattle.std.specs.Prelude.{MatchOption, IfOk, map};
ghost use Rattle.query_words.specs.Near.{AreFar, IsNearest};

use std::alloc::{AllocError, Global};
use strsim::levenshtein;

/// One of some names that is nearest to a word, unless none is near. It fails only when out of memory.
pub fn nearest<'n>(
    alloc: Global,
    word: &str,
    names: &[&'n str],
) -> Result<Option<&'n str>, AllocError>
    ensures { IfOk result (λ found. MatchOption found
        (AreFar word.now (map (λ name. name.now) names.now))
        (λ name. IsNearest word.now (map (λ name. name.now) names.now) name.now)) }
{
    let mut found = None;
    let mut least = word.len() / 3 + 2;
    for name in names {
        let edits = levenshtein(alloc, word, name)?;
        if edits < least {
            least = edits;
            found = Some(*name);
        }
    }
    Ok(found)
}
