//! The mistake in words, and the known name that is near.
use crate::known::Known;
use crate::nearness::nearest;
use crate::refused::Refused;
use std::alloc::{AllocError, Global};
use strsim::levenshtein;

/// Why words are refused, and the name that a word may be meant for. It is shown as one line without its end.
#[derive(Clone, Copy, PartialEq, Eq)]
pub struct WordHint<'a> {
    pub(crate) refused: Refused<'a>,
    pub(crate) near: Option<&'static str>,
}

/// What is said of a refusal. It fails only when out of memory.
pub fn hint_of(alloc: Global, refused: Refused<'_>) -> Result<WordHint<'_>, AllocError> {
    let near = match refused {
        // Each number is near to another, and says nothing.
        Refused::Unknown {
            known: Known::Query,
            ..
        } => None,
        Refused::Unknown { word, known } => near_name(alloc, word, known)?,
        _ => None,
    };
    Ok(WordHint { refused, near })
}

// The name that is nearest to a word, without regard to case.
fn near_name(alloc: Global, word: &str, known: Known) -> Result<Option<&'static str>, AllocError> {
    let word = word.to_ascii_lowercase(alloc)?;
    let names = names_of(alloc, known)?;
    let Some(name) = nearest(alloc, word.as_str(), names.as_slice())? else {
        return Ok(None);
    };
    // Names of aggregates are so short that most of a word may differ: median is not meant for min.
    if known == Known::Aggregate && levenshtein(alloc, word.as_str(), name)? > 1 {
        return Ok(None);
    }
    Ok(Some(name))
}

// The names of a kind.
fn names_of(alloc: Global, known: Known) -> Result<Vec<&'static str>, AllocError> {
    let mut names = Vec::new(alloc);
    for place in 0..known.count() {
        if let Some(name) = known.name_at(place) {
            names.push(name)?;
        }
    }
    Ok(names)
}
