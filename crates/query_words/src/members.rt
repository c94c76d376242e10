//! The members of an attribute, and which of them a text comes nearest to.
use crate::nearness::nearest;
use cube_model::Attr;
use dimensions::Dims;
use std::alloc::{AllocError, Global};

/// Whether a row of the dimension of an attribute has a text.
pub fn has_member(dims: &Dims, attr: Attr, text: &[u8]) -> bool {
    has_member_between(dims, attr, text, text)
}

/// Whether a row of the dimension of an attribute has a text between two others by bytes, both included.
pub fn has_member_between(dims: &Dims, attr: Attr, low: &[u8], high: &[u8]) -> bool {
    for rank in 0..dims.members(attr) {
        let member = dims.member(attr, rank as u16);
        if low <= member && member <= high {
            return true;
        }
    }
    false
}

/// The member that is nearest to a text: one that differs in case alone, or else one a few edits away. There is none
/// for bytes that are no UTF-8, nor for a number, since each number is near to another. It fails only when out of
/// memory.
pub fn near_member<'d>(
    alloc: Global,
    dims: &'d Dims,
    attr: Attr,
    text: &[u8],
) -> Result<Option<&'d str>, AllocError> {
    let Ok(word) = str::from_utf8(text) else {
        return Ok(None);
    };
    if text.iter().all(|byte| byte.is_ascii_digit()) {
        return Ok(None);
    }
    let names = names(alloc, dims, attr)?;
    near_name(alloc, word, names.as_slice())
}

// The members that are UTF-8.
fn names(alloc: Global, dims: &Dims, attr: Attr) -> Result<Vec<&str>, AllocError> {
    let mut names = Vec::new(alloc);
    for rank in 0..dims.members(attr) {
        if let Ok(name) = str::from_utf8(dims.member(attr, rank as u16)) {
            names.push(name)?;
        }
    }
    Ok(names)
}

// The nearest of some names, most of which are in capital letters.
fn near_name<'n>(
    alloc: Global,
    word: &str,
    names: &[&'n str],
) -> Result<Option<&'n str>, AllocError> {
    for name in names {
        if name.eq_ignore_ascii_case(word) {
            return Ok(Some(*name));
        }
    }
    let found = nearest(alloc, word, names)?;
    if found.is_some() {
        return Ok(found);
    }
    let word = word.to_ascii_uppercase(alloc)?;
    nearest(alloc, word.as_str(), names)
}
