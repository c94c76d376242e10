//! What is wrong with a word that names no view.
use crate::nearness::nearest;
use crate::view_words::mode_name;
use cube_model::Axis;
use lattice::Level;
use std::alloc::{AllocError, Global};

/// The dimensions in the order of the levels of a view.
static AXES: [Axis; 4] = [Axis::Customer, Axis::Supplier, Axis::Part, Axis::Date];

/// The levels, the finest first.
static LEVELS: [Level; 4] = [Level::Lowest, Level::Middle, Level::Highest, Level::All];

/// What is wrong with a word that names no view, as one line without its end. It fails only when out of memory.
pub fn hint_of_view(alloc: Global, word: &str) -> Result<String, AllocError> {
    let parts = word.split(',').collect::<Vec<&str>>(alloc)?;
    if parts.len() != AXES.len() && parts.len() != AXES.len() + 1 {
        return format!(in alloc;
            "{word}: a view is its number, 0 to 511, or four levels, such as nation,nation,ALL,year, and in layout 2 a fifth, shipmode or ALL"
        );
    }
    for place in 0..AXES.len() {
        if !is_level(AXES[place], parts[place]) {
            return unknown_level(alloc, AXES[place], parts[place]);
        }
    }
    match parts.get(AXES.len()) {
        Some(mode) if !is_mode(mode) => unknown_mode(alloc, mode),
        _ => format!(in alloc; "{word}: no such view"),
    }
}

// Whether a word is a level of a dimension.
fn is_level(axis: Axis, word: &str) -> bool {
    LEVELS.iter().any(|level| level.name(axis) == word)
}

// Whether a word is a level of ship mode.
fn is_mode(word: &str) -> bool {
    word == mode_name(true) || word == mode_name(false)
}

// What is said of a word that is no level of a dimension.
fn unknown_level(alloc: Global, axis: Axis, word: &str) -> Result<String, AllocError> {
    let [lowest, middle, highest, all] = LEVELS.map(|level| level.name(axis));
    match nearest(alloc, word, &[lowest, middle, highest, all])? {
        Some(name) => format!(in alloc; "{word}: no such level of {axis}; {name}?"),
        None => format!(in alloc;
            "{word}: no such level of {axis}; there are {lowest} {middle} {highest} {all}"
        ),
    }
}

// What is said of a word that is no level of ship mode.
fn unknown_mode(alloc: Global, word: &str) -> Result<String, AllocError> {
    let [grouped, all] = [mode_name(true), mode_name(false)];
    match nearest(alloc, word, &[grouped, all])? {
        Some(name) => format!(in alloc; "{word}: no such level of {grouped}; {name}?"),
        None => format!(in alloc; "{word}: no such level of {grouped}; there are {grouped} {all}"),
    }
}
