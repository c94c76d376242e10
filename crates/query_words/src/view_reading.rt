//! The views that words name.
ghost use Rattle.std.specs.Prelude.{◌<◌, ◌≤◌, ◌+◌, ◌↔◌, Contains, IsTrue, IfOk, IfErr, OnOk, length, map, take};
ghost use Rattle.query_words.specs.ViewWords.{ViewsAreNamed, RefusesWords};

use crate::view_refused::RefusedViews;
use crate::view_words::read_view;
use lattice::View;
use std::alloc::Global;

/// How many views a warehouse stores at most.
const MOST_VIEWS: usize = 16;

/// The views that words name, each by its number, 0 to 511, or by its levels, such as `nation,nation,ALL,year`, where a
/// fifth, `shipmode` or `ALL`, may follow.
pub fn read_views(alloc: Global, words: &[&str]) -> Result<Vec<View>, RefusedViews>
    ensures ok { IfOk result (λ views. ViewsAreNamed (map (λ word. word.now) words.now) views.items) }
    ensures few { IfOk result (λ views. length views.items ≤ 16) }
    ensures err { IfErr result (RefusesWords (map (λ word. word.now) words.now)) }
{
    if words.len() > MOST_VIEWS {
        return Err(RefusedViews::TooMany);
    }
    let mut views = Vec::new(alloc);
    for place in 0..words.len() {
        push_view(alloc, &mut views, words, place)?;
    }
    Ok(views)
}

// Puts the view that the word at a place names after those of the words before it.
fn push_view(
    alloc: Global,
    views: &mut Vec<View>,
    words: &[&str],
    place: usize,
) -> Result<(), RefusedViews>
    requires within { place < length words.now }
    requires named { ViewsAreNamed (map (λ word. word.now) (take place words.now)) views.old.items }
    ensures ok { OnOk result (ViewsAreNamed (map (λ word. word.now) (take (place + 1) words.now)) views.new.items) }
    ensures err { IfErr result (RefusesWords (map (λ word. word.now) words.now)) }
{
    let Ok(found) = read_view(alloc, words[place]) else {
        return Err(RefusedViews::Memory);
    };
    let Some(view) = found else {
        return Err(RefusedViews::Unknown(place));
    };
    if is_among(views, view) {
        return Err(RefusedViews::Twice(place));
    }
    match views.push(view) {
        Ok(()) => Ok(()),
        Err(_) => Err(RefusedViews::Memory),
    }
}

// Whether a view is one of some.
fn is_among(views: &[View], view: View) -> bool
    ensures { IsTrue result ↔ Contains views.now view }
{
    for other in views {
        if other.index() == view.index() {
            return true;
        }
    }
    false
}
