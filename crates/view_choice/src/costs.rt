//! The views of the lattice with their sizes, and those that are asked for with their costs under the views chosen so
//! far.
ghost use Rattle.std.specs.Prelude.{◌≡◌, ◌<◌, ◌^◌, map, IfOk};
ghost use Rattle.lattice.specs.Sizes.{size_of};
ghost use Rattle.view_choice.specs.Costs.{sized, costs_all_rows, saved_by, benefit_among, gain_among, costs_in_all};
ghost use Rattle.view_choice.specs.Costs.{lowered, IsFirstGreatest};

use lattice::{Counts, View};
use std::alloc::{AllocError, Global};

/// The most cells of a view that may be stored.
pub const MOST_STORED_CELLS: u64 = 262_144;

/// A view, and the most cells that it can have.
#[derive(Clone, Copy, PartialEq, Eq)]
pub struct Candidate {
    pub view: View,
    pub size: u64,
}

/// A view that is asked for, and its cost under the views chosen so far.
#[derive(Clone, Copy, PartialEq, Eq)]
pub struct Costed {
    pub view: View,
    pub cost: u64,
}

/// Views with their sizes over so many fact rows.
pub fn all_candidates(
    alloc: Global,
    rows: u64,
    counts: &Counts,
    views: &[View],
) -> Result<Vec<Candidate>, AllocError>
    ensures { IfOk result (λ all. all.items ≡ map (sized (size_of rows counts.now)) views.now) }
{
    let mut all = Vec::with_capacity(alloc, views.len())?;
    for view in views {
        let size = view.size(rows, counts);
        all.push(Candidate { view: *view, size })?;
    }
    Ok(all)
}

/// Views with their costs before one is chosen: the fact rows.
pub fn all_costed(alloc: Global, rows: u64, views: &[View]) -> Result<Vec<Costed>, AllocError>
    ensures { IfOk result (λ all. all.items ≡ map (costs_all_rows rows) views.now) }
{
    let mut all = Vec::with_capacity(alloc, views.len())?;
    for view in views {
        all.push(Costed {
            view: *view,
            cost: rows,
        })?;
    }
    Ok(all)
}

// By how much a view of a size lowers the cost of another.
fn saved_by(view: View, size: u64, other: &Costed) -> u64
    ensures { result ≡ saved_by view size other.now }
{
    if view.answers(other.view) {
        other.cost.saturating_sub(size)
    } else {
        0
    }
}

/// The benefit of a view of a size: by how much it lowers the costs of the views that it answers, in all.
pub fn benefit_among(all: &[Costed], view: View, size: u64) -> u64
    requires { costs_in_all all.now < 2 ^ 64 }
    ensures { result ≡ benefit_among all.now view size }
{
    let mut total = 0;
    for other in all {
        total += saved_by(view, size, other);
    }
    total
}

// The benefit of a view that may be stored, 0 of one that may not.
fn gain_among(all: &[Costed], candidate: &Candidate) -> u64
    requires { costs_in_all all.now < 2 ^ 64 }
    ensures { result ≡ gain_among all.now candidate.now }
{
    if candidate.size <= MOST_STORED_CELLS {
        benefit_among(all, candidate.view, candidate.size)
    } else {
        0
    }
}

/// The first place of the views of greatest benefit that may be stored, or nothing where none has a benefit.
pub fn first_greatest(all: &[Costed], candidates: &[Candidate]) -> Option<usize>
    requires { costs_in_all all.now < 2 ^ 64 }
    ensures { IsFirstGreatest (gain_among all.now) candidates.now result }
{
    let mut best = None;
    let mut most = 0;
    for place in 0..candidates.len() {
        let gain = gain_among(all, &candidates[place]);
        if gain > most {
            best = Some(place);
            most = gain;
        }
    }
    best
}

// A view with its cost when one more view is chosen, of a size.
fn lowered(view: View, size: u64, before: Costed) -> Costed
    ensures { result ≡ lowered view size before }
{
    if view.answers(before.view) {
        Costed {
            cost: before.cost.min(size),
            ..before
        }
    } else {
        before
    }
}

/// Lowers the costs of the views that a chosen view answers to its size.
pub fn lower(all: &mut [Costed], view: View, size: u64)
    ensures { all.new ≡ map (lowered view size) all.old }
{
    for other in all.iter_mut() {
        *other = lowered(view, size, *other);
    }
}
