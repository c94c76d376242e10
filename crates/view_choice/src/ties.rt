//! Which view is taken of several with the greatest benefit.
ghost use Rattle.std.specs.Prelude.{◌≡◌, IfOk};
ghost use Rattle.lattice.specs.Sizes.{lattice_of};
ghost use Rattle.view_choice.specs.Cuboids.{views_by};

use lattice::{Counts, View};
use std::alloc::{AllocError, Global};

/// Which view is taken of several with the greatest benefit.
#[derive(Clone, Copy, PartialEq, Eq)]
pub enum Ties {
    /// That of the least number.
    ToLeast,
    /// That of the greatest number. No other view of theirs is coarser.
    ToGreatest,
}

/// All views of the lattice, by ascending number.
pub fn all_views(alloc: Global, counts: &Counts) -> Result<Vec<View>, AllocError>
    ensures { IfOk result (λ views. views.items ≡ lattice_of counts.now) }
{
    let mut views = Vec::with_capacity(alloc, usize::from(counts.view_count()))?;
    for index in 0..counts.view_count() {
        if let Some(view) = counts.view(index) {
            views.push(view)?;
        }
    }
    Ok(views)
}

/// All views of the lattice, in the order in which they are taken at a tie.
pub fn views_by(alloc: Global, counts: &Counts, ties: Ties) -> Result<Vec<View>, AllocError>
    ensures { IfOk result (λ views. views.items ≡ views_by ties counts.now) }
{
    let mut views = all_views(alloc, counts)?;
    match ties {
        Ties::ToLeast => Ok(views),
        Ties::ToGreatest => {
            views.reverse();
            Ok(views)
        }
    }
}
