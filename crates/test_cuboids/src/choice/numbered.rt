//! Views by their numbers.
use cube_model::Fault;
use lattice::View;
use std::alloc::Global;

/// The views of some numbers.
pub(crate) fn views_of(alloc: Global, numbers: &[u16]) -> Result<Vec<View>, Fault> {
    let mut views = Vec::new(alloc);
    for number in numbers {
        if let Some(view) = View::new(*number) {
            views.push(view)?;
        }
    }
    Ok(views)
}
