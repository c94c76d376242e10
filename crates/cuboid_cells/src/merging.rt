//! Merging cells of one view.
ghost use Rattle.std.specs.Prelude.{◌≡◌, [], IfErr, IfOk, MatchOption};
ghost use Rattle.cube_model.specs.declared.fault.Fault.{Fault};
ghost use Rattle.cuboid_cells.specs.Cells.{AreProperCells};
ghost use Rattle.cuboid_cells.specs.Merges.{AreMergeOf, IsMergeFault};
ghost use Rattle.cuboid_cells.specs.Steps.{HaveBadFirsts, IsStep, cells_of};

use crate::cell::Cell;
use crate::limits::MOST_CELLS;
use cube_model::Fault;
use lattice::View;
use std::alloc::Global;

// The cell of the lowest key, and what is left after it on both sides.
#[derive(Clone, Copy)]
pub(crate) struct Step<'a> {
    pub(crate) cell: Cell,
    pub(crate) one: &'a [Cell],
    pub(crate) other: &'a [Cell],
}

// The cells of both: the cell of a key is the merge of the cells of that key.
pub(crate) fn merge_cells(
    alloc: Global,
    view: View,
    one: &[Cell],
    other: &[Cell],
) -> Result<Vec<Cell>, Fault>
    requires one { AreProperCells (cells_of view one.now) }
    requires other { AreProperCells (cells_of view other.now) }
    ensures ok { IfOk result (λ cells. AreMergeOf one.now other.now cells.items) }
    ensures proper { IfOk result (λ cells. AreProperCells (cells_of view cells.items)) }
    ensures refused { IfErr result (IsMergeFault (cells_of view one.now) (cells_of view other.now)) }
{
    let most = one.len() + other.len();
    let mut cells = Vec::with_capacity(alloc, most.min(MOST_CELLS))?;
    let (mut left, mut right) = (one, other);
    for _ in 0..most {
        if let Some(step) = next_step(left, right)? {
            cells.push(step.cell)?;
            left = step.one;
            right = step.other;
        }
    }
    if cells.len() > MOST_CELLS {
        return Err(Fault::TooManyCells { view: view.index() });
    }
    Ok(cells)
}

// The next cell of the merge of two lists, if either has one. `BadLayout` where a number would exceed its type.
#[inline(always)]
fn next_step<'a>(one: &'a [Cell], other: &'a [Cell]) -> Result<Option<Step<'a>>, Fault>
    ensures step { IfOk result
        (λ step. MatchOption step ((one.now ≡ []) × (other.now ≡ [])) (IsStep one.now other.now)) }
    ensures refused { IfErr result (λ fault. (fault ≡ Fault.BadLayout) × HaveBadFirsts one.now other.now) }
{
    let Some((left, one_left)) = one.split_first() else {
        return Ok(first_of(one, other));
    };
    let Some((right, other_left)) = other.split_first() else {
        return Ok(Some(Step {
            cell: *left,
            one: one_left,
            other,
        }));
    };
    let (at, other_at) = (left.key.number(), right.key.number());
    if at < other_at {
        return Ok(Some(Step {
            cell: *left,
            one: one_left,
            other,
        }));
    }
    if other_at < at {
        return Ok(Some(Step {
            cell: *right,
            one,
            other: other_left,
        }));
    }
    Ok(Some(Step {
        cell: left.merged(right).ok_or(Fault::BadLayout)?,
        one: one_left,
        other: other_left,
    }))
}

// The step where the first list is empty.
#[inline(always)]
fn first_of<'a>(one: &'a [Cell], other: &'a [Cell]) -> Option<Step<'a>>
    requires { one.now ≡ [] }
    ensures { MatchOption result (other.now ≡ []) (IsStep one.now other.now) }
{
    let (cell, left) = other.split_first()?;
    Some(Step {
        cell: *cell,
        one,
        other: left,
    })
}
