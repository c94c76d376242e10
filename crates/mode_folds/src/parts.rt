//! The folds of the parts of fact rows, one for each ship mode.
ghost use Rattle.std.specs.Prelude.{◌≡◌, ◌≤◌, ◌++◌, Err, List, length, IfErr, OnOk, IsOkUnless};
ghost use Rattle.std.specs.List.{AllByRecursion};
ghost use Rattle.std.specs.declared.alloc.Global.{Global};
ghost use Rattle.std.specs.declared.vec.Vec.{Vec};
ghost use Rattle.group_tallies.specs.Limits.{AreFoldable, EndsFolding};
ghost use Rattle.cube_model.specs.declared.query.Query.{Query};
ghost use Rattle.cube_model.specs.declared.rows.LineOrder.{LineOrder};
ghost use Rattle.cube_query.specs.Groups.{IsOver};
ghost use Rattle.mode_folds.specs.Parts.{AreGrown, CanTakeEach, HaveQuery, RepresentByMode, TakeByMode, TakeEach};

use crate::dividing::divided;
use cube_model::{Fault, LineOrder, ProperQuery};
use cube_query::Fold;
use dictionary::Dictionary;
use dimensions::Dims;
use std::alloc::Global;

/// Counts rows into the folds of a query for their ship modes. Those that are new get folds that begin. After a refusal
/// some of the rows may have been counted.
pub(crate) fn add_by_mode(
    alloc: Global,
    dims: &Dims,
    query: &ProperQuery<'_>,
    modes: &mut Dictionary,
    folds: &mut Vec<Fold>,
    rows: Vec<LineOrder>,
) -> Result<(), Fault>
    requires over { AllByRecursion (IsOver dims.now) folds.old.items }
    requires queries { HaveQuery query.now folds.old.items }
    ensures ok { OnOk result (TakeByMode dims.now query.now modes.old.texts folds.old.items rows.items modes.new.texts
        folds.new.items) }
    ensures over { AllByRecursion (IsOver dims.now) folds.new.items }
    ensures queries { HaveQuery query.now folds.new.items }
    ensures refused { result ≡ Err Fault.BadLayout → (so_far : List LineOrder)
        → RepresentByMode dims.now query.now so_far modes.old.texts folds.old.items
        → AreFoldable dims.now (so_far ++ rows.items) → ⊥ }
    ensures only { IfErr result EndsFolding }
{
    let parts = divided(alloc, modes, rows)?;
    grow(alloc, dims, query, folds, parts.len())?;
    add_parts(dims, folds.as_mut_slice(), parts.as_slice())
}

/// Folds of a query for ship modes that have none yet, after those that are there. It can only fail when out of memory.
pub(crate) fn grow(
    alloc: Global,
    dims: &Dims,
    query: &ProperQuery<'_>,
    folds: &mut Vec<Fold>,
    count: usize,
) -> Result<(), Fault>
    requires over { AllByRecursion (IsOver dims.now) folds.old.items }
    requires queries { HaveQuery query.now folds.old.items }
    ensures ok { OnOk result (AreGrown dims.now query.now count folds.old.items folds.new.items) }
    ensures many { OnOk result (count ≤ length folds.new.items) }
    ensures over { AllByRecursion (IsOver dims.now) folds.new.items }
    ensures queries { HaveQuery query.now folds.new.items }
    ensures memory { IsOkUnless result Fault.Memory }
{
    for _ in folds.len()..count {
        folds.push(Fold::new(alloc, dims, query)?)?;
    }
    Ok(())
}

// Counts the rows of each part into its fold. After a refusal some of them may have been counted.
fn add_parts(dims: &Dims, folds: &mut [Fold], parts: &[Vec<LineOrder>]) -> Result<(), Fault>
    requires over { AllByRecursion (IsOver dims.now) folds.old }
    requires counted { length parts.now ≤ length folds.old }
    ensures same { length folds.new ≡ length folds.old }
    ensures ok { OnOk result (TakeEach dims.now folds.old parts.now folds.new) }
    ensures over { AllByRecursion (IsOver dims.now) folds.new }
    ensures queries { (query : Query) → HaveQuery query folds.old → HaveQuery query folds.new }
    ensures refused { result ≡ Err Fault.BadLayout → CanTakeEach dims.now folds.old parts.now → ⊥ }
    ensures only { IfErr result EndsFolding }
{
    for i in 0..parts.len() {
        folds[i].add_rows(dims, parts[i].as_slice())?;
    }
    Ok(())
}
