//! The answer to a query over fact rows at hand.
ghost use Rattle.std.specs.Prelude.{◌≡◌, ◌≢◌, Err, IfOk, IfErr, OnOk};
ghost use Rattle.group_tallies.specs.Limits.{AreFoldable, EndsFolding};
ghost use Rattle.cube_model.specs.Answers.{answer};
ghost use Rattle.cube_model.specs.Proper.{IsProper};

use crate::running::Fold;
use cube_model::{Answer, Fault, LineOrder, Query};
use dimensions::Dims;
use std::alloc::Global;

/// The answer to a query over fact rows.
///
/// It asks nothing of the rows: `BadLayout` says that a row has a key that no dimension row has, or that a sum passes
/// its limit.
pub fn fold(alloc: Global, dims: &Dims, rows: &[LineOrder], query: &Query) -> Result<Answer, Fault>
    ensures answer { IfOk result (λ found. found ≡ answer query.now dims.now rows.now) }
    ensures proper { OnOk result (IsProper query.now) }
    ensures improper { (IsProper query.now → ⊥) → result ≡ Err Fault.BadQuery }
    ensures refused { result ≡ Err Fault.BadQuery → IsProper query.now → ⊥ }
    ensures unfolded { result ≡ Err Fault.BadLayout → AreFoldable dims.now rows.now → ⊥ }
    ensures only { IfErr result (λ fault. fault ≢ Fault.BadQuery → EndsFolding fault) }
{
    let query = query.check()?;
    let mut state = Fold::new(alloc, dims, &query)?;
    state.add_rows(dims, rows)?;
    state.finish(dims)
}
