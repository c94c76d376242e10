ghost use Rattle.std.specs.Prelude.{◌≡◌, ℕ, ◌+◌, ◌<◌, ◌≤◌, length, vec_len, slice_index_or, OnOk, OnErr, IsOkUnless};
ghost use Rattle.std.specs.List.Sorted.{IsNonDecreasingBy};
ghost use Rattle.cube_model.specs.declared.fault.Fault.{Fault};
ghost use Rattle.extents.specs.declared.extent.Extent.{Extent};
ghost use Rattle.extents.specs.Join.{joined_runs};

use crate::extent::Extent;
use cube_model::Fault;

// The run that takes the place of the runs from `place` up to `after`.
#[derive(Clone, Copy)]
pub(crate) struct Join {
    pub(crate) joined: Extent,
    pub(crate) place: usize,
    pub(crate) after: usize,
}

// How many runs end before a sector.
pub(crate) fn ended(runs: &[Extent], sector: u32) -> usize
    requires { IsNonDecreasingBy (λ run. run.first + run.len) runs.now }
    ensures within { result ≤ length runs.now }
    ensures before { (k : ℕ) (d : Extent) → k < result
        → (slice_index_or runs.now k d).first + (slice_index_or runs.now k d).len < sector }
    ensures after { (k : ℕ) (d : Extent) → result ≤ k → k < length runs.now
        → sector ≤ (slice_index_or runs.now k d).first + (slice_index_or runs.now k d).len }
{
    runs.partition_point(|run| run.end() < u64::from(sector))
}

// Puts the joined run in the place of the runs that it was joined with.
pub(crate) fn put(runs: &mut Vec<Extent>, join: Join) -> Result<(), Fault>
    requires order { join.place ≤ join.after }
    requires few { join.after ≤ join.place + 2 }
    requires within { join.after ≤ vec_len runs.old }
    ensures ok { OnOk result (runs.new.items ≡ joined_runs runs.old.items join) }
    ensures err { OnErr result (runs.new.items ≡ runs.old.items) }
    ensures memory { IsOkUnless result Fault.Memory }
{
    if join.place == join.after {
        runs.insert(join.place, join.joined)?;
        return Ok(());
    }
    runs[join.place] = join.joined;
    if join.place + 1 < join.after {
        runs.remove(join.place + 1);
    }
    Ok(())
}
