ghost use Rattle.std.specs.Prelude.{◌≡◌, ◌+◌, ◌<◌, ◌⊎◌, ◌++◌, IfOk, IfErr, OnOk, IsOkUnless};
ghost use Rattle.std.specs.List.Sorted.{IsNonDecreasingBy, IsPermutation};
ghost use Rattle.cube_model.specs.declared.fault.Fault.{Fault};
ghost use Rattle.extents.specs.Extents.{AreLaidOut};
ghost use Rattle.extents.specs.Runs.{AreRuns, gap, IsRest};

use crate::extent::Extent;
use cube_model::Fault;
use std::alloc::Global;

// The extents in the order of their first sectors.
pub(crate) fn sorted(alloc: Global, used: &[Extent]) -> Result<Vec<Extent>, Fault>
    ensures same { IfOk result (λ sorted. IsPermutation used.now sorted.items) }
    ensures order { IfOk result (λ sorted. IsNonDecreasingBy (λ extent. extent.first) sorted.items) }
    ensures memory { IsOkUnless result Fault.Memory }
{
    let mut sorted = Vec::from_slice(alloc, used)?;
    sorted.sort_unstable_by_key(|extent| extent.first);
    Ok(sorted)
}

// The runs that extents in the order of their first sectors leave of the sectors from 2 up to the count.
pub(crate) fn gaps(alloc: Global, count: u32, sorted: &[Extent]) -> Result<Vec<Extent>, Fault>
    requires { IsNonDecreasingBy (λ extent. extent.first) sorted.now }
    ensures runs { IfOk result (λ runs. AreRuns 2 (count + 1) runs.items) }
    ensures rest { IfOk result (λ runs. IsRest count sorted.now runs.items) }
    ensures laid_out { OnOk result (AreLaidOut count sorted.now) }
    ensures refused { IfErr result
        (λ fault. (fault ≡ Fault.Memory) ⊎ ((fault ≡ Fault.BadLayout) × (¬ AreLaidOut count sorted.now))) }
{
    let mut runs = Vec::new(alloc);
    let mut from = 2;
    for extent in sorted {
        if extent.len == 0 || extent.first < from || extent.end() > u64::from(count) {
            return Err(Fault::BadLayout);
        }
        push_gap(&mut runs, from, extent.first)?;
        from = extent.first + extent.len;
    }
    push_gap(&mut runs, from, count)?;
    Ok(runs)
}

// Adds the run from a sector up to another, if there is a sector between them.
fn push_gap(runs: &mut Vec<Extent>, from: u32, to: u32) -> Result<(), Fault>
    ensures ok { OnOk result (runs.new.items ≡ runs.old.items ++ gap from to) }
    ensures memory { IsOkUnless result Fault.Memory }
{
    if from < to {
        let run = Extent {
            first: from,
            len: to - from,
        };
        runs.push(run)?;
    }
    Ok(())
}
