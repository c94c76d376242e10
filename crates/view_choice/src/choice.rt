//! The greedy choice among the views of the warehouse (Harinarayan, Rajaraman and Ullman 1996), and the benefits of
//! views.
ghost use Rattle.std.specs.Prelude.{◌≡◌, ◌≤◌, IfOk, length, IsOkUnless};
ghost use Rattle.view_choice.specs.Choice.{IsGreedy, benefits};
ghost use Rattle.view_choice.specs.Cuboids.{cuboids, cuboids_by, cuboids_for, most_demanded, most_fact_rows};
ghost use Rattle.view_choice.specs.Lawful.{HasGuarantee};

use crate::costs::{all_candidates, all_costed, benefit_among, first_greatest, lower};
use crate::ties::{Ties, all_views, views_by};
use cube_model::Fault;
use lattice::{Counts, View};
use std::alloc::Global;

/// The most views that are asked for, each counted as often as it is.
pub const MOST_DEMANDED: usize = 65_536;

/// The greedy list of k views over so many fact rows: each is the view of greatest benefit under those before it, of
/// those with at most `MOST_STORED_CELLS` cells, the one of least index at a tie. It ends early where no view has a
/// benefit any more. It has at least `1 - ((k - 1) / k) ^ k` of the benefit of any choice of as many such views.
pub fn greedy(alloc: Global, rows: u64, counts: &Counts, k: u8) -> Result<Vec<View>, Fault>
    requires { rows ≤ most_fact_rows }
    ensures ok { IfOk result (λ chosen. IsGreedy (cuboids rows counts.now) k chosen.items) }
    ensures guarantee { 1 ≤ k → IfOk result (λ chosen. HasGuarantee (cuboids rows counts.now) k chosen.items) }
    ensures err { IsOkUnless result Fault.Memory }
{
    let demanded = all_views(alloc, counts)?;
    choose_best(alloc, rows, counts, demanded.as_slice(), Ties::ToLeast, k)
}

/// The greedy list of k views where only some views are asked for, as often as each is among them: the benefit of a
/// view is by how much it lowers the costs of these. At a tie it takes the view of greatest index, so of two that
/// answer the same of these alike the coarser one. It has the guarantee of `greedy` of this benefit.
pub fn greedy_for(
    alloc: Global,
    rows: u64,
    counts: &Counts,
    demanded: &[View],
    k: u8,
) -> Result<Vec<View>, Fault>
    requires rows { rows ≤ most_fact_rows }
    requires few { length demanded.now ≤ most_demanded }
    ensures ok { IfOk result (λ chosen. IsGreedy (cuboids_for rows counts.now demanded.now) k chosen.items) }
    ensures guarantee { 1 ≤ k
        → IfOk result (λ chosen. HasGuarantee (cuboids_for rows counts.now demanded.now) k chosen.items) }
    ensures err { IsOkUnless result Fault.Memory }
{
    choose_best(alloc, rows, counts, demanded, Ties::ToGreatest, k)
}

// Chooses the best view under those chosen so far, k times or until none has a benefit.
fn choose_best(
    alloc: Global,
    rows: u64,
    counts: &Counts,
    demanded: &[View],
    ties: Ties,
    k: u8,
) -> Result<Vec<View>, Fault>
    requires rows { rows ≤ most_fact_rows }
    requires few { length demanded.now ≤ most_demanded }
    ensures ok { IfOk result (λ chosen. IsGreedy (cuboids_by ties rows counts.now demanded.now) k chosen.items) }
    ensures err { IsOkUnless result Fault.Memory }
{
    let views = views_by(alloc, counts, ties)?;
    let candidates = all_candidates(alloc, rows, counts, views.as_slice())?;
    let mut all = all_costed(alloc, rows, demanded)?;
    let mut chosen = Vec::new(alloc);
    for _ in 0..k {
        let Some(place) = first_greatest(all.as_slice(), candidates.as_slice()) else {
            return Ok(chosen);
        };
        let best = candidates[place];
        chosen.push(best.view)?;
        lower(all.as_mut_slice(), best.view, best.size);
    }
    Ok(chosen)
}

/// The benefit of each view under those before it: by how much it lowers the costs of the views that it answers, in
/// all.
pub fn benefits(
    alloc: Global,
    rows: u64,
    counts: &Counts,
    views: &[View],
) -> Result<Vec<u64>, Fault>
    requires { rows ≤ most_fact_rows }
    ensures ok { IfOk result (λ found. found.items ≡ benefits (cuboids rows counts.now) views.now) }
    ensures err { IsOkUnless result Fault.Memory }
{
    let demanded = all_views(alloc, counts)?;
    benefits_for(alloc, rows, counts, demanded.as_slice(), views)
}

/// The same where only some views are asked for: by how much each lowers the costs of those of these that it answers.
pub fn benefits_for(
    alloc: Global,
    rows: u64,
    counts: &Counts,
    demanded: &[View],
    views: &[View],
) -> Result<Vec<u64>, Fault>
    requires rows { rows ≤ most_fact_rows }
    requires few { length demanded.now ≤ most_demanded }
    ensures ok { IfOk result (λ found. found.items ≡ benefits (cuboids_for rows counts.now demanded.now) views.now) }
    ensures err { IsOkUnless result Fault.Memory }
{
    let mut all = all_costed(alloc, rows, demanded)?;
    let mut found = Vec::new(alloc);
    for view in views {
        let size = view.size(rows, counts);
        found.push(benefit_among(all.as_slice(), *view, size))?;
        lower(all.as_mut_slice(), *view, size);
    }
    Ok(found)
}
