//! The rules of a root that was read.
ghost use Rattle.std.specs.Prelude.{◌≡◌, ◌≤◌, ◌↔◌, length, All, IsTrue};
ghost use Rattle.cube_model.specs.Limits.{most_batch_rows};
ghost use Rattle.warehouse_root.specs.Reading.{root_of_parts};
ghost use Rattle.warehouse_root.specs.Root.{ViewsAscend, IsProperRoot, IsProperCuboid};

use crate::cuboid::StoredCuboid;
use crate::layout::Layout;
use crate::limits::{MOST_ADDITIONS, MOST_CUBOIDS};
use crate::reading::Counts;
use crate::totals::are_proper_totals;
use cube_model::Totals;
use cube_model::limits::{MOST_BATCH_ROWS, MOST_BATCHES};

// Whether a root of these parts keeps the rules.
pub(crate) fn keep_rules(
    layout: Layout,
    counts: &Counts,
    totals: &Totals,
    batches: &[u32],
    cuboids: &[StoredCuboid],
) -> bool
    requires { length batches.now ≡ counts.now.batches }
    ensures { IsTrue result ↔ IsProperRoot (root_of_parts layout counts.now totals.now batches.now cuboids.now) }
{
    batches.len() <= MOST_BATCHES
        && cuboids.len() <= MOST_CUBOIDS
        && counts.target <= counts.batches
        && counts.additions <= MOST_ADDITIONS
        && are_proper_totals(totals)
        && are_few(batches)
        && are_proper(cuboids, layout, counts.batches)
        && ascend(cuboids)
}

// Whether no batch has too many rows.
fn are_few(batches: &[u32]) -> bool
    ensures { IsTrue result ↔ All (λ rows. rows ≤ most_batch_rows) batches.now }
{
    batches.iter().all(|rows| *rows as usize <= MOST_BATCH_ROWS)
}

// Whether each cuboid keeps its rules over so many batches.
fn are_proper(cuboids: &[StoredCuboid], layout: Layout, batches: u32) -> bool
    ensures { IsTrue result ↔ All (IsProperCuboid layout batches) cuboids.now }
{
    cuboids
        .iter()
        .all(|cuboid| cuboid.is_proper(layout, batches))
}

// Whether each view is below the next.
fn ascend(cuboids: &[StoredCuboid]) -> bool
    ensures { IsTrue result ↔ ViewsAscend cuboids.now }
{
    cuboids.is_sorted_by(|one, other| one.view < other.view)
}
