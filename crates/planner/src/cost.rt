//! What a plan reads.
ghost use Rattle.std.specs.Prelude.{◌≡◌, ◌≤◌, ◌*◌, length};
ghost use Rattle.planner.specs.Plans.{rows_between, cells_cost};

use crate::stored::Stored;

// The fact rows of the batches after `from` up to `to`.
pub(crate) fn rows_between(batch_rows: &[u32], from: u32, to: u32) -> u64
    requires order { from ≤ to }
    requires known { to ≤ length batch_rows.now }
    ensures rows { result ≡ rows_between batch_rows.now from to }
    ensures fits { result ≤ 4294967295 * to }
{
    let tail = &batch_rows[from as usize..to as usize];
    let mut total = 0;
    for rows in tail {
        total += u64::from(*rows);
    }
    total
}

// The cells of a cuboid, and the fact rows of its tail: the batches after its mark.
pub(crate) fn cells_cost(batch_rows: &[u32], stored: &Stored, as_of: u32) -> u64
    requires order { stored.now.mark ≤ as_of }
    requires known { as_of ≤ length batch_rows.now }
    ensures { result ≡ cells_cost batch_rows.now as_of stored.now }
{
    u64::from(stored.cells) + rows_between(batch_rows, stored.mark, as_of)
}
