//! Spelling the parts of a root.
ghost use Rattle.std.specs.Prelude.{◌≡◌, ◌++◌, OnOk, IsOkUnless};
ghost use Rattle.std.specs.List.{flat_map};
ghost use Rattle.cube_model.specs.declared.fault.Fault.{Fault};
ghost use Rattle.wire.specs.Spelling.{spelling};
ghost use Rattle.warehouse_root.specs.Root.{counts_spelling, cuboid_of, totals_spelling};

use crate::cuboid::StoredCuboid;
use cube_model::{Fault, Totals};
use wire::{push_u16, push_u32, push_u64};

// Adds the four counts.
pub(crate) fn push_counts(
    out: &mut Vec<u8>,
    batches: u32,
    target: u32,
    additions: u32,
    cuboids: u32,
) -> Result<(), Fault>
    ensures ok { OnOk result (out.new.items ≡ out.old.items ++ counts_spelling batches target additions cuboids) }
    ensures memory { IsOkUnless result Fault.Memory }
{
    push_u32(out, batches)?;
    push_u32(out, target)?;
    push_u32(out, additions)?;
    push_u32(out, cuboids)
}

// Adds the totals.
pub(crate) fn push_totals(out: &mut Vec<u8>, totals: &Totals) -> Result<(), Fault>
    ensures ok { OnOk result (out.new.items ≡ out.old.items ++ totals_spelling totals.now) }
    ensures memory { IsOkUnless result Fault.Memory }
{
    push_u64(out, totals.quantity)?;
    push_u64(out, totals.extendedprice)?;
    push_u64(out, totals.revenue)?;
    push_u64(out, totals.supplycost)?;
    push_u64(out, totals.discounted)?;
    push_u64(out, totals.profit)
}

// Adds the rows of each batch.
pub(crate) fn push_rows(out: &mut Vec<u8>, batches: &[u32]) -> Result<(), Fault>
    ensures ok { OnOk result (out.new.items ≡ out.old.items ++ flat_map (spelling 4) batches.now) }
    ensures memory { IsOkUnless result Fault.Memory }
{
    for rows in batches {
        push_u32(out, *rows)?;
    }
    Ok(())
}

// Adds each cuboid.
pub(crate) fn push_cuboids(out: &mut Vec<u8>, cuboids: &[StoredCuboid]) -> Result<(), Fault>
    ensures ok { OnOk result (out.new.items ≡ out.old.items ++ flat_map cuboid_of cuboids.now) }
    ensures memory { IsOkUnless result Fault.Memory }
{
    for cuboid in cuboids {
        push_cuboid(out, cuboid)?;
    }
    Ok(())
}

fn push_cuboid(out: &mut Vec<u8>, cuboid: &StoredCuboid) -> Result<(), Fault>
    ensures ok { OnOk result (out.new.items ≡ out.old.items ++ cuboid_of cuboid.now) }
    ensures memory { IsOkUnless result Fault.Memory }
{
    push_u16(out, cuboid.view)?;
    push_u16(out, cuboid.runs)?;
    push_u32(out, cuboid.mark)?;
    push_u32(out, cuboid.cells)
}
