//! The ids of the objects of a warehouse.
ghost use Rattle.std.specs.Prelude.{◌≡◌, ◌+◌, ◌≤◌, ◌<◌, ◌^◌, ◌++◌, OnOk, IsOkUnless};
ghost use Rattle.std.specs.List.{flat_map, range_with_len};
ghost use Rattle.cube_model.specs.declared.fault.Fault.{Fault};
ghost use Rattle.cube_model.specs.Limits.{most_batches};
ghost use Rattle.warehouse_root.specs.Objects.{run_id, run_ids, segment_id};

use crate::cuboid::StoredCuboid;
use cube_model::Fault;

/// The id of the segment of a batch. Batches count from 1.
pub fn segment_id(batch: u32) -> u32
    requires { batch ≤ most_batches }
    ensures { result ≡ segment_id batch }
{
    65_536 + batch
}

/// The id of a run of the cuboid of a view. Both count from 0.
pub fn run_id(view: u16, run: u16) -> u32
    ensures { result ≡ run_id view run }
{
    131_072 + 16 * u32::from(view) + u32::from(run)
}

// Adds numbers from one on.
pub(crate) fn push_numbers(out: &mut Vec<u32>, first: u32, count: u32) -> Result<(), Fault>
    requires { first + count < 2 ^ 32 }
    ensures ok { OnOk result (out.new.items ≡ out.old.items ++ range_with_len first count) }
    ensures memory { IsOkUnless result Fault.Memory }
{
    for id in first..first + count {
        out.push(id)?;
    }
    Ok(())
}

// Adds the ids of the runs of each cuboid.
pub(crate) fn push_runs(out: &mut Vec<u32>, cuboids: &[StoredCuboid]) -> Result<(), Fault>
    ensures ok { OnOk result (out.new.items ≡ out.old.items ++ flat_map run_ids cuboids.now) }
    ensures memory { IsOkUnless result Fault.Memory }
{
    for cuboid in cuboids {
        push_run_ids(out, *cuboid)?;
    }
    Ok(())
}

/// Adds the ids of the runs of a cuboid.
pub fn push_run_ids(out: &mut Vec<u32>, cuboid: StoredCuboid) -> Result<(), Fault>
    ensures ok { OnOk result (out.new.items ≡ out.old.items ++ run_ids cuboid) }
    ensures memory { IsOkUnless result Fault.Memory }
{
    push_numbers(out, run_id(cuboid.view, 0), u32::from(cuboid.runs))
}
