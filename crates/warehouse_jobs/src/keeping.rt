//! Keeping stored cuboids up to date, and auditing them.
ghost use Rattle.std.specs.Prelude.{◌↔◌, All, IsTrue, IfOk};
ghost use Rattle.std.specs.Io.KnownBytes.{Appends};
ghost use Rattle.warehouse_objects.specs.Warehouse.{Warehouse};
ghost use Rattle.stored_cuboids.specs.Merged.{IsSound};
ghost use Rattle.warehouse.specs.Session.{ForItsWarehouse, KeptBefore, device_of};
ghost use Rattle.warehouse.specs.Upkeep.{IsLaidAt};
ghost use Rattle.warehouse_jobs.specs.Cuboids.{Audits, KeepsUp};
ghost use Rattle.warehouse_jobs.specs.Printed.{audit_text};

use crate::printing::{write_audit, write_upkeep};
use cube_model::Fault;
use sector_device::Sectors;
use std::alloc::Global;
use std::io::Write;
use warehouse::Session;

/// Brings each stored cuboid to all batches, and writes that it is done.
pub(crate) fn keep_up<D: Sectors, W: Write>(
    alloc: Global,
    session: &mut Session<D>,
    out: &mut W,
) -> Result<(), Fault>
    ensures keeps { ForItsWarehouse D.Sectors session.old session.new
        (λ w. KeepsUp D.Sectors w session.old session.new (W.contents out.old) (W.contents out.new) result) }
    ensures word { KeptBefore D.Sectors session.old session.new }
{
    session.upkeep(alloc)?;
    write_upkeep(out)
}

/// Writes whether each stored cuboid is what it is to be, and answers it.
pub(crate) fn audit<D: Sectors, W: Write>(
    alloc: Global,
    session: &mut Session<D>,
    out: &mut W,
) -> Result<bool, Fault>
    ensures audits { ForItsWarehouse D.Sectors session.old session.new
        (λ w. Audits D.Sectors w session.old session.new (W.contents out.old) (W.contents out.new) result) }
    ensures laid { IfOk result (λ yes. (w : Warehouse) → IsLaidAt D.Sectors session.old w
        → D.keeps_word (device_of session.new)
        → IsTrue yes ↔ All (IsSound w) w.cuboids) }
    ensures text { IfOk result (λ yes. Appends (W.contents out.old) (W.contents out.new) (audit_text yes)) }
    ensures word { KeptBefore D.Sectors session.old session.new }
{
    let yes = session.audit(alloc)?;
    write_audit(out, yes)?;
    Ok(yes)
}
