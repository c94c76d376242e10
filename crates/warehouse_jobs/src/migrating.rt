//! Moving a warehouse to the second layout.
ghost use Rattle.warehouse.specs.Session.{ForItsWarehouse, KeptBefore};
ghost use Rattle.warehouse_jobs.specs.Migrating.{Migrates};

use crate::printing::write_second_layout;
use cube_model::Fault;
use sector_device::Sectors;
use std::alloc::Global;
use std::io::Write;
use warehouse::Session;

/// Moves the warehouse to the second layout, and writes that it is there.
pub(crate) fn migrate<D: Sectors, W: Write>(
    alloc: Global,
    session: &mut Session<D>,
    out: &mut W,
) -> Result<(), Fault>
    ensures migrates { ForItsWarehouse D.Sectors session.old session.new
        (λ w. Migrates D.Sectors w session.old session.new (W.contents out.old) (W.contents out.new) result) }
    ensures word { KeptBefore D.Sectors session.old session.new }
{
    session.migrate(alloc)?;
    write_second_layout(out)
}
