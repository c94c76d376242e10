//! The numbers of a warehouse.
ghost use Rattle.warehouse_jobs.specs.Reporting.{Tells};
ghost use Rattle.warehouse.specs.Session.{ForItsWarehouse};

use crate::printing::write_status;
use cube_model::Fault;
use sector_device::Sectors;
use std::io::Write;
use warehouse::Session;

/// Writes the numbers of a warehouse, a line each.
pub(crate) fn tell<D: Sectors, W: Write>(session: &Session<D>, out: &mut W) -> Result<(), Fault>
    ensures { ForItsWarehouse D.Sectors session.now session.now
        (λ w. Tells D.Sectors w session.now session.now (W.contents out.old) (W.contents out.new) result) }
{
    let status = session.status()?;
    write_status(out, &status)
}
