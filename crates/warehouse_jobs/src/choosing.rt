//! Choosing which cuboids are stored.
ghost use Rattle.warehouse.specs.Session.{ForItsWarehouse, KeptBefore};
ghost use Rattle.warehouse_jobs.specs.Cuboids.{Chooses, ChoosesFor};

use crate::printing::write_choice;
use cube_model::Fault;
use lattice::View;
use sector_device::Sectors;
use std::alloc::Global;
use std::io::Write;
use warehouse::Session;

/// Stores the cuboids of the greedy list of k views, and writes a line for each, in the order of choice.
pub(crate) fn choose<D: Sectors, W: Write>(
    alloc: Global,
    session: &mut Session<D>,
    k: u8,
    out: &mut W,
) -> Result<(), Fault>
    ensures chooses { ForItsWarehouse D.Sectors session.old session.new
        (λ w. Chooses D.Sectors w k session.old session.new (W.contents out.old) (W.contents out.new) result) }
    ensures word { KeptBefore D.Sectors session.old session.new }
{
    let chosen = session.choose(alloc, k)?;
    let ship_modes = session.layout().has_ship_modes();
    write_choice(out, ship_modes, chosen.as_slice())
}

/// Stores the cuboids of the greedy list of k views where only some views are asked for, and writes a line for each, in
/// the order of choice.
pub(crate) fn choose_for<D: Sectors, W: Write>(
    alloc: Global,
    session: &mut Session<D>,
    k: u8,
    demanded: &[View],
    out: &mut W,
) -> Result<(), Fault>
    ensures chooses { ForItsWarehouse D.Sectors session.old session.new
        (λ w. ChoosesFor D.Sectors w demanded.now k session.old session.new (W.contents out.old) (W.contents out.new)
        result) }
    ensures word { KeptBefore D.Sectors session.old session.new }
{
    let chosen = session.choose_for(alloc, k, demanded)?;
    let ship_modes = session.layout().has_ship_modes();
    write_choice(out, ship_modes, chosen.as_slice())
}
