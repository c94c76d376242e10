//! Laws of loads: each function proves the statement that its contract names, and does nothing. They hold whatever a
//! load returns where it succeeds, so of `load` and of `perform`.
ghost use Rattle.warehouse_jobs.specs.Lawful.{LoadAddsTheOthers, LoadHoldsItsBatches, LoadedIsEvaluated};
ghost use Rattle.warehouse_jobs.specs.Lawful.{CrashedLoadIsFound};

use sector_device::Sectors;
use warehouse::laws::restarted_shows;

/// A load whose first batch is there, or is the next one, adds just those of its batches that are not there.
pub fn load_adds_the_others()
    ensures { LoadAddsTheOthers }
{}

/// Each batch that a load did is then the batch of its number, row by row.
pub fn load_holds_its_batches<D: Sectors, A>()
    ensures { LoadHoldsItsBatches A D.Sectors }
{}

/// However a load crashes after some of its lines were written: the restarted device has the batches of these lines,
/// and by its contract opening finds them.
pub fn crashed_load_is_found<D: Sectors, A>()
    ensures { CrashedLoadIsFound A D.Sectors }
{
    restarted_shows::<D>();
}

/// What is reported over a text that was loaded whole is what is evaluated over it, where the warehouse is of layout 2
/// or may move to it: an evaluation refuses the ship modes that layout 2 refuses.
pub fn loaded_is_evaluated<D: Sectors, A>()
    ensures { LoadedIsEvaluated A D.Sectors }
{}
