//! The answer to a query that may look at ship modes, over the first batches of a warehouse.
ghost use Rattle.std.specs.Prelude.{◌≡◌, IfOk, IsErrOf};
ghost use Rattle.planned_queries.specs.ModeAnswers.{moded_answer_as_of};
ghost use Rattle.mode_queries.specs.Proper.{IsProperByModes};
ghost use Rattle.warehouse.specs.ByModes.{IsAskedByModes};
ghost use Rattle.warehouse.specs.Reads.{OnlyReads, RefusesQuery};
ghost use Rattle.warehouse.specs.Session.{ForItsWarehouse};

use crate::reported::Reported;
use cube_model::Fault;
use mode_queries::ModeQuery;
use sector_device::Sectors;
use std::alloc::Global;
use warehouse::Session;

/// The answer to a query that may look at ship modes, over the first `as_of` batches of a warehouse, of whose lines
/// none is made before they are asked for. It is answered by the plan that reads least: where the query looks at ship
/// modes, of those over the cuboids that group by them.
///
/// `BadQuery` exactly where the query is not proper, else `NoSuchPrefix` exactly where there are fewer batches. It can
/// also fail when out of memory, and where the device fails. `Failed` where the session failed before.
pub fn answered<D: Sectors>(
    alloc: Global,
    session: &mut Session<D>,
    as_of: u32,
    asked: &ModeQuery,
) -> Result<Reported, Fault>
    // It only reads: the warehouse stays as it is, at each moment, and after a failure nothing is done.
    ensures reads { OnlyReads D.Sectors (IsErrOf result) session.old session.new }

    // The answer is the definition's.
    ensures answer { IfOk result
        (λ found. ForItsWarehouse D.Sectors session.old session.new
        (λ w. IsAskedByModes w as_of asked.now × (found ≡ moded_answer_as_of asked.now as_of w.rows w.batches))) }

    // When each error comes.
    ensures refused { RefusesQuery D.Sectors (IsProperByModes asked.now) as_of (IsErrOf result) session.old
        session.new }
{
    match asked.plain() {
        Some(query) => match session.query_groups(alloc, as_of, query) {
            Ok(found) => Ok(Reported::without_modes(found)),
            Err(fault) => Err(fault),
        },
        None => match session.moded_groups(alloc, as_of, asked) {
            Ok(found) => Ok(Reported::by_modes(found)),
            Err(fault) => Err(fault),
        },
    }
}
