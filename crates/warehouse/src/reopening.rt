//! What a query answers after a crash.
ghost use Rattle.std.specs.Prelude.{◌≡◌, ◌⊎◌, List, IfOk, IfErr};
ghost use Rattle.cube_model.specs.declared.fault.Fault.TheVariants.{Device, Memory};
ghost use Rattle.cube_model.specs.Answers.{answer_as_of};
ghost use Rattle.warehouse_objects.specs.Warehouse.{Warehouse};
ghost use Rattle.warehouse.specs.declared.command.Command.{Command};
ghost use Rattle.warehouse.specs.declared.command.Reply.{Reply};
ghost use Rattle.warehouse.specs.Headline.{IsCrashed, IsLeftByCrash};
ghost use Rattle.warehouse.specs.Running.{Slots};
ghost use Rattle.warehouse.specs.Session.{IsAsked, QueryRefuses, device_of};

use crate::laws::later_crash_is_found;
use crate::opening::open;
use crate::session::Session;
use cube_model::{Answer, Fault, Query};
use sector_device::Sectors;
use std::alloc::Global;

/// Opens the warehouse on a device and answers a query over its first `as_of` batches. A refusal hands the device back.
///
/// It is `open` and `Session::query`, and what they promise together, from the run before to the answer: however the
/// run crashed, the answer is the definition's over a prefix of the submitted batches that has every acknowledged one.
/// It is refused only when out of memory, where the device fails, and as the query is.
pub fn open_and_query<D: Sectors>(
    alloc: Global,
    device: D,
    as_of: u32,
    query: &Query,
) -> Result<(Session<D>, Answer), (Fault, D)>
    ensures answers { IfOk result
        (λ found. (w v : Warehouse) (slots : Slots) (earlier later : List Command) (replies others : List Reply)
        → IsCrashed D.Sectors w v slots earlier later replies others device → D.keeps_word (device_of found.0)
        → (now : Warehouse) × IsLeftByCrash w earlier later replies others now × IsAsked now as_of query.now
        × (found.1 ≡ answer_as_of query.now as_of now.rows now.batches)) }
    ensures refused { IfErr result
        (λ e. (w v : Warehouse) (slots : Slots) (earlier later : List Command) (replies others : List Reply)
        → IsCrashed D.Sectors w v slots earlier later replies others device → D.keeps_word e.1
        → (e.0 ≡ Memory)
        ⊎ ((e.0 ≡ Device)
        ⊎ ((now : Warehouse) × IsLeftByCrash w earlier later replies others now
        × QueryRefuses now as_of query.now e.0))) }
{
    later_crash_is_found::<D>();
    let mut session = match open(alloc, device) {
        Ok(session) => session,
        Err(e) => return Err(e),
    };
    match session.query(alloc, as_of, query) {
        Ok(answer) => Ok((session, answer)),
        Err(fault) => Err((fault, session.close())),
    }
}
