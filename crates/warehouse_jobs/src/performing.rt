//! A job on an open warehouse.
ghost use Rattle.std.specs.Prelude.{◌≡◌, ◌↔◌, true, All, Ok, Err, IfOk, IsTrue, MatchResult};
ghost use Rattle.std.specs.Io.KnownBytes.{Appends};
ghost use Rattle.cube_model.specs.declared.fault.Fault.TheVariants.{Failed};
ghost use Rattle.warehouse_objects.specs.Warehouse.{Warehouse};
ghost use Rattle.warehouse.specs.Session.{ForItsWarehouse, KeptBefore, device_of};
ghost use Rattle.stored_cuboids.specs.Merged.{IsSound};
ghost use Rattle.warehouse.specs.Upkeep.{IsLaidAt};
ghost use Rattle.warehouse_jobs.specs.Jobs.{MayAnswerNo, Performs};
ghost use Rattle.warehouse_jobs.specs.Printed.{audit_text};
ghost use Rattle.warehouse_jobs.specs.Failing.{FailsAtOnce};

use crate::choosing::{choose, choose_for};
use crate::job::Job;
use crate::keeping::{audit, keep_up};
use crate::loading::load_from;
use crate::migrating::migrate;
use crate::reporting::report;
use crate::telling::tell;
use cube_model::Fault;
use sector_device::Sectors;
use std::alloc::Global;
use std::io::{Read, Write};
use warehouse::Session;

/// Does a job, and says whether the answer is yes. That of any job but an audit is always yes.
///
/// A load reads fact rows from `lineorder`; no other job does. The first refusal ends it, and batches before it stay.
/// For each batch it writes a line, `batch 1 rows 3` or `batch 1 skipped`, and flushes it, once the batch is on the
/// device and not before; at the end `batches 1`, the number of batches in the warehouse. A batch whose number is there
/// is skipped where the stored batch has exactly its rows, in the same order, and is `Repeated` where it has others.
/// Lines are counted in the whole file. It keeps the columns of one batch in memory.
///
/// A report is written as `ssb_reports` does. A status is a line each of `batches`, `rows`, `target` and `generation`,
/// and then one for each stored cuboid, `cuboid 59 mark 1 runs 1 cells 2`. A choice is a line for each view, in the
/// order of choice, `view 59 city|ALL|mfgr|ALL benefit 8`. Upkeep writes `upkeep done`, an audit `audit yes` or `audit
/// no`, a move to the second layout `layout 2`.
pub fn perform<D: Sectors, R: Read + Drop, W: Write>(
    alloc: Global,
    session: &mut Session<D>,
    job: Job,
    lineorder: R,
    out: &mut W,
) -> Result<bool, Fault>
    // What is written, what the warehouse is then, and what a crash at any point until then leaves. Whatever the reader
    // is: which rows the batches of a load have is said where its bytes are known.
    ensures performs { ForItsWarehouse D.Sectors session.old session.new
        (λ w. Performs D.Sectors w (R.remaining lineorder) job session.old session.new (W.contents out.old)
        (W.contents out.new) result) }
    ensures yes { (MayAnswerNo job → ⊥) → IfOk result (λ answer. answer ≡ true) }

    // That of an audit is yes exactly where each stored cuboid is what it is to be, whatever its cells are.
    ensures sound { MayAnswerNo job
        → IfOk result (λ answer. (w : Warehouse) → IsLaidAt D.Sectors session.old w
        → D.keeps_word (device_of session.new)
        → IsTrue answer ↔ All (IsSound w) w.cuboids) }
    ensures printed { MayAnswerNo job
        → IfOk result (λ answer. Appends (W.contents out.old) (W.contents out.new) (audit_text answer)) }

    // Where the device failed in an earlier call, nothing is done.
    ensures failed { FailsAtOnce D.Sectors session.old session.new (W.contents out.old) (W.contents out.new) result }
    ensures word { KeptBefore D.Sectors session.old session.new }
{
    if session.is_broken() {
        return Err(Fault::Failed);
    }
    match job {
        Job::Load { first, rows } => yes(load_from(alloc, session, first, rows, lineorder, out)),
        Job::Report { as_of, query } => yes(report(alloc, session, as_of, &query, out)),
        Job::Status => yes(tell(session, out)),
        Job::Choose(k) => yes(choose(alloc, session, k, out)),
        Job::ChooseFor { k, demanded } => {
            yes(choose_for(alloc, session, k, demanded.as_slice(), out))
        }
        Job::Upkeep => yes(keep_up(alloc, session, out)),
        Job::Audit => audit(alloc, session, out),
        Job::Migrate => yes(migrate(alloc, session, out)),
    }
}

// The answer of a job that has no other.
fn yes(done: Result<(), Fault>) -> Result<bool, Fault>
    ensures { MatchResult done (λ _. result ≡ Ok true) (λ fault. result ≡ Err fault) }
{
    done?;
    Ok(true)
}
