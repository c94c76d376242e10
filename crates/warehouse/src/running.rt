//! A list of commands, done one after the other.
ghost use Rattle.std.specs.Prelude.{◌≡◌, true, IfOk, IfErr};
ghost use Rattle.cube_model.specs.declared.fault.Fault.TheVariants.{Memory};
ghost use Rattle.object_store.specs.Disk.{Leaves};
ghost use Rattle.warehouse_objects.specs.Warehouse.{Warehouse};
ghost use Rattle.warehouse.specs.Session.{ForItsWarehouse, IsAt, KeptBefore, device_of, disk_of, has_failed};
ghost use Rattle.warehouse.specs.declared.command.Command.TheVariants as asks;
ghost use Rattle.warehouse.specs.Running.{Phase, Slots, at, broken, Does, IsInPhase, Ran, RanAll, FoundIn};
ghost use Rattle.warehouse.specs.Slots.{AreOf, AreRunning, DoesWith};

use crate::command::{Command, Reply};
use crate::new_rows::NewRows;
use crate::query_slots::{MOST_RUNNING, QuerySlots};
use crate::session::Session;
use crate::stepping::Stepped;
use cube_model::{Fault, Items, LineOrder, Query};
use sector_device::Sectors;
use std::alloc::Global;

/// Does commands in order. The replies are those of the plain model, and while a command runs a crash leaves what that
/// command may leave. Up to sixteen queries run step by step between the other commands, each in a slot: all slots are
/// empty where the run begins, and what runs at its end is dropped. `NotRunning` is refused above the last slot, and at
/// a step of an empty one. Room for the replies is taken first: `Memory` comes before any command is done.
pub fn run<D: Sectors>(
    alloc: Global,
    session: &mut Session<D>,
    commands: &[Command],
) -> Result<Vec<Reply>, Fault>
    ensures ran { IfOk result
        (λ replies. ForItsWarehouse D.Sectors session.old session.new
        (λ w. (after : Phase) × RanAll D.Sectors session.old (at w) commands.now replies.items session.new after
        × IsInPhase D.Sectors session.new after)) }

    // At each moment a crash leaves what the commands before had made, or what one more may have made.
    ensures found { IfOk result
        (λ replies. ForItsWarehouse D.Sectors session.old session.new
        (λ w. Leaves (disk_of D.Sectors session.old) (disk_of D.Sectors session.new)
        (FoundIn w commands.now replies.items))) }
    ensures memory { IfErr result (λ fault. (fault ≡ Memory) × (session.new ≡ session.old)) }

    // On a session that had failed nothing is done, and each command is refused.
    ensures failed { IfOk result (λ replies. has_failed session.old ≡ true
        → RanAll D.Sectors session.old broken commands.now replies.items session.new broken) }
{
    let mut slots = match QuerySlots::new(alloc) {
        Ok(slots) => slots,
        Err(fault) => return Err(fault),
    };
    let mut replies = match Vec::with_capacity(alloc, commands.len()) {
        Ok(replies) => replies,
        Err(_) => return Err(Fault::Memory),
    };
    for command in commands {
        let reply = perform(alloc, session, &mut slots, command);
        let _ = replies.push(reply);
    }
    Ok(replies)
}

// Does one command.
fn perform<D: Sectors>(
    alloc: Global,
    session: &mut Session<D>,
    slots: &mut QuerySlots,
    command: &Command,
) -> Reply
    ensures word { KeptBefore D.Sectors session.old session.new }
    ensures ran { (w : Warehouse) (started : Slots) → IsAt D.Sectors session.old w
        → AreRunning slots.old.queries.items started → AreOf w started
        → D.keeps_word (device_of session.new)
        → DoesWith D.Sectors session.old w started command.now result session.new slots.new.queries.items }
    ensures broken { has_failed session.old ≡ true
        → Ran D.Sectors session.old broken command.now result session.new broken }
{
    if session.is_broken() {
        return Reply::Refused(Fault::Failed);
    }
    match command {
        Command::Submit(number, rows) => submit(alloc, session, *number, rows),
        Command::Query(as_of, query) => answer(alloc, session, *as_of, query),
        Command::Status => status(session),
        Command::Choose(k) => choose(alloc, session, *k),
        Command::Upkeep => keep_up(alloc, session),
        Command::Audit => audit(alloc, session),
        Command::Add(number, rows) => add(alloc, session, *number, rows),
        Command::Migrate => migrate(alloc, session),
        Command::Start(slot, as_of, query) => start(alloc, session, slots, *slot, *as_of, query),
        Command::Step(slot) => step(alloc, session, slots, *slot),
    }
}

// Adds a batch.
fn submit<D: Sectors>(
    alloc: Global,
    session: &mut Session<D>,
    number: u32,
    rows: &Items<LineOrder>,
) -> Reply
    ensures word { KeptBefore D.Sectors session.old session.new }
    ensures ran { (w : Warehouse) (started : Slots) → IsAt D.Sectors session.old w
        → D.keeps_word (device_of session.new)
        → Does D.Sectors session.old w started (asks.Submit number rows.now) result session.new }
{
    match session.submit(alloc, number, rows.as_slice()) {
        Ok(()) => Reply::Done,
        Err(fault) => Reply::Refused(fault),
    }
}

// Answers a query over the first batches.
fn answer<D: Sectors>(alloc: Global, session: &mut Session<D>, as_of: u32, query: &Query) -> Reply
    ensures word { KeptBefore D.Sectors session.old session.new }
    ensures ran { (w : Warehouse) (started : Slots) → IsAt D.Sectors session.old w
        → D.keeps_word (device_of session.new)
        → Does D.Sectors session.old w started (asks.Query as_of query.now) result session.new }
{
    match session.query(alloc, as_of, query) {
        Ok(found) => Reply::Answer(found),
        Err(fault) => Reply::Refused(fault),
    }
}

// Says the numbers of the warehouse.
fn status<D: Sectors>(session: &mut Session<D>) -> Reply
    ensures word { KeptBefore D.Sectors session.old session.new }
    ensures ran { (w : Warehouse) (started : Slots) → IsAt D.Sectors session.old w
        → D.keeps_word (device_of session.new) → Does D.Sectors session.old w started asks.Status result session.new }
{
    match session.status() {
        Ok(numbers) => Reply::Numbers(numbers),
        Err(fault) => Reply::Refused(fault),
    }
}

// Stores the cuboids of a choice.
fn choose<D: Sectors>(alloc: Global, session: &mut Session<D>, k: u8) -> Reply
    ensures word { KeptBefore D.Sectors session.old session.new }
    ensures ran { (w : Warehouse) (started : Slots) → IsAt D.Sectors session.old w
        → D.keeps_word (device_of session.new)
        → Does D.Sectors session.old w started (asks.Choose k) result session.new }
{
    match session.choose(alloc, k) {
        Ok(chosen) => Reply::Chosen(Items::from_vec(chosen)),
        Err(fault) => Reply::Refused(fault),
    }
}

// Brings each stored cuboid to all batches.
fn keep_up<D: Sectors>(alloc: Global, session: &mut Session<D>) -> Reply
    ensures word { KeptBefore D.Sectors session.old session.new }
    ensures ran { (w : Warehouse) (started : Slots) → IsAt D.Sectors session.old w
        → D.keeps_word (device_of session.new) → Does D.Sectors session.old w started asks.Upkeep result session.new }
{
    match session.upkeep(alloc) {
        Ok(()) => Reply::Done,
        Err(fault) => Reply::Refused(fault),
    }
}

// Says whether each stored cuboid is what it is to be.
fn audit<D: Sectors>(alloc: Global, session: &mut Session<D>) -> Reply
    ensures word { KeptBefore D.Sectors session.old session.new }
    ensures ran { (w : Warehouse) (started : Slots) → IsAt D.Sectors session.old w
        → D.keeps_word (device_of session.new) → Does D.Sectors session.old w started asks.Audit result session.new }
{
    match session.audit(alloc) {
        Ok(yes) => Reply::Audited(yes),
        Err(fault) => Reply::Refused(fault),
    }
}

// Adds rows to the dimensions.
fn add<D: Sectors>(alloc: Global, session: &mut Session<D>, number: u32, rows: &NewRows) -> Reply
    ensures word { KeptBefore D.Sectors session.old session.new }
    ensures ran { (w : Warehouse) (started : Slots) → IsAt D.Sectors session.old w
        → D.keeps_word (device_of session.new)
        → Does D.Sectors session.old w started (asks.Add number rows.now) result session.new }
{
    match session.add(alloc, number, rows.rows()) {
        Ok(()) => Reply::Done,
        Err(fault) => Reply::Refused(fault),
    }
}

// Moves the warehouse to the second layout.
fn migrate<D: Sectors>(alloc: Global, session: &mut Session<D>) -> Reply
    ensures word { KeptBefore D.Sectors session.old session.new }
    ensures ran { (w : Warehouse) (started : Slots) → IsAt D.Sectors session.old w
        → D.keeps_word (device_of session.new) → Does D.Sectors session.old w started asks.Migrate result session.new }
{
    match session.migrate(alloc) {
        Ok(()) => Reply::Done,
        Err(fault) => Reply::Refused(fault),
    }
}

// Starts a query in a slot.
fn start<D: Sectors>(
    alloc: Global,
    session: &mut Session<D>,
    slots: &mut QuerySlots,
    slot: u8,
    as_of: u32,
    query: &Query,
) -> Reply
    ensures word { KeptBefore D.Sectors session.old session.new }
    ensures ran { (w : Warehouse) (started : Slots) → IsAt D.Sectors session.old w
        → AreRunning slots.old.queries.items started → AreOf w started
        → D.keeps_word (device_of session.new)
        → DoesWith D.Sectors session.old w started (asks.Start slot as_of query.now) result session.new
        slots.new.queries.items }
{
    if usize::from(slot) >= MOST_RUNNING {
        return Reply::Refused(Fault::NotRunning);
    }
    match session.start(alloc, as_of, query) {
        Ok(running) => {
            slots.put(slot, running);
            Reply::Done
        }
        Err(fault) => Reply::Refused(fault),
    }
}

// Makes the next step of the query in a slot.
fn step<D: Sectors>(
    alloc: Global,
    session: &mut Session<D>,
    slots: &mut QuerySlots,
    slot: u8,
) -> Reply
    ensures word { KeptBefore D.Sectors session.old session.new }
    ensures ran { (w : Warehouse) (started : Slots) → IsAt D.Sectors session.old w
        → AreRunning slots.old.queries.items started → AreOf w started
        → D.keeps_word (device_of session.new)
        → DoesWith D.Sectors session.old w started (asks.Step slot) result session.new slots.new.queries.items }
{
    let Some(running) = slots.take(slot) else {
        return Reply::Refused(Fault::NotRunning);
    };
    match session.step(alloc, running) {
        Stepped::More(running) => {
            slots.put(slot, running);
            Reply::More
        }
        Stepped::Done(found) => Reply::Answer(found),
        Stepped::Refused(back, fault) => {
            slots.put(slot, back);
            Reply::Refused(fault)
        }
    }
}
