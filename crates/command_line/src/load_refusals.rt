//! What is said of a refusal of a load.
use crate::load::LoadPlan;
use batch_loader::Table;
use clap::ArgMatches;
use command_files::batch_hints::{StoredBatch, number_hint, refused_mode, repeated_hint};
use command_files::locating::{LineAt, in_line, line_of, located};
use command_files::refusal::Refusal;
use command_files::refused_lines::refused_line;
use command_files::system::System;
use command_files::table_paths::table_name;
use command_files::table_refusals::{key_for, limit_hint};
use command_sessions::device::InFile;
use command_sessions::explaining::{Met, explained};
use command_sessions::job::met_in;
use command_sessions::needs::Needs;
use cube_model::Fault;
use sector_device::Sectors;
use ssb_eval::UnknownKey;
use std::alloc::Global;
use std::io::Read;
use warehouse::Session;
use warehouse_jobs::LoadText;

/// The refusal of a load after so many batches that were done, with what its text kept of it, or else with what the
/// warehouse shows.
pub fn refused<L: Read + Drop, D: Sectors + InFile>(
    rt: &System,
    given: &ArgMatches<'_>,
    plan: &LoadPlan,
    session: &Session<D>,
    text: &LoadText<L>,
    done: u32,
    fault: Fault,
) -> Refusal {
    match hint_of(rt.alloc(), given, plan, session, text, done, fault) {
        Ok(Some(hint)) => Refusal {
            fault,
            hint: Some(hint),
        },
        _ => {
            let met = met_in(rt.alloc(), fault, session);
            let needs = needs_of(plan, met.batches);
            explained(rt, given, Met { needs, ..met })
        }
    }
}

// What a load needs, where the warehouse has so many batches.
fn needs_of(plan: &LoadPlan, batches: Option<u32>) -> Option<Needs> {
    Some(Needs::of(plan.cut, plan.rows?, batches?))
}

// The cause of a refusal of a load, as far as its text or the warehouse shows it.
fn hint_of<D: Sectors, L: Read + Drop>(
    alloc: Global,
    given: &ArgMatches<'_>,
    plan: &LoadPlan,
    session: &Session<D>,
    text: &LoadText<L>,
    done: u32,
    fault: Fault,
) -> Result<Option<String>, Fault> {
    if let Some(line) = line_of(fault) {
        let at = located(alloc, given, plan.counts.as_slice(), line)?;
        let fault = in_line(fault, at.line);
        return refused_line(
            alloc,
            at.path.as_str(),
            Table::Lineorder,
            text.line(),
            fault,
        );
    }
    if let Some(unknown) = key_for(fault, text.unknown()) {
        return unknown_hint(alloc, given, plan, session, unknown);
    }
    if let Some((row, said)) = refused_mode(fault) {
        return mode_hint(alloc, given, plan, done, row, said);
    }
    match fault {
        Fault::Repeated => stored_hint(alloc, given, plan, session, text.rows(), done),
        fault => batch_hint(alloc, given, plan, session, fault),
    }
}

fn unknown_hint<D: Sectors>(
    alloc: Global,
    given: &ArgMatches<'_>,
    plan: &LoadPlan,
    session: &Session<D>,
    unknown: UnknownKey,
) -> Result<Option<String>, Fault> {
    let UnknownKey { axis, key, line } = unknown;
    let batch = session.status()?.batches.saturating_add(1);
    let LineAt { path, line } = located(alloc, given, plan.counts.as_slice(), line)?;
    let said = format!(in alloc;
        "batch {batch}, line {line} of {path}: {axis} {key} is in no {axis} row of the warehouse; ssbcube add adds one"
    )?;
    Ok(Some(said))
}

// The row of a batch that is refused for its ship mode, after so many batches that were done, and what is said of it.
fn mode_hint(
    alloc: Global,
    given: &ArgMatches<'_>,
    plan: &LoadPlan,
    done: u32,
    row: u32,
    said: &str,
) -> Result<Option<String>, Fault> {
    let before = u64::from(done).saturating_mul(u64::from(plan.cut.rows));
    let line = before.saturating_add(u64::from(row));
    let LineAt { path, line } = located(alloc, given, plan.counts.as_slice(), line)?;
    Ok(Some(format!(in alloc; "{path} line {line}: {said}")?))
}

// A batch of so many rows that is not the stored one of its number, after so many that were done.
fn stored_hint<D: Sectors>(
    alloc: Global,
    given: &ArgMatches<'_>,
    plan: &LoadPlan,
    session: &Session<D>,
    rows: u32,
    done: u32,
) -> Result<Option<String>, Fault> {
    let number = plan.cut.first.saturating_add(done);
    let Some(stored) = session.batch_rows(number) else {
        return Ok(None);
    };
    let stored = StoredBatch {
        number,
        rows: stored,
    };
    let path = table_name(alloc, given, Table::Lineorder)?;
    Ok(Some(repeated_hint(alloc, path.as_str(), rows, stored)?))
}

// The number of a batch, or a limit that its rows exceed.
fn batch_hint<D: Sectors>(
    alloc: Global,
    given: &ArgMatches<'_>,
    plan: &LoadPlan,
    session: &Session<D>,
    fault: Fault,
) -> Result<Option<String>, Fault> {
    let said = number_hint(alloc, fault, plan.cut.first, session.status()?.batches)?;
    if said.is_some() {
        return Ok(said);
    }
    let path = table_name(alloc, given, Table::Lineorder)?;
    limit_hint(alloc, path.as_str(), fault)
}
