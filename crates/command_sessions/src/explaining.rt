//! What the program knows of a refusal by a warehouse.
use crate::device_hints::{device_hint, failure_hint};
use crate::needs::Needs;
use crate::space::{Room, room_hint};
use clap::ArgMatches;
use command_files::refusal::Refusal;
use command_files::system::System;
use cube_model::{Fault, MemberPlace};
use std::alloc::Global;
use std::io;

/// A fault, and what is known where it comes.
#[derive(Clone, Copy)]
pub struct Met {
    pub fault: Fault,
    /// How many batches the warehouse has, where it was opened.
    pub batches: Option<u32>,
    /// Its sectors, where it has too few that are free.
    pub room: Option<Room>,
    /// What a load needs.
    pub needs: Option<Needs>,
    /// What the system said of the warehouse's file.
    pub failure: Option<io::Error>,
    /// How many sectors the warehouse was to be made with.
    pub sectors: Option<u32>,
}

impl From<Fault> for Met {
    fn from(fault: Fault) -> Met {
        Met {
            fault,
            batches: None,
            room: None,
            needs: None,
            failure: None,
            sectors: None,
        }
    }
}

/// A fault of a command with what can be found out of it. Where nothing can be found out nothing is said.
pub fn explained(rt: &System, given: &ArgMatches<'_>, met: Met) -> Refusal {
    let hint = match hint_of(rt, given, met) {
        Ok(hint) => hint,
        Err(_) => None,
    };
    Refusal {
        fault: met.fault,
        hint,
    }
}

fn hint_of(rt: &System, given: &ArgMatches<'_>, met: Met) -> Result<Option<String>, Fault> {
    match met.fault {
        Fault::NoSuchPrefix => prefix_hint(rt.alloc(), given, met.batches),
        Fault::Device => failure_hint(rt, given, met.failure),
        Fault::ReservedMember {
            place: MemberPlace::InStoredBatch { batch, row },
        } => reserved_hint(rt.alloc(), batch, row),
        Fault::TooManyMembers {
            place: MemberPlace::InStoredBatch { batch, row },
        } => crowded_hint(rt.alloc(), batch, row),
        Fault::Full if met.room.is_some() => room_hint(rt.alloc(), given, met.room, met.needs),
        Fault::Full
        | Fault::NotFormatted
        | Fault::AlreadyFormatted
        | Fault::BadLayout
        | Fault::DeviceSize => device_hint(rt, given, met.fault, met.sectors),
        _ => Ok(None),
    }
}

fn prefix_hint(
    alloc: Global,
    given: &ArgMatches<'_>,
    batches: Option<u32>,
) -> Result<Option<String>, Fault> {
    let Some(batches) = batches else {
        return Ok(None);
    };
    let (option, number) = match (given.get_str("as-of"), given.get_str("batch")) {
        (Some(as_of), _) => ("as-of", as_of),
        (None, Some(batch)) => ("batch", batch),
        (None, None) => return Ok(None),
    };
    let said = format!(in alloc; "--{option} {number}: batches in the warehouse: {batches}")?;
    Ok(Some(said))
}

// What is said of a stored row with the ship mode that layout 2 reserves.
fn reserved_hint(alloc: Global, batch: u32, row: u32) -> Result<Option<String>, Fault> {
    let said = format!(in alloc;
        "row {row} of batch {batch} has the ship mode ALL, which layout 2 reserves: it means every ship mode; the layout is still 1"
    )?;
    Ok(Some(said))
}

// What is said of the stored row with which layout 2 would have too many ship modes.
fn crowded_hint(alloc: Global, batch: u32, row: u32) -> Result<Option<String>, Fault> {
    let said = format!(in alloc;
        "row {row} of batch {batch} has the 65536th ship mode, and layout 2 may have 65535; the layout is still 1"
    )?;
    Ok(Some(said))
}
