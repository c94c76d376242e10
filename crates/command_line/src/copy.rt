//! The command `copy`.
use crate::create::unsized_file;
use clap::ArgMatches;
use command_files::refusal::Refusal;
use command_files::screens::Screens;
use command_files::sizes::sectors_in;
use command_files::system::System;
use command_files::texts::print_text;
use command_sessions::contents::{Contents, contents_of};
use command_sessions::course::{Errand, Watch, begin_errand, course_of, take_back};
use command_sessions::device::{self, Access, InFile};
use command_sessions::device_hints::wanted_hint;
use command_sessions::explaining::{Met, explained};
use command_sessions::job::met_in;
use cube_model::Fault;
use sector_device::Sectors;
use warehouse::Session;

/// Copies the warehouse of a command to another file, and says so. It says on a terminal how far it is.
pub fn copy(rt: &System, given: &ArgMatches<'_>, screens: Screens) -> Result<u8, Refusal> {
    let sectors = match given.get_str("sectors") {
        None => None,
        Some(word) => match sectors_in(word) {
            None => return unsized_file(rt, given),
            sectors => sectors,
        },
    };
    let course = course_of(rt, given, screens);
    match device::open_watched(rt, given, Access::Read, course.as_ref()) {
        Ok(mut session) => copy_to_file(rt, given, &mut session, sectors, course.as_ref()),
        Err(met) => Err(explained(rt, given, met)),
    }
}

// Copies an open warehouse to a file of so many sectors, or of as many as it has.
fn copy_to_file<D: Sectors + InFile>(
    rt: &System,
    given: &ArgMatches<'_>,
    session: &mut Session<D>,
    sectors: Option<u32>,
    watch: Watch<'_>,
) -> Result<u8, Refusal> {
    let sectors = sectors.unwrap_or(session.device().count());
    let path = given.get_str("new").unwrap_or("");
    begin_errand(rt, watch, session, Errand::Copy);
    let copied = device::copy(rt, session, path, sectors, watch);
    take_back(rt, watch);
    match copied {
        Ok(batches) => {
            let text = format!(in rt.alloc(); "created {sectors} sectors\nbatches {batches}\n")?;
            print_text(rt, text.as_str())
        }
        Err(met) if session.is_broken() => {
            Err(explained(rt, given, met_in(rt.alloc(), met.fault, session)))
        }
        Err(met) => Err(not_copied(rt, path, sectors, met)),
    }
}

// The refusal of the file of a copy.
fn not_copied(rt: &System, path: &str, sectors: u32, met: Met) -> Refusal {
    let hint = match copy_hint(rt, path, sectors, met) {
        Ok(hint) => hint,
        Err(_) => None,
    };
    Refusal {
        fault: met.fault,
        hint,
    }
}

// Why a file cannot be the copy of a warehouse.
fn copy_hint(rt: &System, path: &str, sectors: u32, met: Met) -> Result<Option<String>, Fault> {
    let why = match (met.fault, met.failure) {
        (Fault::DeviceSize, _) => return wanted_hint(rt, path, sectors),
        (Fault::AlreadyFormatted, _) if contents_of(rt, path) == Contents::Warehouse => {
            "a warehouse is there already; name another file"
        }
        (Fault::AlreadyFormatted, _) => "not blank; name another file",
        (Fault::Full, _) => "too small for the copy; give more sectors with --sectors",
        (_, Some(error)) => return Ok(Some(format!(in rt.alloc(); "{path}: {error}")?)),
        (_, None) => return Ok(None),
    };
    Ok(Some(format!(in rt.alloc(); "{path}: {why}")?))
}
