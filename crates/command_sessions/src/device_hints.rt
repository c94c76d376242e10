//! What is wrong with the file of a warehouse.
use crate::contents::{Contents, contents_of};
use crate::device::path_of;
use clap::ArgMatches;
use command_files::system::System;
use cube_model::Fault;
use std::alloc::Global;
use std::{fs, io};

/// The bytes of a sector.
const SECTOR: u64 = 512;

/// What is known of a refusal of the file of a warehouse, as one line without its end. The file may have been to be
/// made with so many sectors.
pub fn device_hint(
    rt: &System,
    given: &ArgMatches<'_>,
    fault: Fault,
    sectors: Option<u32>,
) -> Result<Option<String>, Fault> {
    if let Some(file) = swapped_file(rt, given, fault) {
        let path = path_of(given);
        let said = format!(in rt.alloc();
            "{path}: not a warehouse, and {file} is one: are DEV and FILE swapped?"
        )?;
        return Ok(Some(said));
    }
    match fault {
        Fault::DeviceSize => size_hint(rt, given, sectors),
        Fault::Full => dimensions_hint(rt.alloc(), given, sectors),
        Fault::NotFormatted => said(rt.alloc(), given, missing(rt, given)),
        Fault::AlreadyFormatted => present_hint(rt, given),
        Fault::BadLayout => said(
            rt.alloc(),
            given,
            "its bytes are no warehouse; did another program write there?",
        ),
        _ => Ok(None),
    }
}

fn said(alloc: Global, given: &ArgMatches<'_>, what: &str) -> Result<Option<String>, Fault> {
    let said = format!(in alloc; "{}: {what}", path_of(given))?;
    Ok(Some(said))
}

// The table file of a load, where that is a warehouse and its device is none.
fn swapped_file<'w>(rt: &System, given: &ArgMatches<'w>, fault: Fault) -> Option<&'w str> {
    let file = given.get_str("lineorder")?;
    let is_none = fault == Fault::DeviceSize || fault == Fault::NotFormatted;
    if is_none && contents_of(rt, file) == Contents::Warehouse {
        Some(file)
    } else {
        None
    }
}

// What is said of a file without a valid superblock.
fn missing(rt: &System, given: &ArgMatches<'_>) -> &'static str {
    if contents_of(rt, path_of(given)) == Contents::Nothing {
        "no warehouse is there; ssbcube create makes one"
    } else {
        "not a warehouse, or its first two sectors are damaged"
    }
}

// What is said of a file in which `create` makes no warehouse.
fn present_hint(rt: &System, given: &ArgMatches<'_>) -> Result<Option<String>, Fault> {
    let path = path_of(given);
    if contents_of(rt, path) == Contents::Warehouse {
        return said(
            rt.alloc(),
            given,
            "a warehouse is there already; name another file",
        );
    }
    let hint = format!(in rt.alloc();
        "{path}: not empty, and its first sectors are not those of a warehouse; --overwrite replaces it"
    )?;
    Ok(Some(hint))
}

/// Why a call of the file failed, where the system said so.
pub fn failure_hint(
    rt: &System,
    given: &ArgMatches<'_>,
    failure: Option<io::Error>,
) -> Result<Option<String>, Fault> {
    let path = path_of(given);
    let said = match failure {
        Some(error) => format!(in rt.alloc(); "{path}: {error}")?,
        None => format!(in rt.alloc(); "{path}: the system refused a call for it")?,
    };
    Ok(Some(said))
}

fn size_hint(
    rt: &System,
    given: &ArgMatches<'_>,
    sectors: Option<u32>,
) -> Result<Option<String>, Fault> {
    let path = path_of(given);
    match sectors {
        Some(sectors) => wanted_hint(rt, path, sectors),
        None => found_hint(rt.alloc(), path, length_of(rt, path)),
    }
}

fn length_of(rt: &System, path: &str) -> u64 {
    match fs::metadata(rt, path) {
        Ok(metadata) => metadata.len(),
        Err(_) => 0,
    }
}

/// Why a file cannot be a warehouse of so many sectors.
pub fn wanted_hint(rt: &System, path: &str, sectors: u32) -> Result<Option<String>, Fault> {
    let alloc = rt.alloc();
    let bytes = length_of(rt, path);
    let wanted = u64::from(sectors) * SECTOR;
    let said = if file_device::sectors_of(wanted).is_err() {
        format!(in alloc; "--sectors {sectors}: a warehouse has 64 to 4294967295 sectors")?
    } else {
        format!(in alloc;
            "{path}: has {bytes} bytes, and {sectors} sectors have {wanted}; name another file"
        )?
    };
    Ok(Some(said))
}

fn found_hint(alloc: Global, path: &str, bytes: u64) -> Result<Option<String>, Fault> {
    let said = if file_device::sectors_of(bytes).is_err() {
        format!(in alloc;
            "{path}: not a warehouse: its {bytes} bytes are fewer than 32768 or not a multiple of 512"
        )?
    } else {
        format!(in alloc; "{path}: {bytes} bytes are fewer or more than it was created with")?
    };
    Ok(Some(said))
}

// What is said of a file that is too small for the dimension tables.
fn dimensions_hint(
    alloc: Global,
    given: &ArgMatches<'_>,
    sectors: Option<u32>,
) -> Result<Option<String>, Fault> {
    let Some(sectors) = sectors else {
        return Ok(None);
    };
    let path = path_of(given);
    let said = format!(in alloc;
        "{path}: {sectors} sectors have no room for the dimension tables"
    )?;
    Ok(Some(said))
}
