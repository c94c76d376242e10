//! The file of a warehouse.
use crate::contents::{Contents, contents_of};
use crate::course::{Meter, Watch, take_back};
use crate::explaining::Met;
use crate::unfinished::is_unfinished;
use clap::ArgMatches;
use command_files::system::System;
use cube_model::Fault;
use dimensions::Dims;
use file_device::{Existing, FileDisk, Host, Made, OpenError, Unread};
use sector_cache::Cached;
use sector_device::Sectors;
use std::fs::{self, File};
use std::io::{self, ErrorKind};
use warehouse::{Layout, Session};
use watched_device::Watched;

/// The device of a warehouse: a file of which a meter sees the calls, with a cache.
pub type Device<'r> = Cached<Watched<FileDisk<Host<File>, Unread>, Meter<'r>>>;

/// The sectors that the cache has room for, 512 KiB.
const CACHED_SECTORS: u32 = 1024;

/// What a command does with the file of its warehouse.
#[derive(Clone, Copy)]
pub enum Access {
    /// It reads and writes it, with a lock against all other programs.
    Commit,
    /// It reads it, with a lock against programs that write it. Before that it finishes an upkeep that was cut off,
    /// where it can.
    Read,
}

/// Makes a warehouse of a layout without batches in a file, which is made where it is absent. At a refusal such a file
/// is removed again, if nothing was committed in it.
pub fn create(
    rt: &System,
    path: &str,
    sectors: u32,
    existing: Existing,
    dims: Dims,
    layout: Layout,
) -> Result<(), Met> {
    let (device, is_new) = made(rt, path, sectors, existing, None)?;
    match warehouse::create_as(rt.alloc(), device, dims, layout) {
        Ok(_session) => {
            keep_name(rt, path);
            Ok(())
        }
        Err((fault, device)) => {
            remove_new(rt, path, is_new);
            Err(met_by(fault, &device))
        }
    }
}

/// Makes a copy of a warehouse in a file, which is made where it is absent, and gives how many batches it has. At a
/// refusal a file that was made is removed again. Where the command is watched, so is what is read of the copy.
pub fn copy<D: Sectors + InFile>(
    rt: &System,
    from: &mut Session<D>,
    path: &str,
    sectors: u32,
    watch: Watch<'_>,
) -> Result<u32, Met> {
    let (device, is_new) = made(rt, path, sectors, Existing::Blank, watch)?;
    match warehouse_jobs::copy(rt.alloc(), from, device) {
        Ok(copy) => {
            keep_name(rt, path);
            Ok(copy.status()?.batches)
        }
        Err((fault, device)) => {
            if is_new {
                let _removed = fs::remove_file(rt, path);
            }
            Err(met_by(fault, &device))
        }
    }
}

// The device of a file that is made where it is absent, and whether it was. Where there is no memory for it the file is
// removed again.
fn made<'r>(
    rt: &'r System,
    path: &str,
    sectors: u32,
    existing: Existing,
    watch: Watch<'r>,
) -> Result<(Device<'r>, bool), Met> {
    let Made { disk, is_new } = FileDisk::make(rt, path, sectors, existing)?;
    let disk = Watched::new(disk, Meter::new(rt, watch));
    match Cached::new(rt.alloc(), disk, CACHED_SECTORS) {
        Ok(device) => Ok((device, is_new)),
        Err((fault, _locked)) => {
            remove_new(rt, path, is_new);
            Err(Met::from(fault))
        }
    }
}

// Removes a file that is new and in which nothing was committed. Its lock is still held.
fn remove_new(rt: &System, path: &str, is_new: bool) {
    if is_new && contents_of(rt, path) == Contents::Nothing {
        let _removed = fs::remove_file(rt, path);
    }
}

// Has the folder of a file keep its name on the disk, where the system can: a sync of a file need not keep its name.
fn keep_name(rt: &System, path: &str) {
    let folder = match path.rsplit_once('/') {
        None => ".",
        Some((folder, _)) if folder.is_empty() => "/",
        Some((folder, _)) => folder,
    };
    if let Ok(folder) = fs::open(rt, folder) {
        let _kept = folder.sync_all();
    }
}

/// Opens the warehouse in the file of a command.
pub fn open<'r>(
    rt: &'r System,
    given: &ArgMatches<'_>,
    access: Access,
) -> Result<Session<Device<'r>>, Met> {
    open_watched(rt, given, access, None)
}

/// Opens the warehouse in the file of a command that may be watched.
pub fn open_watched<'r>(
    rt: &'r System,
    given: &ArgMatches<'_>,
    access: Access,
    watch: Watch<'r>,
) -> Result<Session<Device<'r>>, Met> {
    let opened = match access {
        Access::Commit => open_to_commit(rt, path_of(given), watch),
        Access::Read => open_finished(rt, path_of(given), watch),
    };
    take_back(rt, watch);
    opened
}

// Opens the warehouse in a file for reading. Where an upkeep was cut off, it is finished first, if the file can be
// written and no other program has it open. Otherwise the warehouse is opened as it is.
fn open_finished<'r>(
    rt: &'r System,
    path: &str,
    watch: Watch<'r>,
) -> Result<Session<Device<'r>>, Met> {
    let session = open_to_read(rt, path, watch)?;
    if !is_unfinished(&session) {
        return Ok(session);
    }
    // Its lock keeps the file from being opened for writing.
    drop(session);
    match open_to_commit(rt, path, watch) {
        Ok(finished) => Ok(finished),
        Err(_) => open_to_read(rt, path, watch),
    }
}

// Opens the warehouse in a file for reading and writing. No other program may have it open.
fn open_to_commit<'r>(
    rt: &'r System,
    path: &str,
    watch: Watch<'r>,
) -> Result<Session<Device<'r>>, Met> {
    let disk = FileDisk::open(rt, path)?;
    session_on(rt, disk, Access::Commit, watch)
}

// Opens the warehouse in a file for reading alone. No other program may have it open for writing.
fn open_to_read<'r>(
    rt: &'r System,
    path: &str,
    watch: Watch<'r>,
) -> Result<Session<Device<'r>>, Met> {
    let disk = FileDisk::open_to_read(rt, path)?;
    session_on(rt, disk, Access::Read, watch)
}

// Opens the warehouse on a disk, with a cache. Where it is only read, an upkeep that was cut off stays so.
fn session_on<'r>(
    rt: &'r System,
    disk: FileDisk<Host<File>, Unread>,
    access: Access,
    watch: Watch<'r>,
) -> Result<Session<Device<'r>>, Met> {
    let disk = Watched::new(disk, Meter::new(rt, watch));
    let device = match Cached::new(rt.alloc(), disk, CACHED_SECTORS) {
        Ok(device) => device,
        Err((fault, _)) => return Err(Met::from(fault)),
    };
    let opened = match access {
        Access::Commit => warehouse::open(rt.alloc(), device),
        Access::Read => warehouse::open_as_is(rt.alloc(), device),
    };
    match opened {
        Ok(session) => Ok(session),
        Err((fault, device)) => Err(met_by(fault, &device)),
    }
}

/// A device that is in a file of the system.
pub trait InFile {
    /// What the system said of the last call of the file that failed.
    fn failure(&self) -> Option<io::Error>;
}

impl InFile for Device<'_> {
    fn failure(&self) -> Option<io::Error> {
        self.device().device().file().failure()
    }
}

/// A fault, with what the system said of the file last.
pub fn met_by<D: InFile>(fault: Fault, device: &D) -> Met {
    Met {
        failure: device.failure(),
        ..Met::from(fault)
    }
}

impl From<OpenError> for Met {
    fn from(error: OpenError) -> Met {
        Met {
            failure: failure_of(error),
            ..Met::from(Fault::from(error))
        }
    }
}

// What is said of a file that was not opened.
fn failure_of(error: OpenError) -> Option<io::Error> {
    match error {
        OpenError::System(error) => Some(error),
        OpenError::Locked => Some(io::Error::new(
            ErrorKind::WouldBlock,
            "another program has it open",
        )),
        OpenError::NotRegular => Some(io::Error::new(
            ErrorKind::InvalidInput,
            "not a regular file",
        )),
        OpenError::Length => None,
        OpenError::NotBlank => None,
    }
}

/// The file of the warehouse.
pub fn path_of<'w>(given: &ArgMatches<'w>) -> &'w str {
    match given.get_str("device") {
        Some(path) => path,
        None => "",
    }
}
