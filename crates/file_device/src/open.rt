// A device over a file that is named by its path.
ghost use Rattle.std.specs.Prelude.{◌≡◌, ◌⊎◌, ◌<◌, ◌≤◌, ◌*◌, [], ◌∷◌, true, false, IfOk, IfErr};
ghost use Rattle.cube_model.specs.declared.fault.Fault.{Fault};
ghost use Rattle.file_device.specs.Claim.{IsClaimedBy};
ghost use Rattle.file_device.specs.Host.{events_of};
ghost use Rattle.file_device.specs.OpenError.{fault_of};
ghost use Rattle.sector_device.specs.declared.event.Event.{Event};
ghost use Rattle.sector_device.specs.declared.event.LockKind.{LockKind};

use crate::length::{is_to_be_made, sectors_of};
use crate::{Existing, FileDisk, Host, LockFile, LockKind, OpenError, Start};
use std::fs::{self, Files, OpenFile, OpenOptions};
use std::io::ErrorKind;
use std::os::unix::fs::{FileExt, MetadataExt};

/// A device over a file that was made, or whose contents are not wanted.
#[derive(Drop)]
pub struct Made<D> {
    pub disk: D,
    /// Whether there was no file of that name, so that it may be removed again as long as the device is not dropped.
    pub is_new: bool,
}

impl<F: FileExt + OpenFile + LockFile + Drop, S: Start> FileDisk<Host<F>, S> {
    ghost use Rattle.file_device.specs.FileDisk.{file_of, sector_count_of, failures_of, has_broken, is_read_only};

    /// Makes an absent or empty file one of so many sectors of zeros, or takes a file of just that length that holds
    /// what it may. The file is locked against all other programs first, until the device is dropped.
    ///
    /// `Length` for fewer than 64 sectors, before any file is made, and for another length; `NotBlank` where its first
    /// two sectors are not all zero and it may hold nothing; `Locked` where another program holds a lock; `NotRegular`;
    /// and `System` where a call fails. At a refusal a file that was made is removed again.
    pub fn make<R: Files<File = F>>(
        rt: &R,
        path: &str,
        sectors: u32,
        existing: Existing,
    ) -> Result<Made<FileDisk<Host<F>, S>>, OpenError>
        ensures count { IfOk result (λ made. (sector_count_of made.disk ≡ sectors) × (64 ≤ sectors)) }
        ensures made { IfOk result
            (λ made. IsClaimedBy existing sectors (Event.Locked LockKind.Exclusive ∷ [])
            (events_of (file_of made.disk))) }
        ensures fresh { IfOk result (λ made. (failures_of made.disk ≡ 0) × (has_broken made.disk ≡ false)) }
        ensures writable { IfOk result (λ made. is_read_only made.disk ≡ false) }
        ensures few { sectors < 64 → result ≡ Err OpenError.Length }
        ensures err { IfErr result
            (λ e. (fault_of e ≡ Fault.Device) ⊎ ((e ≡ OpenError.Length) ⊎ (e ≡ OpenError.NotBlank))) }
    {
        if is_to_be_made(0, sectors).is_err() {
            return Err(OpenError::Length);
        }
        let (file, is_first) = open_or_make(rt, path)?;
        let mut host = locked(file, LockKind::Exclusive)?;
        if !host.is_at(rt, path) {
            return Err(OpenError::Locked);
        }
        let is_new = is_first && host.is_empty();
        if let Err(error) = host.claim(sectors, existing) {
            if is_new {
                let _removed = fs::remove_file(rt, path);
            }
            return Err(error);
        }
        let disk = FileDisk::over(host, sectors);
        Ok(Made { disk, is_new })
    }

    /// Takes a file of a whole number of sectors, at least 64, for reading and writing. It is locked against all other
    /// programs first, until the device is dropped.
    ///
    /// `Length` for another length; `Locked` where another program holds a lock; `NotRegular`; `System` where a call
    /// fails.
    pub fn open<R: Files<File = F>>(rt: &R, path: &str) -> Result<FileDisk<Host<F>, S>, OpenError>
        ensures count { IfOk result (λ d. 64 ≤ sector_count_of d) }
        ensures measured { IfOk result
            (λ d. events_of (file_of d) ≡ Event.Measured (sector_count_of d * 512) ∷ Event.Locked LockKind.Exclusive
            ∷ []) }
        ensures fresh { IfOk result (λ d. (failures_of d ≡ 0) × (has_broken d ≡ false)) }
        ensures writable { IfOk result (λ d. is_read_only d ≡ false) }
        ensures err { IfErr result (λ e. (fault_of e ≡ Fault.Device) ⊎ (e ≡ OpenError.Length)) }
    {
        let mut how = OpenOptions::new();
        let file = opened(rt, path, how.read(true).write(true))?;
        let mut host = locked(file, LockKind::Exclusive)?;
        let sectors = measure(&mut host)?;
        Ok(FileDisk::over(host, sectors))
    }

    /// Takes such a file for reading alone, which needs no right to write it. It is locked first against programs that
    /// write it, until the device is dropped.
    ///
    /// `Length` for another length; `Locked` where another program holds a lock that excludes readers; `NotRegular`;
    /// `System` where a call fails.
    pub fn open_to_read<R: Files<File = F>>(
        rt: &R,
        path: &str,
    ) -> Result<FileDisk<Host<F>, S>, OpenError>
        ensures count { IfOk result (λ d. 64 ≤ sector_count_of d) }
        ensures measured { IfOk result
            (λ d. events_of (file_of d) ≡ Event.Measured (sector_count_of d * 512) ∷ Event.Locked LockKind.Shared
            ∷ []) }
        ensures fresh { IfOk result (λ d. (failures_of d ≡ 0) × (has_broken d ≡ false)) }
        ensures read_only { IfOk result (λ d. is_read_only d ≡ true) }
        ensures err { IfErr result (λ e. (fault_of e ≡ Fault.Device) ⊎ (e ≡ OpenError.Length)) }
    {
        let mut how = OpenOptions::new();
        let file = opened(rt, path, how.read(true))?;
        let mut host = locked(file, LockKind::Shared)?;
        let sectors = measure(&mut host)?;
        Ok(FileDisk::over_to_read(host, sectors))
    }
}

// Opens a regular file. To open another one may wait, or do something by itself.
fn opened<R: Files>(rt: &R, path: &str, how: &OpenOptions) -> Result<R::File, OpenError>
    ensures err { IfErr result (λ e. fault_of e ≡ Fault.Device) }
{
    if let Ok(found) = fs::metadata(rt, path) {
        if !found.is_file() {
            return Err(OpenError::NotRegular);
        }
    }
    match how.open(rt, path) {
        Ok(file) => Ok(file),
        Err(error) => Err(OpenError::System(error)),
    }
}

// Opens a file for reading and writing, and makes it where it is absent. Whether it was.
fn open_or_make<R: Files>(rt: &R, path: &str) -> Result<(R::File, bool), OpenError>
    ensures err { IfErr result (λ e. fault_of e ≡ Fault.Device) }
{
    let mut how = OpenOptions::new();
    let how = how.read(true).write(true).create_new(true);
    match how.open(rt, path) {
        Ok(file) => Ok((file, true)),
        Err(error) if error.kind() == ErrorKind::AlreadyExists => {
            let file = opened(rt, path, how.create_new(false).create(true))?;
            Ok((file, false))
        }
        Err(error) => Err(OpenError::System(error)),
    }
}

// A file of which no call was made yet, with a lock on it.
fn locked<F: FileExt + OpenFile + LockFile + Drop>(
    file: F,
    kind: LockKind,
) -> Result<Host<F>, OpenError>
    ensures ok { IfOk result (λ host. events_of host ≡ Event.Locked kind ∷ []) }
    ensures err { IfErr result (λ e. fault_of e ≡ Fault.Device) }
{
    let mut host = Host::new(file);
    host.lock(kind)?;
    Ok(host)
}

// How many sectors a file has.
fn measure<F: FileExt + OpenFile + Drop>(host: &mut Host<F>) -> Result<u32, OpenError>
    ensures ok { IfOk result (λ n. (64 ≤ n) × (events_of host.new ≡ Event.Measured (n * 512) ∷ events_of host.old)) }
    ensures err { IfErr result (λ e. (fault_of e ≡ Fault.Device) ⊎ (e ≡ OpenError.Length)) }
{
    let length = match host.length() {
        Ok(length) => length,
        Err(error) => return Err(OpenError::System(error)),
    };
    match sectors_of(length) {
        Ok(sectors) => Ok(sectors),
        Err(_) => Err(OpenError::Length),
    }
}

impl<F: FileExt + OpenFile + Drop> Host<F> {
    // Whether a path names this very file. Another program may have removed it.
    fn is_at<R: Files>(&self, rt: &R, path: &str) -> bool {
        match (self.metadata(), fs::metadata(rt, path)) {
            (Ok(this), Ok(named)) => this.dev() == named.dev() && this.ino() == named.ino(),
            _ => false,
        }
    }

    // Whether the file has no byte.
    fn is_empty(&self) -> bool {
        match self.metadata() {
            Ok(metadata) => metadata.len() == 0,
            Err(_) => false,
        }
    }
}
