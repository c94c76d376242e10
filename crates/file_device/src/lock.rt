// Locks on whole files. They bind the programs that ask for one.
use sector_device::LockKind;
use std::fs::{File, TryLockError};

/// A file on which an advisory lock can be taken, which is held until the file is closed.
pub trait LockFile {
    /// Takes a lock on the whole file, without waiting. `WouldBlock` where another program holds one that excludes it.
    fn take_lock(&self, kind: LockKind) -> Result<(), TryLockError>;
}

impl LockFile for File {
    fn take_lock(&self, kind: LockKind) -> Result<(), TryLockError> {
        match kind {
            LockKind::Exclusive => self.try_lock(),
            LockKind::Shared => self.try_lock_shared(),
        }
    }
}
