// Each method makes one call of the system, and then notes it with its answer.
ghost use Rattle.std.specs.Prelude.{◌≡◌, ◌∷◌, [], Some, IfErr, MatchResult, is_ok};
ghost use Rattle.cube_model.specs.declared.fault.Fault.{Fault};
ghost use Rattle.file_device.specs.OpenError.{fault_of};
ghost use Rattle.sector_device.specs.declared.event.Event.{Event};

use crate::calls::Calls;
use crate::lock::LockFile;
use crate::open_error::OpenError;
use crate::raw::RawFile;
use sector_device::{Event, LockKind};
use std::fs::{Metadata, OpenFile, TryLockError};
use std::io;
use std::os::unix::fs::FileExt;

/// An open file of the operating system, with the calls that were made of it, and the last failure of one.
#[derive(Drop)]
pub struct Host<F: FileExt + OpenFile + Drop> {
    file: F,
    calls: Calls,
    failure: Option<io::Error>,
}

impl<F: FileExt + OpenFile + Drop> Host<F> {
    ghost use Rattle.file_device.specs.Host.{events_of};

    /// A file of which no call was made yet.
    pub fn new(file: F) -> Host<F>
        ensures { events_of result ≡ [] }
    {
        Host {
            file,
            calls: Calls::none(),
            failure: None,
        }
    }

    /// What the system said of the last call for sectors that failed, if one did.
    pub fn failure(&self) -> Option<io::Error> {
        self.failure
    }

    // What the system knows of the file besides its contents.
    pub(crate) fn metadata(&self) -> io::Result<Metadata> {
        self.file.metadata()
    }

    /// How many bytes the file has. A call that fails is not recorded.
    pub fn length(&mut self) -> io::Result<u64>
        ensures { MatchResult result (λ n. events_of self.new ≡ Event.Measured n ∷ events_of self.old)
            (λ _. events_of self.new ≡ events_of self.old) }
    {
        let length = self.file.metadata()?.len();
        self.calls = self.calls.then(&Event::Measured(length));
        Ok(length)
    }

    /// Gives the file so many bytes, of zeros where it had none.
    pub fn lengthen(&mut self, length: u64) -> io::Result<()>
        ensures { events_of self.new ≡ Event.Lengthened length (is_ok result) ∷ events_of self.old }
    {
        let answer = self.file.set_len(length);
        self.calls = self.calls.then(&Event::Lengthened(length, answer.is_ok()));
        answer
    }
}

impl<F: FileExt + OpenFile + LockFile + Drop> Host<F> {
    ghost use Rattle.file_device.specs.Host.{events_of};

    /// Takes a lock on the file, without waiting, until it is closed. `Locked` where another program holds one that
    /// excludes it, `System` where the system refuses the call. A lock that was not taken is not recorded.
    pub fn lock(&mut self, kind: LockKind) -> Result<(), OpenError>
        ensures { MatchResult result (λ _. events_of self.new ≡ Event.Locked kind ∷ events_of self.old)
            (λ e. (events_of self.new ≡ events_of self.old) × (fault_of e ≡ Fault.Device)) }
    {
        match self.file.take_lock(kind) {
            Ok(()) => {}
            Err(TryLockError::WouldBlock) => return Err(OpenError::Locked),
            Err(TryLockError::Error(error)) => return Err(OpenError::System(error)),
        }
        self.calls = self.calls.then(&Event::Locked(kind));
        Ok(())
    }
}

impl<F: FileExt + OpenFile + Drop> RawFile for Host<F> {
    ghost use Rattle.file_device.specs.Host.{events_of};

    ghost history = { events_of };

    fn read_sector(&mut self, i: u32, to: &mut [u8; 512]) -> io::Result<()> {
        let answer = self.file.read_exact_at(to, u64::from(i) * 512);
        noted(answer, &mut self.failure)?;
        self.calls = self.calls.then(&Event::Read(i, *to));
        Ok(())
    }

    fn read_run(&mut self, first: u32, to: &mut [u8]) -> io::Result<()> {
        let answer = self.file.read_exact_at(to, u64::from(first) * 512);
        noted(answer, &mut self.failure)?;
        let (sectors, _) = to.as_chunks::<512>();
        for k in 0..sectors.len() {
            self.calls = self.calls.then(&Event::Read(first + k as u32, sectors[k]));
        }
        Ok(())
    }

    fn write_sector(&mut self, i: u32, from: &[u8; 512]) -> io::Result<()> {
        let answer = self.file.write_all_at(from, u64::from(i) * 512);
        self.calls = self.calls.then(&Event::Written(i, *from, answer.is_ok()));
        noted(answer, &mut self.failure)
    }

    fn write_run(&mut self, first: u32, from: &[u8]) -> io::Result<()> {
        let answer = self.file.write_all_at(from, u64::from(first) * 512);
        let ok = answer.is_ok();
        let (sectors, _) = from.as_chunks::<512>();
        for k in 0..sectors.len() {
            self.calls = self
                .calls
                .then(&Event::Written(first + k as u32, sectors[k], ok));
        }
        noted(answer, &mut self.failure)
    }

    // What reads need lasts then, the length too, and not when the file was changed.
    fn sync(&mut self) -> io::Result<()> {
        let answer = self.file.sync_data();
        self.calls = self.calls.then(&Event::Synced(answer.is_ok()));
        noted(answer, &mut self.failure)
    }
}

// The answer of a call, of which a failure is kept.
fn noted(answer: io::Result<()>, failure: &mut Option<io::Error>) -> io::Result<()>
    ensures same { result ≡ answer }
    ensures kept { IfErr answer (λ error. failure.new ≡ Some error) }
{
    if let Err(error) = &answer {
        *failure = Some(*error);
    }
    answer
}
