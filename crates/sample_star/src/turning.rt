//! A device that does not keep its word, or keeps it for a while.
ghost use Rattle.std.specs.Prelude.{[]};
ghost use Rattle.sector_device.specs.Device.{CountsFailure};

use sector_device::{DeviceError, MemDisk, Sectors};

/// A device of 64 sectors that is a memory disk for so many calls. Then it gives other bytes at each read, and each
/// other call fails.
#[derive(Drop)]
pub struct Turning {
    inner: Option<MemDisk>,
    kept_calls: u64,
    calls: u64,
    failures: u64,
}

impl Turning {
    /// A memory disk for so many calls.
    pub fn new(inner: MemDisk, kept_calls: u64) -> Turning {
        Turning {
            inner: Some(inner),
            kept_calls,
            calls: 0,
            failures: 0,
        }
    }

    /// One that keeps its word at no call, the first one fails, and has failed so often.
    pub fn lying(failures: u64) -> Turning {
        Turning {
            inner: None,
            kept_calls: 0,
            calls: 0,
            failures,
        }
    }

    /// What comes of a call.
    fn answer(&mut self) -> Result<(), DeviceError>
        ensures { CountsFailure result self.old.failures self.new.failures }
    {
        self.calls = self.calls.wrapping_add(1);
        if self.calls <= self.kept_calls || self.calls % 2 == 0 {
            return Ok(());
        }
        self.failures = self.failures.saturating_add(1);
        Err(DeviceError)
    }
}

impl Sectors for Turning {
    ghost state = { λ d. record {
      size = 64;
      reads = λ i. [];
      may_hold = λ i b. ⊥;
      moment = 0;
      left_since = λ t image. ⊥;
    } };

    ghost keeps_word = { λ d. ⊥ };

    ghost always_keeps = { ⊥ };

    ghost failed = { λ d. d.failures };

    ghost read_may_stay = { λ d i word. absurd word };

    ghost whole = { λ d i b word. absurd word };

    ghost counts_now = { λ d t image word. absurd word };

    ghost only_now = { λ d image word. absurd word };

    fn count(&self) -> u32 {
        64
    }

    fn failures(&self) -> u64 {
        self.failures
    }

    fn read(&mut self, i: u32, to: &mut [u8; 512]) -> Result<(), DeviceError> {
        match &mut self.inner {
            Some(inner) if self.calls < self.kept_calls && i < inner.count() => {
                let _ = inner.read(i, to);
            }
            _ => *to = [(self.calls % 256) as u8; 512],
        }
        self.answer()
    }

    fn write(&mut self, i: u32, from: &[u8; 512]) -> Result<(), DeviceError> {
        match &mut self.inner {
            Some(inner) if self.calls < self.kept_calls && i < inner.count() => {
                let _ = inner.write(i, from);
            }
            _ => {}
        }
        self.answer()
    }

    fn sync(&mut self) -> Result<(), DeviceError> {
        if let Some(inner) = &mut self.inner {
            let _ = inner.sync();
        }
        self.answer()
    }
}
