ghost use Rattle.std.specs.Prelude.{◌≡◌, ◌+◌};

/// A run of sectors of a device: the number of its first sector, and how many there are.
#[derive(Clone, Copy, PartialEq, Eq)]
pub struct Extent {
    pub first: u32,
    pub len: u32,
}

impl Extent {
    // The sector after the last one.
    pub(crate) fn end(&self) -> u64
        ensures { result ≡ self.now.first + self.now.len }
    {
        u64::from(self.first) + u64::from(self.len)
    }
}
