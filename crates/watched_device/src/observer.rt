// What sees the calls of a device.
ghost use Rattle.std.specs.Prelude.{ℕ};

/// What sees how many sectors of a device are read and written.
pub trait Observer {
    /// What it makes of a number of sectors that were read.
    ghost reads: { ℕ → Self → Self → Type 0 };

    /// What it makes of a number of sectors that were written.
    ghost writes: { ℕ → Self → Self → Type 0 };

    /// So many more sectors were read.
    fn note_read(&mut self, sectors: usize)
        ensures { reads sectors self.old self.new };

    /// So many more sectors were written.
    fn note_written(&mut self, sectors: usize)
        ensures { writes sectors self.old self.new };
}
