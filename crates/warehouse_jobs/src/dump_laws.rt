//! Laws of what was written: each function proves the statement that its contract names, and does nothing.
ghost use Rattle.warehouse_jobs.specs.DumpLawful.{DumpsReadBack};

/// Fact rows that were written are read back.
pub fn dumps_read_back()
    ensures { DumpsReadBack }
{}
