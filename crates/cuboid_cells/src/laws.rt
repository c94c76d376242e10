//! Laws of the definitions: each function proves the statement that its contract names, and does nothing.
ghost use Rattle.cuboid_cells.specs.Lawful.{BytesAreOneRun};

/// Bytes are at most one run.
pub fn bytes_are_one_run()
    ensures { BytesAreOneRun }
{}
