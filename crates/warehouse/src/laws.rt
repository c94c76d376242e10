//! Laws of the definitions: each function proves the statement that its contract names, and does nothing.
ghost use Rattle.warehouse.specs.Headline.{FewerIsNotFound, LaterCrashIsFound, RestartedShows, CrashedCreateIsFound};
ghost use Rattle.warehouse.specs.Headline.{CrashedOpenIsFound, CrashedRunIsFound};

use sector_device::Sectors;

/// However a run of commands crashes, before, between or within its device calls: the restarted device has a prefix of
/// the submitted batches with every acknowledged one. By its contract, opening finds this one, also where it crashes
/// and is run again.
pub fn crashed_run_is_found<D: Sectors>()
    ensures { CrashedRunIsFound D.Sectors }
{}

/// However a run crashes after some of its commands: the restarted device has all batches that these acknowledged.
pub fn later_crash_is_found<D: Sectors>()
    ensures { LaterCrashIsFound D.Sectors }
{}

/// What is found after a run has no fewer batches than there were where it began.
pub fn fewer_is_not_found<D: Sectors>()
    ensures { FewerIsNotFound D.Sectors }
{}

/// A device that was restarted with an image shows what the image shows.
pub fn restarted_shows<D: Sectors>()
    ensures { RestartedShows D.Sectors }
{}

/// An opening that crashes anywhere and is run again finds the same batches.
pub fn crashed_open_is_found<D: Sectors>()
    ensures { CrashedOpenIsFound D.Sectors }
{}

/// A creation that crashes anywhere leaves no valid superblock, or the warehouse of no batch.
pub fn crashed_create_is_found<D: Sectors>()
    ensures { CrashedCreateIsFound D.Sectors }
{}
