//! Laws of the definitions: each function proves the statement that its contract names, and does nothing.
ghost use Rattle.object_store.specs.Lawful.{ImageShowsOneContent, CommitPutsAndDrops};

/// An image shows at most one content.
pub fn image_shows_one_content()
    ensures { ImageShowsOneContent }
{}

/// A commit leaves what was put last, and what was neither put nor dropped.
pub fn commit_puts_and_drops()
    ensures { CommitPutsAndDrops }
{}
