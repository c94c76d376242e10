//! Laws of the definitions: each function proves the statement that its contract names, and does nothing.
ghost use Rattle.stored_cuboids.specs.Lawful.{KeptCuboidsAreSound};

/// The cuboids of the warehouse of a content are sound.
pub fn kept_cuboids_are_sound()
    ensures { KeptCuboidsAreSound }
{}
