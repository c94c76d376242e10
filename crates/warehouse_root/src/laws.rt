//! Laws of the definitions: each function proves the statement that its contract names, and does nothing.
ghost use Rattle.warehouse_root.specs.Lawful.{BytesAreOneListOfModes, BytesAreOneRoot, ObjectsAreApart, RootsAreShort};

/// Bytes are at most one root of a layout.
pub fn bytes_are_one_root()
    ensures { BytesAreOneRoot }
{}

/// The objects that a root asks for have ids that differ, and come by ascending id.
pub fn objects_are_apart()
    ensures { ObjectsAreApart }
{}

/// A root is no longer than a store takes.
pub fn roots_are_short()
    ensures { RootsAreShort }
{}

/// Bytes are one list of ship modes at most.
pub fn bytes_are_one_list_of_modes()
    ensures { BytesAreOneListOfModes }
{}
