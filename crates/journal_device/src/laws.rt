//! Laws of journals: each function proves the statement that its contract names, and does nothing.
ghost use Rattle.journal_device.specs.Lawful.{PrefixIsLeft, SpellsOneList};

/// Whoever makes the calls of a journal on the file and crashes after some of them leaves what a crash of the device
/// might have left.
pub fn prefix_is_left()
    ensures { PrefixIsLeft }
{}

/// A journal spells one list of calls of a device.
pub fn spells_one_list()
    ensures { SpellsOneList }
{}
