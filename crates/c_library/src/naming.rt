// The faults of a device in memory.
ghost use Rattle.std.specs.Prelude.{◌≡◌};
ghost use Rattle.c_library.specs.Journals.{named_fault};

use cube_model::Fault;

/// The fault to name: a device that keeps what is written in memory fails only when out of memory.
pub(crate) fn named(fault: Fault) -> Fault
    ensures { result ≡ named_fault fault }
{
    match fault {
        Fault::Device => Fault::Memory,
        other => other,
    }
}
