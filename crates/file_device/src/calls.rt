// The calls of a file so far. They are there for the proofs alone: no memory holds them.
ghost use Rattle.std.specs.Prelude.{◌≡◌, List, [], ◌∷◌};
ghost use Rattle.std.specs.Borrow.{ftrue};
ghost use Rattle.sector_device.specs.declared.event.Event.{Event};

use sector_device::Event;
use std::marker::Model;

/// The calls of a file with their answers, the newest first.
#[derive(Drop)]
pub struct Calls {
    pub ghost made: { List Event },
}

impl Model for Calls {
    ghost also_owns = { λ _. ftrue };
}

impl Calls {
    /// None was made.
    pub(crate) fn none() -> Calls
        ensures { result.made ≡ [] }
    {
        Calls {}
    }

    /// These, and one that came after them.
    pub(crate) fn then(&self, _next: &Event) -> Calls
        ensures { result.made ≡ _next.now ∷ self.now.made }
    {
        Calls {}
    }
}
