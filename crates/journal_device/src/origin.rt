// What the bytes of a file were before the calls.
ghost use Rattle.std.specs.Prelude.{ℕ, List, []};

use std::marker::Brand;

/// The bytes of a file before the calls of a journal. A function over any `O: Origin` is proved for all bytes, and its
/// caller picks those that it has.
pub trait Origin {
    /// The bytes.
    ghost image: { List ℕ };
}

impl Origin for Brand {
    ghost image = { [] };
}
