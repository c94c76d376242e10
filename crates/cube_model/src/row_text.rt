//! The texts of fact rows.
ghost use Rattle.std.specs.Prelude.{◌≡◌, ◌≤◌, IfOk, IsOk, length, nat_eq};
ghost use Rattle.std.specs.Cmp.{partial_equiv_from_equiv};
ghost use Rattle.std.specs.Cmp.Lexicographic.{pointwise, nat_list_eq_equiv};

use smallvec::SmallVec;
use std::alloc::{AllocError, Global};
use std::marker::Model;

/// A text of a fact row, any bytes. Contracts see it as the list of its bytes.
///
/// Up to sixteen bytes lie in the value itself and need no memory.
#[derive(Drop)]
pub struct RowText {
    bytes: SmallVec<u8, 16>,
}

impl Model for RowText {
    ghost use Rattle.std.specs.Prelude.{List, ℕ};

    ghost Value = { List ℕ };

    ghost view = { λ text. text.bytes.items };
}

impl RowText {
    /// A copy of some bytes. It can only fail when out of memory, and at most sixteen bytes need none.
    pub fn from_slice(alloc: Global, bytes: &[u8]) -> Result<RowText, AllocError>
        ensures ok { IfOk result (λ text. text ≡ bytes.now) }
        ensures inline { length bytes.now ≤ 16 → IsOk result }
    {
        Ok(RowText {
            bytes: SmallVec::from_slice(alloc, bytes)?,
        })
    }

    /// The bytes.
    pub fn as_slice(&self) -> &[u8]
        ensures { result.now ≡ self.now }
    {
        self.bytes.as_slice()
    }
}

impl PartialEq for RowText {
    ghost eq = { pointwise nat_eq };

    ghost laws = { partial_equiv_from_equiv nat_list_eq_equiv };

    fn eq(&self, other: &Self) -> bool {
        self.as_slice() == other.as_slice()
    }
}

impl Eq for RowText {
    ghost laws = { nat_list_eq_equiv };
}
