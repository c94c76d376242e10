//! The links from the members of a level to those of the level above.
ghost use Rattle.std.specs.Prelude.{◌≡◌, [], length, slice_get, IfOk, OnErr, IsOkUnless};
ghost use Rattle.hierarchy.specs.Hierarchy.{PutsUpper};

use cube_model::Fault;
use std::alloc::Global;
use std::marker::Model;

/// The one upper member of each member of a level. Members are codes from 0.
///
/// The lowest level may be the rows of a dimension, each with its place as its code.
#[derive(Drop)]
pub struct Hierarchy {
    uppers: Vec<u16>,
}

impl Model for Hierarchy {
    ghost use Rattle.std.specs.Prelude.{List, ℕ};

    ghost Value = { List ℕ };

    ghost view = { λ h. h.uppers.items };
}

impl Hierarchy {
    /// The hierarchy with no link.
    pub fn new(alloc: Global) -> Hierarchy
        ensures { result ≡ [] }
    {
        Hierarchy {
            uppers: Vec::new(alloc),
        }
    }

    /// The hierarchy with these upper members, the first for the code 0.
    pub fn of(uppers: Vec<u16>) -> Hierarchy
        ensures { result ≡ uppers.items }
    {
        Hierarchy { uppers }
    }

    /// The upper members, the first for the code 0.
    pub fn uppers(&self) -> &[u16]
        ensures { result.now ≡ self.now }
    {
        self.uppers.as_slice()
    }

    /// How many members have an upper member.
    pub fn len(&self) -> usize
        ensures { result ≡ length self.now }
    {
        self.uppers.len()
    }

    /// Makes a member of the level above the upper member of a code, and says whether it is that now.
    ///
    /// It is not where the code has another upper member, and where it leaves out a code. It can only fail when out of
    /// memory, and then changes nothing.
    pub fn link(&mut self, code: usize, upper: u16) -> Result<bool, Fault>
        ensures ok { IfOk result (λ linked. PutsUpper self.old code upper linked self.new) }
        ensures err { OnErr result (self.new ≡ self.old) }
        ensures memory { IsOkUnless result Fault.Memory }
    {
        if let Some(other) = self.uppers.get(code) {
            return Ok(*other == upper);
        }
        if code != self.uppers.len() {
            return Ok(false);
        }
        self.uppers.push(upper)?;
        Ok(true)
    }

    /// The upper member of a code, if it has one.
    pub fn up(&self, code: usize) -> Option<u16>
        ensures { result ≡ slice_get self.now code }
    {
        self.uppers.get(code).copied()
    }
}
