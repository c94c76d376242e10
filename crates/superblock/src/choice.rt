//! Which of two superblocks is current.
ghost use Rattle.superblock.specs.Choice.{IsCurrentOf};

use crate::superblock::Super;

/// The one with the greater generation, if one is valid.
pub fn choose(first: Option<Super>, second: Option<Super>) -> Option<Super>
    ensures { IsCurrentOf first second result }
{
    match (first, second) {
        (Some(one), Some(other)) if other.generation > one.generation => second,
        (Some(_), _) => first,
        (None, _) => second,
    }
}
