//! Reading a superblock.
ghost use Rattle.std.specs.Prelude.{◌≡◌, ◌↔◌};
ghost use Rattle.superblock.specs.declared.superblock.Super.{Super};
ghost use Rattle.superblock.specs.Superblock.{sector_of, IsProperSuperblock, IsSuperblock};

use crate::encoding::encode;
use crate::superblock::Super;
use cube_model::Fault;
use wire::Cursor;

/// The superblock that a sector is in a slot, and none where it is no superblock of that slot.
pub fn decode(sector: &[u8; 512], slot: u8) -> Option<Super>
    ensures { (s : Super) → (result ≡ Some s) ↔ IsSuperblock slot sector.now s }
{
    let Ok(said) = fields(sector) else {
        return None;
    };
    if said.is_proper() && said.generation % 2 == u64::from(slot) && encode(&said) == *sector {
        return Some(said);
    }
    None
}

// What is in the places of the fields, whatever else the sector has.
fn fields(sector: &[u8]) -> Result<Super, Fault>
    ensures { (s : Super) → IsProperSuperblock s → sector.now ≡ sector_of s → result ≡ Ok s }
{
    let mut cursor = Cursor::new(sector);
    cursor.bytes(8)?;
    Ok(Super {
        layout: cursor.u32()?,
        sectors: cursor.u32()?,
        generation: cursor.u64()?,
        catalogue: cursor.u32()?,
        bytes: cursor.u32()?,
    })
}
