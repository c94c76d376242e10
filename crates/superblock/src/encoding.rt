//! Spelling a superblock.
ghost use Rattle.std.specs.Prelude.{◌≡◌};
ghost use Rattle.superblock.specs.Superblock.{sector_of};

use crate::superblock::Super;
use wire::{write_bytes, write_u32, write_u64};

// The first bytes of each superblock.
const NAME: &[u8] = b"SSBCUBE1";

/// The sector of a superblock.
pub fn encode(superblock: &Super) -> [u8; 512]
    ensures { result ≡ sector_of superblock.now }
{
    let mut sector = [0u8; 512];
    write_bytes(&mut sector, 0, NAME);
    write_u32(&mut sector, 8, superblock.layout);
    write_u32(&mut sector, 12, superblock.sectors);
    write_u64(&mut sector, 16, superblock.generation);
    write_u32(&mut sector, 24, superblock.catalogue);
    write_u32(&mut sector, 28, superblock.bytes);
    sector
}
