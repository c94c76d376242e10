//! Sectors and superblocks that were written down by hand.
use superblock::{Super, decode, encode};

const CREATED: Super = Super {
    layout: 1,
    sectors: 64,
    generation: 1,
    catalogue: 6,
    bytes: 140,
};

// How the sector of `CREATED` begins. Zeros follow.
const SPELLED: [u8; 32] = [
    0x53, 0x53, 0x42, 0x43, 0x55, 0x42, 0x45, 0x31, 0x01, 0x00, 0x00, 0x00, 0x40, 0x00, 0x00, 0x00,
    0x01, 0x00, 0x00, 0x00, 0x00, 0x00, 0x00, 0x00, 0x06, 0x00, 0x00, 0x00, 0x8c, 0x00, 0x00, 0x00,
];

fn spelled() -> [u8; 512] {
    let mut sector = [0; 512];
    sector[..32].copy_from_slice(&SPELLED);
    sector
}

#[test]
fn spells_and_reads_one(rt: HostRuntime) {
    assert!(rt; encode(&CREATED) == spelled());
    assert!(rt; decode(&spelled(), 1) == Some(CREATED));
}
