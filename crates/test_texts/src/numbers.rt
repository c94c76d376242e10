//! Bytes and numbers that were written down by hand.
use wire::{write_bytes, write_i64, write_u16, write_u32, write_u64};

// A byte that stays, a name, 140 in four bytes, 1 in eight, 400 in two, -2 in eight, and a byte that stays.
const SPELLED: [u8; 32] = [
    0x77, 0x53, 0x53, 0x42, 0x43, 0x55, 0x42, 0x45, 0x31, 0x8c, 0x00, 0x00, 0x00, 0x01, 0x00, 0x00,
    0x00, 0x00, 0x00, 0x00, 0x00, 0x90, 0x01, 0xfe, 0xff, 0xff, 0xff, 0xff, 0xff, 0xff, 0xff, 0x77,
];

#[test]
fn spells_by_writing(rt: HostRuntime) {
    let mut to = [0x77u8; 32];
    write_bytes(&mut to, 1, b"SSBCUBE1");
    write_u32(&mut to, 9, 140);
    write_u64(&mut to, 13, 1);
    write_u16(&mut to, 21, 400);
    write_i64(&mut to, 23, -2);
    assert!(rt; to == SPELLED);
}
