//! Roots that were written down by hand.
use cube_model::{Fault, Totals};
use std::alloc::Global;
use std::test::Fail;
use warehouse_root::{Layout, Root, StoredCuboid};

// Six totals that differ in each byte place that they use.
const TOTALS: Totals = Totals {
    quantity: 66,
    extendedprice: 3500,
    revenue: 3415,
    supplycost: 2700,
    discounted: 8500,
    profit: 72_623_859_790_382_856,
};

const CUBOIDS: [StoredCuboid; 3] = [
    StoredCuboid {
        view: 59,
        runs: 1,
        mark: 1,
        cells: 2,
    },
    StoredCuboid {
        view: 203,
        runs: 0,
        mark: 0,
        cells: 0,
    },
    StoredCuboid {
        view: 248,
        runs: 2,
        mark: 2,
        cells: 262_144,
    },
];

// Batches of 3 and of 65,536 rows, target 2, one addition, these totals and cuboids.
const SPELLED: [u8; 108] = [
    0x02, 0x00, 0x00, 0x00, 0x02, 0x00, 0x00, 0x00, 0x01, 0x00, 0x00, 0x00, 0x03, 0x00, 0x00, 0x00,
    0x42, 0x00, 0x00, 0x00, 0x00, 0x00, 0x00, 0x00, 0xac, 0x0d, 0x00, 0x00, 0x00, 0x00, 0x00, 0x00,
    0x57, 0x0d, 0x00, 0x00, 0x00, 0x00, 0x00, 0x00, 0x8c, 0x0a, 0x00, 0x00, 0x00, 0x00, 0x00, 0x00,
    0x34, 0x21, 0x00, 0x00, 0x00, 0x00, 0x00, 0x00, 0x08, 0x07, 0x06, 0x05, 0x04, 0x03, 0x02, 0x01,
    0x03, 0x00, 0x00, 0x00, 0x00, 0x00, 0x01, 0x00, 0x3b, 0x00, 0x01, 0x00, 0x01, 0x00, 0x00, 0x00,
    0x02, 0x00, 0x00, 0x00, 0xcb, 0x00, 0x00, 0x00, 0x00, 0x00, 0x00, 0x00, 0x00, 0x00, 0x00, 0x00,
    0xf8, 0x00, 0x02, 0x00, 0x02, 0x00, 0x00, 0x00, 0x00, 0x00, 0x04, 0x00,
];

// The ids of what that root asks for: the dimensions, the segments, and the runs of views 59 and 248.
const IDS: [u32; 9] = [1, 2, 3, 4, 65_537, 65_538, 132_016, 135_040, 135_041];

#[test]
fn reads_what_is_spelled(rt: HostRuntime) -> Result<(), Fail> {
    let root = Root::decode(rt.alloc(), Layout::First, &SPELLED)?;
    let ids = root.object_ids(rt.alloc())?;
    assert!(rt;
        (
            root.layout(),
            root.target(),
            root.additions(),
            root.totals()
        ) == (Layout::First, 2, 1, TOTALS)
    );
    assert!(rt;
        (root.batches(), root.cuboids(), ids.as_slice())
            == ([3, 65_536].as_slice(), CUBOIDS.as_slice(), IDS.as_slice())
    );
    Ok(())
}

#[test]
fn spells_what_was_read(rt: HostRuntime) -> Result<(), Fail> {
    let bytes = Root::decode(rt.alloc(), Layout::Second, &SPELLED)?.encode(rt.alloc())?;
    assert!(rt; bytes.as_slice() == SPELLED.as_slice());
    Ok(())
}

const BAD: Option<Fault> = Some(Fault::BadLayout);

// A place, the byte that is put there, and how what is there then is refused, if it is, in the first layout and in the
// second.
const CHANGES: [(usize, u8, Option<Fault>, Option<Fault>); 37] = [
    // One batch less and one more, one cuboid less and one more.
    (0, 1, BAD, BAD),
    (0, 3, BAD, BAD),
    (12, 2, BAD, BAD),
    (12, 4, BAD, BAD),
    // The target below the number of batches, and above.
    (4, 1, None, None),
    (4, 3, BAD, BAD),
    (7, 1, BAD, BAD),
    // 4,097 additions; 256 of them.
    (9, 16, BAD, BAD),
    (9, 1, None, None),
    // Each total at 2 to the power 63 at least, and the last one below.
    (23, 0x80, BAD, BAD),
    (31, 0x80, BAD, BAD),
    (39, 0x80, BAD, BAD),
    (47, 0x80, BAD, BAD),
    (55, 0x80, BAD, BAD),
    (63, 0x80, BAD, BAD),
    (63, 0x7f, None, None),
    // A batch of 65,537 rows, of 65,539, of none.
    (68, 1, BAD, BAD),
    (66, 1, BAD, BAD),
    (64, 0, None, None),
    // Views that are equal, that fall, that leave numbers out.
    (72, 0xcb, BAD, BAD),
    (72, 0xcc, BAD, BAD),
    (84, 0xf8, BAD, BAD),
    (72, 0xca, None, None),
    // A view from 256 on, and one from 512 on.
    (97, 1, BAD, None),
    (97, 2, BAD, BAD),
    // No run at a mark, and a run at none.
    (74, 0, BAD, BAD),
    (76, 0, BAD, BAD),
    (86, 1, BAD, BAD),
    (88, 1, BAD, BAD),
    // As many runs as there may be, one more, and 256 more.
    (98, 8, None, None),
    (98, 9, BAD, BAD),
    (99, 1, BAD, BAD),
    // A mark above the number of batches.
    (76, 3, BAD, BAD),
    (79, 1, BAD, BAD),
    // Fewer cells, and one more than there may be.
    (82, 3, None, None),
    (104, 1, BAD, BAD),
    (107, 1, BAD, BAD),
];

// How the bytes with another one are refused as a root of a layout, if they are.
fn refusal(alloc: Global, layout: Layout, place: usize, byte: u8) -> Option<Fault> {
    let mut bytes = SPELLED;
    if let Some(changed) = bytes.get_mut(place) {
        *changed = byte;
    }
    Root::decode(alloc, layout, &bytes).err()
}

#[test]
fn refuses_what_breaks_a_rule(rt: HostRuntime) {
    for (place, byte, first, second) in CHANGES {
        assert!(rt;
            refusal(rt.alloc(), Layout::First, place, byte) == first
                && refusal(rt.alloc(), Layout::Second, place, byte) == second,
            "byte {place} {byte}"
        );
    }
}
