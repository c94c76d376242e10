//! Greedy lists that were worked out apart from the code, from the definitions.
use crate::choice::numbered::views_of;
use cube_model::Fault;
use lattice::{Counts, LevelCounts};
use std::alloc::Global;
use view_choice::{benefits, greedy};

const TWO: LevelCounts = LevelCounts {
    lowest: 2,
    middle: 2,
    highest: 2,
};

const TWO_OF_ONE: LevelCounts = LevelCounts {
    lowest: 2,
    middle: 2,
    highest: 1,
};

// Two cities, nations and regions, two brands and categories of one manufacturer, two days, months and years.
const FEW: Counts = Counts {
    customer: TWO,
    supplier: TWO,
    part: TWO_OF_ONE,
    date: TWO,
    ship_modes: None,
};

const FEW_SHIPPED: Counts = Counts {
    customer: TWO,
    supplier: TWO,
    part: TWO_OF_ONE,
    date: TWO,
    ship_modes: Some(2),
};

const CITIES: LevelCounts = LevelCounts {
    lowest: 250,
    middle: 25,
    highest: 5,
};

// The benchmark's members at scale 1.
const BENCHMARK: Counts = Counts {
    customer: CITIES,
    supplier: CITIES,
    part: LevelCounts {
        lowest: 1000,
        middle: 25,
        highest: 5,
    },
    date: LevelCounts {
        lowest: 2556,
        middle: 84,
        highest: 7,
    },
    ship_modes: None,
};

const THOUSAND: LevelCounts = LevelCounts {
    lowest: 1000,
    middle: 1000,
    highest: 1000,
};

// So many members that most views are too large to be stored.
const MANY: Counts = Counts {
    customer: THOUSAND,
    supplier: THOUSAND,
    part: THOUSAND,
    date: THOUSAND,
    ship_modes: None,
};

const MOST: LevelCounts = LevelCounts {
    lowest: 65_535,
    middle: 65_535,
    highest: 65_535,
};

// As many members on each level, and as many ship modes, as there may be.
const GREATEST: Counts = Counts {
    customer: MOST,
    supplier: MOST,
    part: MOST,
    date: MOST,
    ship_modes: Some(65_535),
};

// Fact rows, members, how many views are asked for, those chosen and their benefits.
static CHOICES: [(u64, Counts, u8, &[u16], &[u64]); 9] = [
    (3, FEW, 3, &[59, 203, 248], &[8, 6, 6]),
    (3, FEW, 16, &[59, 203, 248, 243, 251], &[8, 6, 6, 2, 2]),
    (
        3,
        FEW_SHIPPED,
        16,
        &[59, 203, 248, 243, 251, 507],
        &[8, 6, 6, 2, 2, 2],
    ),
    (3, FEW, 0, &[], &[]),
    (0, FEW, 16, &[], &[]),
    (
        6_000_000,
        BENCHMARK,
        8,
        &[86, 105, 26, 74, 162, 213, 172, 38],
        &[
            318_093_750,
            72_735_000,
            69_375_000,
            69_375_000,
            46_600_000,
            30_306_250,
            23_744_400,
            23_125_000,
        ],
    ),
    (
        1_000_000,
        MANY,
        4,
        &[63, 207, 243, 252],
        &[3_996_000, 2_997_000, 2_997_000, 2_997_000],
    ),
    // As many rows as a warehouse may have.
    (
        268_435_456,
        BENCHMARK,
        16,
        &[
            86, 105, 26, 74, 162, 213, 172, 38, 134, 141, 45, 117, 99, 184, 147, 15,
        ],
        &[
            14_489_608_374,
            3_221_960_472,
            3_218_600_472,
            3_218_600_472,
            2_146_083_648,
            1_342_483_530,
            1_073_486_224,
            1_072_866_824,
            1_072_866_824,
            805_455_118,
            537_115_912,
            536_993_412,
            536_820_912,
            536_743_112,
            536_620_912,
            268_944_831,
        ],
    ),
    (
        268_435_456,
        GREATEST,
        16,
        &[63, 207, 243, 252, 511, 255],
        &[
            1_073_479_684,
            805_109_763,
            805_109_763,
            805_109_763,
            268_369_921,
            65_534,
        ],
    ),
];

// Whether these views are chosen, with these benefits.
fn are_chosen(alloc: Global, case: &(u64, Counts, u8, &[u16], &[u64])) -> Result<bool, Fault> {
    let (rows, counts, k, numbers, gained) = case;
    if *rows > 268_435_456 {
        return Err(Fault::TooManyRows);
    }
    let views = views_of(alloc, numbers)?;
    let chosen = greedy(alloc, *rows, counts, *k)?;
    let found = benefits(alloc, *rows, counts, views.as_slice())?;
    Ok(chosen == views && found.as_slice() == *gained)
}

#[test]
fn chooses_the_greedy_list(rt: HostRuntime) {
    for (place, case) in CHOICES.iter().enumerate() {
        assert!(rt; are_chosen(rt.alloc(), case) == Ok(true), "choice {place}");
    }
}
