//! Choices for some views that are asked for, worked out by hand.

use crate::choice::numbered::views_of;
use cube_model::Fault;
use lattice::{Counts, LevelCounts};
use std::alloc::Global;
use view_choice::{MOST_DEMANDED, benefits_for, greedy_for};

const ONE: LevelCounts = LevelCounts {
    lowest: 1,
    middle: 1,
    highest: 1,
};

// Only parts and dates have several members.
const COUNTS: Counts = Counts {
    customer: ONE,
    supplier: ONE,
    part: LevelCounts {
        lowest: 40,
        middle: 10,
        highest: 3,
    },
    date: LevelCounts {
        lowest: 30,
        middle: 12,
        highest: 2,
    },
    ship_modes: None,
};

// The views asked for, how many are to be chosen of 500 rows, those chosen and their benefits. View 246 has a category
// and a year (20 cells), 253 a month (12), 245 a category and a month (120), 240 a brand and a day (500 at most).
static CHOICES: [(&[u16], u8, &[u16], &[u64]); 7] = [
    (&[246, 246, 253], 1, &[245], &[1140]),
    (&[246, 246, 253], 3, &[245, 246, 253], &[1140, 200, 108]),
    (&[246, 246, 253], 16, &[245, 246, 253], &[1140, 200, 108]),
    (&[253], 2, &[253], &[488]),
    (&[253, 253, 253], 2, &[253], &[1464]),
    (&[240], 2, &[], &[]),
    (&[], 2, &[], &[]),
];

// Whether for the views asked for these are chosen, with these benefits.
fn are_chosen(alloc: Global, case: &(&[u16], u8, &[u16], &[u64])) -> Result<bool, Fault> {
    let (asked, k, numbers, gained) = case;
    let demanded = views_of(alloc, asked)?;
    if demanded.len() > MOST_DEMANDED {
        return Err(Fault::BadQuery);
    }
    let views = views_of(alloc, numbers)?;
    let chosen = greedy_for(alloc, 500, &COUNTS, demanded.as_slice(), *k)?;
    let found = benefits_for(alloc, 500, &COUNTS, demanded.as_slice(), views.as_slice())?;
    Ok(chosen == views && found.as_slice() == *gained)
}

#[test]
fn chooses_for_the_views_asked_for(rt: HostRuntime) {
    for (place, case) in CHOICES.iter().enumerate() {
        assert!(rt; are_chosen(rt.alloc(), case) == Ok(true), "choice {place}");
    }
}
