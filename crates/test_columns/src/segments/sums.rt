//! Masks of a batch, and what they select.

use crate::segments::batches::SPELLED;
use crate::segments::decoding::segment_of;
use cube_model::{Fault, Measure};
use std::alloc::Global;

// The sum of a measure, its least number and its greatest, over the rows that ranges select.
type Selected = (i128, Option<(i128, i128)>);

// The sample's rows with a quantity and a discount up to these, and a discount of one at least.
fn selected(
    alloc: Global,
    measure: Measure,
    quantity: u8,
    discount: u8,
) -> Result<Selected, Fault> {
    let segment = segment_of(alloc, &SPELLED)?;
    let columns = segment.columns();
    let mask = columns.mask(alloc, (0, quantity), (1, discount))?;
    let sum = columns.selected_sum(measure, &mask);
    Ok((sum, columns.selected_extremes(measure, &mask)))
}

// A measure, the greatest quantity and discount, and what is selected.
static SELECTED: [(Measure, u8, u8, Selected); 10] = [
    (Measure::Discounted, 24, 3, (8000, Some((2000, 6000)))),
    (Measure::Revenue, 24, 3, (2920, Some((980, 1940)))),
    (Measure::Quantity, 24, 3, (41, Some((17, 24)))),
    (Measure::ExtendedPrice, 24, 3, (3000, Some((1000, 2000)))),
    (Measure::SupplyCost, 24, 3, (2600, Some((600, 2000)))),
    (Measure::Profit, 24, 3, (320, Some((-60, 380)))),
    (Measure::Profit, 255, 255, (715, Some((-60, 395)))),
    (Measure::Discounted, 255, 255, (8500, Some((500, 6000)))),
    (Measure::Profit, 255, 1, (395, Some((395, 395)))),
    (Measure::Revenue, 16, 255, (0, None)),
];

#[test]
fn selects_of_the_sample(rt: HostRuntime) {
    for (measure, quantity, discount, want) in &SELECTED {
        assert!(rt;
            selected(rt.alloc(), *measure, *quantity, *discount) == Ok(*want),
            "{measure} up to {quantity} and {discount}"
        );
    }
}
