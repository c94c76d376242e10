//! The rows of a batch that lie within bounds.
ghost use Rattle.std.specs.Prelude.{◌≡◌, ◌<◌, ◌^◌, List, length, IfOk, IsOkUnless};
ghost use Rattle.std.specs.List.{range_with_len};
ghost use Rattle.cube_model.specs.declared.fault.Fault.{Fault};
ghost use Rattle.cube_model.specs.declared.query.Cond.{Cond};
ghost use Rattle.cube_model.specs.declared.rows.DimRows.{DimRows};
ghost use Rattle.group_numbers.specs.GroupNumbers.{AreBounds};
ghost use Rattle.cube_query.specs.Chosen.{KeepSelected, places_from};

use crate::column_rows::ColumnRows;
use column_kernels::Mask;
use column_segment::FactColumns;
use cube_model::{Axis, Fault, Measure};
use group_numbers::{Bounds, FactRows, GroupNumbersOver};
use std::alloc::{AllocError, Global};
use std::marker::Model;

/// Some rows of a batch by a selection vector: their places there. No row is made. Contracts see the list of the rows.
#[derive(Drop)]
pub struct ChosenRows<'a> {
    rows: ColumnRows<'a>,
    places: Vec<u32>,
}

impl<'a> Model for ChosenRows<'a> {
    ghost use Rattle.std.specs.Prelude.{List, map, length, ◌<◌};
    ghost use Rattle.std.specs.List.{All};
    ghost use Rattle.cube_model.specs.declared.rows.LineOrder.{LineOrder};
    ghost use Rattle.group_numbers.specs.Rows.{row_at};

    ghost Value = { List LineOrder };

    ghost view = { λ c. map (row_at c.rows) c.places.items };

    ghost invariant = { λ c. All (λ place. place < length c.rows) c.places.items };
}

impl<'a> ChosenRows<'a> {
    /// Rows of a batch, and among them all that a query selects: those whose quantity and discount lie within its
    /// bounds and whose keys pass its tables. It can only fail when out of memory.
    pub fn of(
        alloc: Global,
        grouping: &GroupNumbersOver,
        batch: FactColumns<'a>,
    ) -> Result<ChosenRows<'a>, Fault>
        ensures ok { IfOk result
            (λ chosen. KeepSelected grouping.now.dimensions grouping.now.query.conditions chosen batch.entry) }
        ensures memory { IsOkUnless result Fault.Memory }
    {
        let chosen = ChosenRows::bounded(alloc, batch, grouping.bounds())?;
        let chosen = chosen.without(grouping, Axis::Supplier);
        let chosen = chosen.without(grouping, Axis::Customer);
        let chosen = chosen.without(grouping, Axis::Part);
        Ok(chosen.without(grouping, Axis::Date))
    }

    // The rows of a batch whose quantity and discount lie within bounds.
    fn bounded(
        alloc: Global,
        batch: FactColumns<'a>,
        bounds: Bounds,
    ) -> Result<ChosenRows<'a>, Fault>
        ensures ok { IfOk result (λ chosen. (dimensions : DimRows) (conditions : List Cond)
            → AreBounds conditions bounds
            → KeepSelected dimensions conditions chosen batch.entry) }
        ensures memory { IsOkUnless result Fault.Memory }
    {
        if are_open(bounds) {
            return ChosenRows::all(alloc, batch);
        }
        ChosenRows::within(alloc, batch, bounds)
    }

    // All rows of a batch.
    fn all(alloc: Global, batch: FactColumns<'a>) -> Result<ChosenRows<'a>, Fault>
        ensures ok { IfOk result (λ chosen. chosen ≡ batch.entry) }
        ensures memory { IsOkUnless result Fault.Memory }
    {
        let places = all_places(alloc, batch.len())?;
        Ok(ChosenRows {
            rows: ColumnRows::of(batch),
            places,
        })
    }

    // The rows of a batch whose quantity and discount lie within bounds, by the mask of these columns.
    fn within(
        alloc: Global,
        batch: FactColumns<'a>,
        bounds: Bounds,
    ) -> Result<ChosenRows<'a>, Fault>
        ensures ok { IfOk result (λ chosen. (dimensions : DimRows) (conditions : List Cond)
            → AreBounds conditions bounds
            → KeepSelected dimensions conditions chosen batch.entry) }
        ensures memory { IsOkUnless result Fault.Memory }
    {
        let quantity = (bounds.least_quantity, bounds.greatest_quantity);
        let discount = (bounds.least_discount, bounds.greatest_discount);
        let mask = batch.mask(alloc, quantity, discount)?;
        let places = chosen_places(alloc, &mask, batch.len())?;
        Ok(ChosenRows {
            rows: ColumnRows::of(batch),
            places,
        })
    }

    // The rows without those that fail a condition on a dimension, as far as a table of its keys tells.
    fn without(self, grouping: &GroupNumbersOver, axis: Axis) -> ChosenRows<'a>
        ensures { KeepSelected grouping.now.dimensions grouping.now.query.conditions result self.entry }
    {
        let ChosenRows { rows, mut places } = self;
        let kept = grouping.keep(&rows, axis, places.as_mut_slice());
        places.truncate(kept);
        ChosenRows { rows, places }
    }
}

impl<'a> FactRows for ChosenRows<'a> {
    ghost rows = { λ rows. rows };

    fn count(&self) -> usize {
        self.places.len()
    }

    fn key(&self, place: usize, axis: Axis) -> u32 {
        self.rows.key(self.places[place] as usize, axis)
    }

    fn quantity(&self, place: usize) -> u8 {
        self.rows.quantity(self.places[place] as usize)
    }

    fn discount(&self, place: usize) -> u8 {
        self.rows.discount(self.places[place] as usize)
    }

    fn measure(&self, place: usize, measure: Measure) -> i128 {
        self.rows.measure(self.places[place] as usize, measure)
    }
}

// Whether no quantity and no discount lies out of bounds.
fn are_open(bounds: Bounds) -> bool {
    bounds.least_quantity == 0
        && bounds.greatest_quantity == u8::MAX
        && bounds.least_discount == 0
        && bounds.greatest_discount == u8::MAX
}

// The places of so many rows.
fn all_places(alloc: Global, count: usize) -> Result<Vec<u32>, AllocError>
    requires { count < 2 ^ 32 }
    ensures { IfOk result (λ places. places.items ≡ range_with_len 0 count) }
{
    let mut places = vec![in alloc; 0; count]?;
    for place in 0..count {
        places[place] = place as u32;
    }
    Ok(places)
}

// The places of the rows that a mask of so many selects.
fn chosen_places(alloc: Global, mask: &Mask, count: usize) -> Result<Vec<u32>, AllocError>
    requires count { count ≡ length mask.now }
    requires few { count < 2 ^ 32 }
    ensures { IfOk result (λ places. places.items ≡ places_from 0 mask.now) }
{
    let mut places = vec![in alloc; 0; count]?;
    let mut kept = 0;
    for place in 0..count {
        places[kept] = place as u32;
        kept += usize::from(mask.get(place).unwrap_or(false));
    }
    places.truncate(kept);
    Ok(places)
}
