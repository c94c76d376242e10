//! Tests of `lattice`, `view_choice`, `cuboid_cells` and `cuboid_upkeep`: how views print, which views queries need,
//! greedy choices, and cells.
#![tactic(auto)]

#[cfg(test)]
mod cells;
#[cfg(test)]
mod choice;
#[cfg(test)]
mod served;
#[cfg(test)]
mod views;
