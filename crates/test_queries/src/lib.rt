//! Tests of `group_numbers`, `cube_query`, `batch_admission`, `ssb_reports` and `report_formats`: answers that were
//! worked out by hand, refusals and limits, the check of a batch, and reports in each format.
#![tactic(auto)]

#[cfg(test)]
mod admission;
#[cfg(test)]
mod answers;
#[cfg(test)]
mod cells_by_hand;
#[cfg(test)]
mod examples;
#[cfg(test)]
mod formats;
#[cfg(test)]
mod printing;
#[cfg(test)]
mod reports;
#[cfg(test)]
mod running;
#[cfg(test)]
mod runs;
#[cfg(test)]
mod written_cells;
