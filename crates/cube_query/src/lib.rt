//! The answer to a query over fact rows.
#![tactic(auto)]

mod answer;
mod asked;
mod cell_columns;
mod cell_runs;
mod cell_slots;
mod chosen_rows;
mod column_rows;
mod group_slots;
mod moded_rows;
mod running;
mod whole_batch;

pub use answer::fold;
pub use moded_rows::RowsWithModes;
pub use running::Fold;
