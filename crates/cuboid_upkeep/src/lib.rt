//! The cells of a view, made of fact rows and kept up with them.
#![tactic(auto)]

mod cell_numbers;
mod codes;
mod grouping;
mod growing;
mod keys;
mod laws;
mod member_codes;
mod member_keys;
mod member_parts;
mod merging;
mod mode_codes;
mod numbers;
mod row_cell;
mod row_numbers;
mod table;
mod taking;

pub use cell_numbers::{CellNumbers, UnknownMember};
pub use growing::GrowingCells;
pub use laws::{
    cells_are_the_one, merges_represent_both, modes_are_added_after, more_rows_have_no_fewer_cells,
    one_key_one_group, rows_have_cells, rows_in_range_fit,
};
pub use member_codes::{MemberCodes, ViewMembers};
pub use table::CellTable;
