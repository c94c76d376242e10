//! The number of the group that each fact row belongs to by a query. The numbers rise as the keys of the groups do.
#![tactic(auto)]

mod bounds;
mod column;
mod copies;
mod digits;
mod filter;
mod filters;
mod group_numbers;
mod kinds;
mod member_rows;
mod over;
mod places;
mod rows;
mod side;
mod sides;

pub use bounds::Bounds;
pub use group_numbers::GroupNumbers;
pub use over::GroupNumbersOver;
pub use rows::{FactRows, ModeRows, RowSlice};
pub use side::UnknownKey;
