//! The lines of a report in the order by a column or by an aggregate, and the first of them. Reports, and records of
//! numbers and words, for other programs: csv, tsv and json, and averages as decimals.
#![tactic(auto)]

mod arranged;
mod arrangement;
mod asked;
mod cell;
mod cells;
mod comparing;
mod decimals;
mod escapes;
mod fields;
mod formatted;
mod fractions;
mod laws;
mod layout;
mod names;
mod order_laws;
mod records;

pub use arranged::Arranged;
pub use arrangement::{Arrangement, SortKey, Sorting};
pub use asked::Asked;
pub use cell::Cell;
pub use formatted::write_formatted;
pub use laws::{csv_reads_back, tsv_reads_back};
pub use layout::{Format, Layout};
pub use names::sort_key;
pub use order_laws::{answers_are_sorted, averages_sort_alike};
pub use records::Records;
