//! A batch of fact rows as columns, and how it is stored on disk.
#![tactic(auto)]

mod batch;
mod coding;
mod column_buffer;
mod columns;
mod encoding;
mod extremes;
mod fact_columns;
mod gathering;
mod laws;
mod layout;
mod projecting;
mod reading;
mod rows;
mod segment;
mod sources;
mod sums;

pub use batch::is_batch;
pub use column_buffer::ColumnBuffer;
pub use columns::{Column, FactColumn, TextColumn};
pub use encoding::{BatchColumns, encode};
pub use fact_columns::FactColumns;
pub use laws::bytes_are_one_batch;
pub use segment::{Segment, decode};
pub use sources::decode_from;
