//! The thirteen queries of the Star Schema Benchmark, and the text of an answer.
#![tactic(auto)]

mod benchmark;
mod field;
mod fields;
mod filter;
mod lines;
mod number;
mod report;
mod writing;

pub use benchmark::query_of;
pub use field::Field;
pub use fields::Fields;
pub use lines::Lines;
pub use number::QNumber;
pub use report::{write_count, write_joined, write_report};
pub use writing::{flush, write_bytes, write_number, write_parts};
