//! The five tables of the Star Schema Benchmark as text, by the benchmark's rules (O'Neil, O'Neil, Chen): its domains,
//! its formulas, and as many rows as a scale asks for. The random numbers are not those of the benchmark's own
//! generator.
#![tactic(auto)]

mod calendar;
mod facts;
mod fields;
mod members;
mod places;
mod random;
mod scale;

pub use calendar::write_dates;
pub use facts::write_lineorders;
pub use members::{write_customers, write_parts, write_suppliers};
pub use random::Random;
pub use scale::Scale;
