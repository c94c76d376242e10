//! The five tables, and the lines and rows of their texts.
#![tactic(auto)]

mod columns;
mod laws;
mod line_fields;
mod lines;
mod numbers;
mod reading;
mod row_buffer;
mod rows;
mod schema;
mod tables;
mod window;

pub use columns::Column;
pub use laws::{fields_are_spelled, lines_are_spelled};
pub use line_fields::{LineFields, fields, without_cr};
pub use lines::Lines;
pub use schema::Table;
pub use tables::{
    read_batch, read_batch_into, read_customers, read_dates, read_parts, read_suppliers,
};
