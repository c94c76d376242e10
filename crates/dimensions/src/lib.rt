//! The four dimensions: their members, and the attributes of their rows.
#![tactic(auto)]

mod coded;
mod column;
mod counted;
mod dimension;
mod dims;
mod entries;
mod key_rows;
mod members;
mod ranks;
mod row;
mod shape;
mod short;

pub use coded::{CodedColumn, CodedDims, CodedRows};
pub use dims::Dims;
pub use shape::{column_count, lower_column};
pub use short::have_short_texts;
