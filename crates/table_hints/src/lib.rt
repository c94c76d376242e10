//! What is wrong with a line for which a table is refused.
#![tactic(auto)]

mod lines;
mod quoted;
mod text_lines;

pub use quoted::Quoted;
pub use text_lines::line_hint;
