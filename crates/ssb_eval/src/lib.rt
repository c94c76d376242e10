//! The answer to a query over the texts of five tables, as a report.
#![tactic(auto)]

mod evaluation;
mod facts;
mod formatting;
mod laws;
mod partial;
mod ship_modes;
mod star;
mod unknown;

pub use evaluation::eval_texts;
pub use formatting::eval_formatted;
pub use laws::facts_are_the_rows_of_their_text;
pub use partial::eval_partial;
pub use star::{Evaluated, Tables};
pub use unknown::{UnknownKey, keep_unknown};
