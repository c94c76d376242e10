//! The words of a query: the query that they spell, or the first mistake in them and how it is said, and what no row
//! can meet of the conditions of a query. The words of views: which views they name, or what is wrong with them.
#![tactic(auto)]

mod aggregates;
mod columns;
mod conditions;
mod cube_parts;
mod cuts;
mod hints;
mod known;
mod laws;
mod limits;
mod members;
mod names;
mod nearness;
mod notes;
mod parts;
mod ranges;
mod refused;
mod said;
mod view_hints;
mod view_reading;
mod view_refused;
mod view_words;
mod words;

pub use hints::{WordHint, hint_of};
pub use known::Known;
pub use laws::words_spell_one_query;
pub use nearness::nearest;
pub use notes::{End, Note, write_notes};
pub use refused::{Counted, Mistake, QueryWords, Refused};
pub use view_hints::hint_of_view;
pub use view_reading::read_views;
pub use view_refused::RefusedViews;
pub use words::read_query;
