//! Queries that look at ship modes: a fact row has its ship mode in its own text, and in no dimension.
#![tactic(auto)]

mod columns;
mod laws;
mod passing;
mod query;
mod reference;

pub use laws::{answers_join, answers_without_ship_modes};
pub use passing::passes;
pub use query::{ModeCond, ModeQuery, ProperModeQuery, SHIP_MODE};
pub use reference::{ProperRef, QueryRef};
