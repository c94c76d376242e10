//! The five tables, written again as the lines that spell their rows; the members of an attribute, listed with the
//! members above them and their numbers of rows.
#![tactic(auto)]

mod cell;
mod dimension;
mod facts;
mod laws;
mod listing;
mod part;
mod spellable;
mod tallies;
mod uppers;

pub use dimension::write_dimension;
pub use facts::write_facts;
pub use laws::{dimensions_read_back, facts_read_back};
pub use listing::write_members;
