//! Texts with codes: the code of a text is the place where it was first seen. And how they are stored.
#![tactic(auto)]

mod codes;
mod dictionary;
mod memo;
mod reading;
mod writing;

pub use codes::are_codes;
pub use dictionary::Dictionary;
