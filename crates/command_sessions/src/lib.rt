//! The warehouse that a command names: opened, asked, and explained where it refuses.
#![tactic(auto)]

pub mod contents;
pub mod course;
pub mod device;
pub mod device_hints;
pub mod explaining;
pub mod job;
pub mod needs;
pub mod notes;
pub mod plans;
mod reads;
pub mod reports;
pub mod space;
pub mod unfinished;
