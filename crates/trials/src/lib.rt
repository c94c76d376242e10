//! Trials of a warehouse on a disk in memory that fails: the demonstration loads tables, loses its power within a
//! commit and reports what was acknowledged; the test crashes at each call of the disk in turn, and then at random
//! ones, and what the disk has kept is opened, checked and asked.
#![tactic(auto)]

mod campaign;
mod crash;
mod crash_tables;
mod demo_facts;
mod demo_rows;
mod life;
mod opened;
mod outage;
mod outcome;
mod sample;
mod steps;
mod story;
mod telling;
mod wrong;

pub use campaign::test_crashes;
pub use story::demonstrate;
