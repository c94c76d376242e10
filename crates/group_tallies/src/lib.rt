//! The tallies of groups of fact rows, at the slots of their numbers, and the lines of an answer that they make.
#![tactic(auto)]

mod coarser;
mod columns;
mod finish;
mod finished;
mod fraction;
mod lines;
mod numbers;
mod order;
mod place_table;
mod room;
mod slots;
mod tally;

pub use columns::{copy_columns, count_in_all, lengthen, make_room, no_columns};
pub use finish::answer_lines;
pub use finished::{GroupLine, GroupLines, Groups};
pub use fraction::fraction_of;
pub use room::have_room;
pub use slots::Slots;
pub use tally::{LIMIT, Tally, TooLarge};
