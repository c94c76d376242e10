//! The commands of the program.
#![tactic(auto)]

mod add;
mod arguments;
mod check;
mod copy;
mod crashes;
mod create;
mod cuboids;
mod demand;
mod demo;
mod dump;
mod eval;
mod generate;
mod load;
mod load_refusals;
mod members;
mod merge;
mod running;
mod status;
mod views;

pub use arguments::words;
pub use command_files::refusal::Refusal;
pub use command_files::screens::Screens;
pub use command_files::system::System;
pub use running::{refuse, run};
