//! The words of the program: its commands, their options, and what the help says of each.
#![tactic(auto)]

mod add;
mod check;
mod commands;
mod completions;
mod copy;
mod create;
mod cube;
mod cuboids;
mod demo;
mod described;
mod dump;
mod eval;
mod explain;
mod generate;
mod load;
mod manual;
mod merge;
mod migrate;
mod pieces;
mod report;
mod self_test;
mod shells;
mod status;
mod views;
mod word;
mod words;

pub use commands::{command, listed_query};
pub use completions::{Completions, Shell};
pub use manual::Manual;
