//! What commands take and give: the words of queries, files and streams, and refusals.
#![tactic(auto)]

pub mod batch_hints;
pub mod broken_rows;
pub mod exit;
pub mod files;
pub mod joined;
pub mod layout;
pub mod listed;
pub mod locating;
pub mod output;
pub mod progress;
pub mod query;
pub mod records;
pub mod refusal;
pub mod refused_lines;
pub mod report;
pub mod saving;
pub mod screens;
pub mod sizes;
mod split;
pub mod streams;
pub mod system;
pub mod table_files;
pub mod table_paths;
pub mod table_refusals;
pub mod texts;
pub mod timing;
pub mod unmerged;
mod watched;
