//! Partial reports merged into the answer over all rows, from bytes on.
#![tactic(auto)]

mod finishing;
mod laws;
mod lines;
mod merge;
mod numbers;
mod ordering;
mod readers;
mod refused;
mod words;

pub use laws::{
    counts_are_appended, merged_texts_are_the_answer, merged_texts_can_be_finished,
    partial_reports_are_of_one_part, written_texts_can_be_merged,
};
pub use merge::Merge;
pub use readers::merge_readers;
pub use refused::{Refused, Unmerged};
