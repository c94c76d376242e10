//! Answers over parts of the fact rows, merged into the answer over all of them; and partial reports: such answers in
//! files that are merged into the report over all rows.
#![tactic(auto)]

mod asked;
mod digests;
mod fields;
mod finishing;
mod head;
mod head_reading;
mod laws;
mod members;
mod merge_laws;
mod merging;
mod partial;
mod readable;
mod reading;
mod refused;
mod rows;
mod texts;
mod wide;
mod words;
mod writing;

pub use asked::PartAsked;
pub use digests::digest_of;
pub use finishing::finished_lines;
pub use head::Head;
pub use head_reading::{HeadRead, read_head};
pub use laws::{heads_read_back, partial_reports_read_back};
pub use merge_laws::{
    answers_merge, merge_is_the_one, merged_numbers_fit, merged_reports_are_the_report,
    merging_is_associative, neighbours_may_change_places, partial_answers_are_readable,
    partial_answers_can_be_finished, partial_answers_suffice, parts_make_the_answer,
    reports_read_back,
};
pub use merging::{merge, merge_in};
pub use partial::{partial_agg, partial_query};
pub use reading::read_answer;
pub use refused::{Refused, Wrong};
pub use texts::head_text;
pub use wide::{WideLine, widened};
pub use words::{Word, WordKind};
pub use writing::{begin_partial, write_partial};
