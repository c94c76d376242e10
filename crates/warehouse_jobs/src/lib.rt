//! What is done to an open warehouse: a file is loaded, rows are added to the dimensions, a query is answered and
//! reported or its plans are written, the numbers are written, and cuboids are chosen, kept up to date and audited; all
//! that is stored is checked, the warehouse is moved to the second layout, and copied to another device, and its fact
//! rows are written again as the lines of their table.
#![tactic(auto)]

mod adding;
mod answer_form;
mod answer_laws;
mod answering;
mod checking;
mod choosing;
mod copied_batches;
mod copied_cuboids;
mod copied_tables;
pub mod copy_laws;
mod copying;
mod dump_laws;
mod dumping;
mod explaining;
mod formatting;
mod job;
mod keeping;
pub mod laws;
mod loading;
mod migrating;
mod partial;
mod performing;
mod plan_lines;
mod printing;
mod reported;
mod reporting;
mod taken;
mod telling;

pub use adding::add;
pub use answer_laws::{answered_without_ship_modes, asked_without_ship_modes};
pub use answering::answered;
pub use checking::check;
pub use copying::copy;
pub use dump_laws::dumps_read_back;
pub use dumping::{write_batch, write_batches};
pub use explaining::explain;
pub use formatting::report_formatted;
pub use job::{BatchNumber, BatchRows, Job};
pub use loading::{LoadText, load};
pub use partial::report_partial;
pub use performing::perform;
pub use reported::{Reported, ReportedLines};
