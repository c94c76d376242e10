//! Answers to queries over the batches of a store, each by the plan that reads least; also to queries that look at ship
//! modes.
#![tactic(auto)]

mod answering;
mod following;
mod found;
mod laws;
mod mode_answering;
mod mode_batches;
mod mode_counting;
mod mode_following;
mod mode_found;
mod mode_planning;
mod planning;
mod stepping;

pub use answering::groups_by_plan;
pub use following::cuboid_of;
pub use found::Found;
pub use laws::planned_without_ship_modes;
pub use mode_answering::answer_by_plan;
pub use mode_found::FoundByModes;
pub use mode_planning::{mode_plan_of, mode_plans_of};
pub use planning::{plan_of, plans_of, stored_in};
pub use stepping::Running;
