//! Which cuboids to store: the benefit of views, and the greedy choice of them.
#![tactic(auto)]

mod choice;
mod costs;
mod laws;
mod ties;

pub use choice::{MOST_DEMANDED, benefits, benefits_for, greedy, greedy_for};
pub use costs::MOST_STORED_CELLS;
pub use laws::{
    benefits_add_up, benefits_fall, greedy_guarantee, greedy_members, one_greedy_choice,
    one_greedy_choice_for, one_greedy_list, paper_example, some_greedy_list,
};
