//! Sessions over the sample star, for the tests of warehouses: how they are made and asked, answers worked out by
//! hand, disks of which bytes were changed, runs of commands and their replies, sessions that store cuboids, and
//! openings that crash.
#![tactic(auto)]

mod answers;
mod by_mode;
mod changes;
mod crashed;
mod scripts;
mod sessions;
mod stored;

pub use answers::{Lines, answer, ask, finding, first_other, found, report};
pub use by_mode::{Revenue, has_revenues};
pub use changes::{Change, make_change, sector};
pub use crashed::{OPENING, SUBMIT, half_opened, refusal};
pub use scripts::{Expected, Given, Numbers, Script, first_other_reply};
pub use sessions::{
    add, as_is, created, created_over, fresh, loaded, opened, opened_again, sample_dims, status,
    submit,
};
pub use stored::{THREE, TWO_CELLS, status_of_three, store_views, with_cuboids, with_three};
