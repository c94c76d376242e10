//! The views that a cube can store, which of them answer which, and how many cells they can have.
#![tactic(auto)]

mod counts;
mod laws;
mod level;
mod name;
mod needed;
mod query;
mod view;

pub use counts::{Counts, LevelCounts};
pub use laws::{
    answering_is_a_partial_order, indexes_name_views, levels_determine, serving_goes_down,
};
pub use level::Level;
pub use name::ViewName;
pub use view::View;
