//! The fact rows of a stored batch, and the ship modes of all. What stays where rows are added to dimensions, and
//! whether rows are there already.
#![tactic(auto)]

mod among;
mod gathering;
mod laws;
mod mode_column;
mod own_modes;
mod passing;
mod reading;
mod ship_modes;
mod text_part;
mod window;

pub use among::has_rows;
pub use laws::{
    admissions_stay, answers_as_of_stay, answers_stay, cells_stay, widening_represents,
};
pub use own_modes::has_own_ship_modes;
pub use reading::read_rows;
pub use ship_modes::read_ship_modes;
