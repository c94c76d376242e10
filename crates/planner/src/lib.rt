//! From which stored cells a query is answered, or whether by a scan of the fact rows.
#![tactic(auto)]

mod cheapest;
mod cost;
mod listing;
mod price;
mod stored;

pub use cheapest::plan;
pub use listing::plans;
pub use price::{AccessPath, AccessPath as Plan, Priced};
pub use stored::Stored;
