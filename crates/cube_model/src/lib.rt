//! What the star schema warehouse speaks of: rows, queries, answers and faults.
#![tactic(auto)]

mod amount;
mod answer;
mod attr;
mod fault;
mod items;
mod laws;
pub mod limits;
mod measure;
mod query;
mod row_text;
mod rows;
mod totals;

pub use amount::Amount;
pub use answer::{Answer, Fraction, Line, Member, Value};
pub use attr::{Attr, Axis};
pub use fault::{Fault, MemberPlace, Place};
pub use items::{Items, Text};
pub use laws::{
    answer_is_the_one, fraction_is_the_one, keys_are_in_total_order, rows_of_a_key,
    valid_rows_keep_the_rules,
};
pub use measure::{Agg, Measure};
pub use query::{Cond, Kind, Order, ProperQuery, Query};
pub use row_text::RowText;
pub use rows::{CustomerRow, DateRow, DimRows, LineOrder, PartRow, SupplierRow};
pub use totals::Totals;
