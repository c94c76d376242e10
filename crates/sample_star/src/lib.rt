//! The sample star of the tests: small tables as texts and as values, queries, random choices, readers and writers that
//! cut and fail, and a device that does not keep its word.
#![tactic(auto)]

mod draw;
mod facts;
mod many_pairs;
mod queries;
mod readers;
mod stars;
mod tables;
mod turning;
mod writers;

pub use draw::Draw;
pub use facts::{
    FACTS, FIRST_FACT, Fact, SECOND_FACT, STRANGER, THIRD_FACT, line_order, line_orders,
};
pub use many_pairs::{pairs, rows_of_pairs};
pub use queries::{
    ATTRIBUTES, AVERAGES, Asked, BY_CITY, CITIES, CUBE, Condition, DISCOUNTED, EVERY_ROW, PROFIT,
    ROLLUP, query,
};
pub use readers::{Pieces, byte_by_byte, in_pieces, in_sevens, whole};
pub use stars::{
    Day, FIRST_CUSTOMER, FIRST_DAY, FIRST_PART, FIRST_SUPPLIER, Location, MOVED_CUSTOMER, NO_ROWS,
    ONE_CUSTOMER, Product, STAR, Star, THIRD_CUSTOMER, WIDER_STAR, dim_rows, text,
};
pub use tables::{TABLES, Tables};
pub use turning::Turning;
pub use writers::{Taker, WhenFull};
