//! The limits of rows, batches and queries.

/// The most bytes of a text that is kept.
pub const LONGEST_TEXT: usize = 255;

/// The most bytes of a line of a table, a carriage return counted and the line feed not.
pub const LONGEST_LINE: usize = 8192;

/// The most fact rows of a batch.
pub const MOST_BATCH_ROWS: usize = 65_536;

/// The most batches of a warehouse.
pub const MOST_BATCHES: usize = 4096;

/// The most rows of a dimension of customers, suppliers or parts.
pub const MOST_DIMENSION_ROWS: usize = 4_194_304;

/// The most rows of the dimension of days.
pub const MOST_DAYS: usize = 65_535;

/// The most members of an attribute.
pub const MOST_MEMBERS: usize = 65_535;

/// The most columns of a query.
pub const MOST_COLUMNS: usize = 6;

/// The most aggregates that are asked for in words.
pub const MOST_ASKED_AGGREGATES: usize = 8;

/// The most aggregates of a query, of which it has at least one: those that are asked for, and the count that a partial
/// answer has before them.
pub const MOST_AGGREGATES: usize = 9;

/// The most conditions of a query.
pub const MOST_CONDITIONS: usize = 16;

/// The most texts of a condition that lists them, of which it has at least one.
pub const MOST_LISTED_TEXTS: usize = 64;
