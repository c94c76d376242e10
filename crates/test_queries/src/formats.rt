//! Tests of `report_formats`: reports of an answer that was made by hand in each format, and what other readers read of
//! them.
mod answers;
mod reading;
mod writing;
