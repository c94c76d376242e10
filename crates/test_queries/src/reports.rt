//! Tests of the thirteen queries, and of reports as they are written.
mod benchmark;
mod made_reports;
