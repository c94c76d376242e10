//! Tests of batches as they are stored.
mod batches;
mod decoding;
mod projected;
mod sources;
mod sums;
